//! The calls by which nodes join a store.
ghost use Rattle.std.specs.Prelude.{◌≡◌, ◌≢◌};
ghost use Rattle.hlc_calls.specs.Answers.{ReturnsJoined, ReturnsJoinedAt};
ghost use Rattle.hlc_ffi.specs.Handle.{OnStorePast};

use crate::handle::on_core;
use hlc_calls::joins::{join, join_at};
use hlc_core::Stamp;
use hlc_handle::{Slot, Store};
use std::alloc::Global;

/// Lets a node join. Returns 0, its number and the stamp at which its clock starts; or 26 or 15.
#[unsafe(no_mangle)]
pub extern "C" fn hlc_store_join(
    alloc: Global,
    store: &mut Store,
    node: &mut u16,
    start: &mut u64,
) -> u32
    ensures answer { OnStorePast store.old.value store.new.value ((result ≡ 100) × (node.new ≡ 0) × (start.new ≡ 0))
        (λ old new past. ReturnsJoined new past result node.new start.new × (new.rows ≡ old.rows)) }
    ensures nothing { result ≢ 0 → (node.new ≡ 0) × (start.new ≡ 0) }
    ensures unchanged { result ≢ 0 → store.new.value ≡ store.old.value }
{
    on_core!(alloc, store, [node, start], |core| join(core, node, start))
}

/// Lets a node join at a start. Returns 0, its number and the start; or 26, or 116 and the floor, or 15.
#[unsafe(no_mangle)]
pub extern "C" fn hlc_store_join_at(
    alloc: Global,
    store: &mut Store,
    start: u64,
    node: &mut u16,
    word: &mut u64,
) -> u32
    ensures answer { OnStorePast store.old.value store.new.value ((result ≡ 100) × (node.new ≡ 0) × (word.new ≡ 0))
        (λ old new past. ReturnsJoinedAt new start past result node.new word.new × (new.rows ≡ old.rows)) }
    ensures nothing { result ≢ 0 → node.new ≡ 0 }
    ensures unchanged { result ≢ 0 → store.new.value ≡ store.old.value }
{
    let start = Stamp::from_bits(start);
    on_core!(alloc, store, [node, word], |core| {
        join_at(core, start, node, word)
    })
}
