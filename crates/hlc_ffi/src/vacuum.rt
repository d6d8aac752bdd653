//! The calls that drop what no reader needs.
ghost use Rattle.std.specs.Prelude.{◌≡◌, ◌≢◌, List, false};
ghost use Rattle.hlc_vacuum.specs.Representing.{IsWithin};
ghost use Rattle.hlc_core.specs.{Past.Step, StoreView.Represents};
ghost use Rattle.hlc_calls.specs.Answers.{ReturnsVacuumedAtFloor, ReturnsVacuumedTo, ReturnsVacuumChecked};
ghost use Rattle.hlc_calls.specs.Answers.{ReturnsVacuumedPart};
ghost use Rattle.hlc_ffi.specs.Handle.{OnStore, OnReader, IsGivenBack};

use crate::handle::{of_core, on_core};
use hlc_calls::vacuum::{check_vacuum, vacuum, vacuum_part, vacuum_to};
use hlc_core::Stamp;
use hlc_handle::{Reader, Slot, Store};
use std::alloc::Global;

/// Drops the rows that no reader needs. Returns 0, the floor, the rows kept up to it, their cost, those dropped; or 15.
#[unsafe(no_mangle)]
pub extern "C" fn hlc_store_vacuum(
    alloc: Global,
    store: &mut Store,
    floor: &mut u64,
    kept: &mut u64,
    bytes: &mut u64,
    dropped: &mut u64,
) -> u32
    ensures answer { OnStore store.old.value store.new.value (result ≡ 100) (λ old new. result ≡ 0 → (past : List Step)
        → Represents old past → ReturnsVacuumedAtFloor new past floor.new kept.new bytes.new dropped.new) }
    ensures within { OnStore store.old.value store.new.value (result ≡ 100)
        (λ old new. result ≡ 0 → IsWithin old.rows new.rows) }
    ensures shortage { OnStore store.old.value store.new.value (result ≡ 100) (λ old new. result ≢ 0 → result ≡ 15) }
    ensures nothing { result ≢ 0 → (floor.new ≡ 0) × (kept.new ≡ 0) × (bytes.new ≡ 0) × (dropped.new ≡ 0) }
    ensures unchanged { result ≢ 0 → store.new.value ≡ store.old.value }
{
    on_core!(alloc, store, [floor, kept, bytes, dropped], |core| {
        vacuum(core, floor, kept, bytes, dropped)
    })
}

/// Drops the rows at or below a stamp that no reader needs. Returns 0, the stamp, how many rows up to it were kept,
/// what they cost in bytes, and how many were dropped; or 8 and the floor, 9 and the horizon, or 15.
#[unsafe(no_mangle)]
pub extern "C" fn hlc_store_vacuum_to(
    alloc: Global,
    store: &mut Store,
    at: u64,
    word: &mut u64,
    kept: &mut u64,
    bytes: &mut u64,
    dropped: &mut u64,
) -> u32
    ensures answer { OnStore store.old.value store.new.value
        ((result ≡ 100) × (word.new ≡ 0)) (λ old new. (past : List Step) → Represents old past
        → ReturnsVacuumedTo new at past result word.new kept.new bytes.new dropped.new) }
    ensures within { OnStore store.old.value store.new.value (result ≡ 100)
        (λ old new. result ≡ 0 → IsWithin old.rows new.rows) }
    ensures nothing { result ≢ 0 → (kept.new ≡ 0) × (bytes.new ≡ 0) × (dropped.new ≡ 0) }
    ensures unchanged { result ≢ 0 → store.new.value ≡ store.old.value }
{
    let at = Stamp::from_bits(at);
    on_core!(alloc, store, [word, kept, bytes, dropped], |core| {
        vacuum_to(core, at, word, kept, bytes, dropped)
    })
}

/// Makes a part of `hlc_store_vacuum_to`, of the first keys above `after`, at most `limit` keys. Returns what that
/// returns, of these keys; the length of the last one and, where it fits, the key; and whether a key may be left above
/// it.
#[unsafe(no_mangle)]
pub extern "C" fn hlc_store_vacuum_part(
    alloc: Global,
    store: &mut Store,
    at: u64,
    after: &[u8],
    limit: usize,
    word: &mut u64,
    kept: &mut u64,
    bytes: &mut u64,
    dropped: &mut u64,
    out: &mut [u8],
    len: &mut usize,
    more: &mut bool,
) -> u32
    ensures answer { OnStore store.old.value store.new.value
        ((result ≡ 100) × (word.new ≡ 0)) (λ old new. (past : List Step) → Represents old past
        → ReturnsVacuumedPart old new at after.now limit past result word.new kept.new bytes.new
        dropped.new len.new more.new out.old out.new) }
    ensures within { OnStore store.old.value store.new.value (result ≡ 100)
        (λ old new. result ≡ 0 → IsWithin old.rows new.rows) }
    ensures nothing { result ≢ 0 → (kept.new ≡ 0) × (bytes.new ≡ 0) × (dropped.new ≡ 0)
        × (len.new ≡ 0) × (more.new ≡ false) × (out.new ≡ out.old) }
    ensures unchanged { result ≢ 0 → store.new.value ≡ store.old.value }
{
    *more = false;
    let at = Stamp::from_bits(at);
    on_core!(alloc, store, [word, kept, bytes, dropped, len], |core| {
        vacuum_part(
            core, at, after, limit, word, kept, bytes, dropped, out, len, more
        )
    })
}

/// Returns why `hlc_store_vacuum_to` would refuse: 0, or 8 and the floor, or 9 and the horizon (GC threshold). No
/// memory.
#[unsafe(no_mangle)]
pub extern "C" fn hlc_store_check_vacuum(store: &mut Reader, at: u64, word: &mut u64) -> u32
    ensures answer { OnReader store.old.room.value ((result ≡ 100) × (word.new ≡ 0)) (λ core. (past : List Step)
        → Represents core past → ReturnsVacuumChecked at past result word.new) }
    ensures same { IsGivenBack store.old.room store.new.room }
{
    let at = Stamp::from_bits(at);
    of_core!(store, [word], |core| check_vacuum(core, at, word))
}
