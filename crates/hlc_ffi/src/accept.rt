//! The calls that feed a store, and those that check what would be refused.
ghost use Rattle.std.specs.Prelude.{◌≡◌, ◌≢◌, Some, None, MatchResult};
ghost use Rattle.hlc_node.specs.declared.item.Body.TheVariants.{Write as a_write, Report as a_report};
ghost use Rattle.hlc_node.specs.declared.item.Body.TheVariants.{Retire as a_retire, Batch as a_batch};
ghost use Rattle.hlc_node.specs.Items.{an_item};
ghost use Rattle.hlc_calls.specs.Entries.{AreEntered};
ghost use Rattle.hlc_node_calls.specs.Batches.{batch_in};
ghost use Rattle.hlc_ffi.specs.Handle.{OnStorePast, IsAccepting, IsChecking, IsGivenBack};

use crate::handle::{of_core, on_core};
use hlc_calls::entries::{Entry, enter_all};
use hlc_calls::items::{accept, check, check_plain};
use hlc_core::{ItemRef, Stamp};
use hlc_handle::{Reader, Slot, Store};
use std::alloc::Global;

/// Accepts the write that a node issued under this number. Returns 0 and its stamp, or a refusal and its word.
#[unsafe(no_mangle)]
pub extern "C" fn hlc_store_accept_write(
    alloc: Global,
    store: &mut Store,
    node: u16,
    number: u64,
    stamp: u64,
    key: &[u8],
    value: &[u8],
    word: &mut u64,
) -> u32
    ensures answer { IsAccepting store.old.value store.new.value
        (an_item node number stamp (a_write key.now (Some value.now))) result word.new }
    ensures unchanged { result ≢ 0 → store.new.value ≡ store.old.value }
{
    let item = ItemRef::write(node, number, Stamp::from_bits(stamp), key, Some(value));
    on_core!(alloc, store, [word], |core| accept(core, &item, word))
}

/// Accepts the deletion that a node issued under this number. Returns 0 and its stamp, or a refusal and its word.
#[unsafe(no_mangle)]
pub extern "C" fn hlc_store_accept_delete(
    alloc: Global,
    store: &mut Store,
    node: u16,
    number: u64,
    stamp: u64,
    key: &[u8],
    word: &mut u64,
) -> u32
    ensures answer { IsAccepting store.old.value store.new.value
        (an_item node number stamp (a_write key.now None)) result word.new }
    ensures unchanged { result ≢ 0 → store.new.value ≡ store.old.value }
{
    let item = ItemRef::write(node, number, Stamp::from_bits(stamp), key, None);
    on_core!(alloc, store, [word], |core| accept(core, &item, word))
}

/// Accepts the batch that a node issued under this number: all of its writes, or none. `writes` are its bytes, as in
/// `hlc_node_write_batch`. Returns 0 and its stamp, or a refusal and its word; first 29, or 106 and the first fault.
#[unsafe(no_mangle)]
pub extern "C" fn hlc_store_accept_batch(
    alloc: Global,
    store: &mut Store,
    node: u16,
    number: u64,
    stamp: u64,
    count: usize,
    writes: &[u8],
    word: &mut u64,
) -> u32
    ensures answer { MatchResult (batch_in count writes.now) (λ all. IsAccepting store.old.value store.new.value
        (an_item node number stamp (a_batch all)) result word.new)
        (λ bad. (result ≡ bad.0) × (word.new ≡ bad.1)) }
    ensures unchanged { result ≢ 0 → store.new.value ≡ store.old.value }
{
    *word = 0;
    let all = match hlc_node_calls::batch_of(count, writes) {
        Ok(all) => all,
        Err(bad) => {
            *word = bad.word;
            return bad.code;
        }
    };
    let item = ItemRef::batch(node, number, Stamp::from_bits(stamp), all);
    on_core!(alloc, store, |core| accept(core, &item, word))
}

/// Accepts a node's report of this number. Returns 0 and its stamp, or a refusal and its word. It takes no memory.
#[unsafe(no_mangle)]
pub extern "C" fn hlc_store_accept_report(
    alloc: Global,
    store: &mut Store,
    node: u16,
    number: u64,
    stamp: u64,
    word: &mut u64,
) -> u32
    ensures answer { IsAccepting store.old.value store.new.value (an_item node number stamp a_report) result word.new }
    ensures unchanged { result ≢ 0 → store.new.value ≡ store.old.value }
{
    let item = ItemRef::report(node, number, Stamp::from_bits(stamp));
    on_core!(alloc, store, [word], |core| accept(core, &item, word))
}

/// Accepts a node's last item, of this number. Returns 0 and its stamp, or a refusal and its word. No memory.
#[unsafe(no_mangle)]
pub extern "C" fn hlc_store_accept_retire(
    alloc: Global,
    store: &mut Store,
    node: u16,
    number: u64,
    stamp: u64,
    word: &mut u64,
) -> u32
    ensures answer { IsAccepting store.old.value store.new.value (an_item node number stamp a_retire) result word.new }
    ensures unchanged { result ≢ 0 → store.new.value ≡ store.old.value }
{
    let item = ItemRef::retire(node, number, Stamp::from_bits(stamp));
    on_core!(alloc, store, [word], |core| accept(core, &item, word))
}

/// Accepts writes and deletions in turn, until one is refused. Returns 0, or the answer for the refused one, its word,
/// and how many were accepted before it. The answer is 103 for an entry whose bytes are not there.
#[unsafe(no_mangle)]
pub extern "C" fn hlc_store_accept_all(
    alloc: Global,
    store: &mut Store,
    entries: &[Entry],
    bytes: &[u8],
    count: &mut usize,
    word: &mut u64,
) -> u32
    ensures { OnStorePast store.old.value store.new.value ((result ≡ 100) × (count.new ≡ 0) × (word.new ≡ 0))
        (λ old new past. AreEntered new entries.now bytes.now past result count.new word.new) }
{
    on_core!(alloc, store, [count, word], |core| {
        enter_all(core, entries, bytes, count, word)
    })
}

/// Returns why `hlc_store_accept_write` would refuse a write, apart from out of memory: 0, or the refusal and its word.
#[unsafe(no_mangle)]
pub extern "C" fn hlc_store_check_write(
    store: &mut Reader,
    node: u16,
    number: u64,
    stamp: u64,
    key: &[u8],
    value: &[u8],
    word: &mut u64,
) -> u32
    ensures answer { IsChecking store.old.room.value
        (an_item node number stamp (a_write key.now (Some value.now))) result word.new }
    ensures same { IsGivenBack store.old.room store.new.room }
{
    let item = ItemRef::write(node, number, Stamp::from_bits(stamp), key, Some(value));
    of_core!(store, [word], |core| check(core, &item, word))
}

/// Returns why `hlc_store_accept_delete` would refuse a deletion, apart from out of memory: 0, or the refusal and its
/// word.
#[unsafe(no_mangle)]
pub extern "C" fn hlc_store_check_delete(
    store: &mut Reader,
    node: u16,
    number: u64,
    stamp: u64,
    key: &[u8],
    word: &mut u64,
) -> u32
    ensures answer { IsChecking store.old.room.value
        (an_item node number stamp (a_write key.now None)) result word.new }
    ensures same { IsGivenBack store.old.room store.new.room }
{
    let item = ItemRef::write(node, number, Stamp::from_bits(stamp), key, None);
    of_core!(store, [word], |core| check(core, &item, word))
}

/// Returns why `hlc_store_accept_report`, or `hlc_store_accept_retire`, would refuse an item: 0, or the refusal and its
/// word.
#[unsafe(no_mangle)]
pub extern "C" fn hlc_store_check_report(
    store: &mut Reader,
    node: u16,
    number: u64,
    stamp: u64,
    word: &mut u64,
) -> u32
    ensures answer { IsChecking store.old.room.value (an_item node number stamp a_report) result word.new }
    ensures retire { IsChecking store.old.room.value (an_item node number stamp a_retire) result word.new }
    ensures same { IsGivenBack store.old.room store.new.room }
{
    let stamp = Stamp::from_bits(stamp);
    of_core!(store, [word], |core| {
        check_plain(core, node, number, stamp, word)
    })
}
