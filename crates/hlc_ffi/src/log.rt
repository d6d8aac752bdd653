//! The calls that write the records of a log as bytes, items and others, and take them from there.
ghost use Rattle.std.specs.Prelude.{◌≡◌, Some, None, MatchResult};
ghost use Rattle.hlc_node.specs.declared.item.Body.TheVariants.{Write as a_write, Report as a_report};
ghost use Rattle.hlc_node.specs.declared.item.Body.TheVariants.{Retire as a_retire, Batch as a_batch};
ghost use Rattle.hlc_node.specs.Items.{an_item};
ghost use Rattle.hlc_log.specs.declared.record.Record.TheVariants.{Join, Threshold};
ghost use Rattle.hlc_calls.specs.{Log.AreTaken, Log.ReturnsItem, Records.ReturnsApplied, Records.ReturnsRecord};
ghost use Rattle.hlc_node_calls.specs.Batches.{batch_in};
ghost use Rattle.hlc_ffi.specs.Handle.{OnStorePast};

use crate::handle::on_core;
use hlc_calls::{log, records};
use hlc_core::{ItemRef, Stamp};
use hlc_handle::{Slot, Store};
use std::alloc::Global;

/// Writes a node's write as bytes. Returns 0, how many there are and, where they fit, the bytes; or 12 or 13. No
/// memory.
#[unsafe(no_mangle)]
pub extern "C" fn hlc_item_encode_write(
    node: u16,
    number: u64,
    stamp: u64,
    key: &[u8],
    value: &[u8],
    out: &mut [u8],
    len: &mut usize,
) -> u32
    ensures { ReturnsItem (an_item node number stamp (a_write key.now (Some value.now)))
        result len.new out.old out.new }
{
    let item = ItemRef::write(node, number, Stamp::from_bits(stamp), key, Some(value));
    log::put(&item, out, len)
}

/// Writes a node's deletion as bytes. Returns 0, how many there are and, where they fit, the bytes; or 12. No memory.
#[unsafe(no_mangle)]
pub extern "C" fn hlc_item_encode_delete(
    node: u16,
    number: u64,
    stamp: u64,
    key: &[u8],
    out: &mut [u8],
    len: &mut usize,
) -> u32
    ensures { ReturnsItem (an_item node number stamp (a_write key.now None)) result len.new out.old out.new }
{
    let item = ItemRef::write(node, number, Stamp::from_bits(stamp), key, None);
    log::put(&item, out, len)
}

/// Writes a node's batch as bytes, from those of its writes, as in `hlc_node_write_batch`. Returns 0, how many there
/// are and, where they fit, the bytes; or why no item may have these writes; first 29, or 106. No memory.
#[unsafe(no_mangle)]
pub extern "C" fn hlc_item_encode_batch(
    node: u16,
    number: u64,
    stamp: u64,
    count: usize,
    writes: &[u8],
    out: &mut [u8],
    len: &mut usize,
) -> u32
    ensures { MatchResult (batch_in count writes.now)
        (λ all. ReturnsItem (an_item node number stamp (a_batch all)) result len.new out.old out.new)
        (λ bad. (result ≡ bad.0) × (len.new ≡ 0) × (out.new ≡ out.old)) }
{
    match hlc_node_calls::batch_of(count, writes) {
        Ok(all) => {
            let item = ItemRef::batch(node, number, Stamp::from_bits(stamp), all);
            log::put(&item, out, len)
        }
        Err(bad) => {
            *len = 0;
            bad.code
        }
    }
}

/// Writes a node's report as bytes. Returns 0, how many there are and, where they fit, the bytes. No memory.
#[unsafe(no_mangle)]
pub extern "C" fn hlc_item_encode_report(
    node: u16,
    number: u64,
    stamp: u64,
    out: &mut [u8],
    len: &mut usize,
) -> u32
    ensures { ReturnsItem (an_item node number stamp a_report) result len.new out.old out.new }
{
    let item = ItemRef::report(node, number, Stamp::from_bits(stamp));
    log::put(&item, out, len)
}

/// Writes a node's retirement as bytes. Returns 0, how many there are and, where they fit, the bytes. No memory.
#[unsafe(no_mangle)]
pub extern "C" fn hlc_item_encode_retire(
    node: u16,
    number: u64,
    stamp: u64,
    out: &mut [u8],
    len: &mut usize,
) -> u32
    ensures { ReturnsItem (an_item node number stamp a_retire) result len.new out.old out.new }
{
    let item = ItemRef::retire(node, number, Stamp::from_bits(stamp));
    log::put(&item, out, len)
}

/// Accepts the items of a log in turn, and passes over those that came before, until one is refused. Returns 0, or its
/// refusal and word, 106 and the first fault of the bytes, or 15; and how many items were taken, and their bytes.
#[unsafe(no_mangle)]
pub extern "C" fn hlc_store_accept_items(
    alloc: Global,
    store: &mut Store,
    bytes: &[u8],
    used: &mut usize,
    count: &mut usize,
    word: &mut u64,
) -> u32
    ensures { OnStorePast store.old.value store.new.value ((result ≡ 100) × (used.new ≡ 0) × (count.new ≡ 0)
        × (word.new ≡ 0)) (λ old new past. AreTaken new bytes.now past result used.new count.new word.new) }
{
    on_core!(alloc, store, [used, count, word], |core| {
        log::take_all(core, bytes, used, count, word)
    })
}

/// Writes a join as bytes. Returns 0, how many there are and, where they fit, the bytes. No memory.
#[unsafe(no_mangle)]
pub extern "C" fn hlc_record_encode_join(
    node: u16,
    start: u64,
    out: &mut [u8],
    len: &mut usize,
) -> u32
    ensures { ReturnsRecord (Join node start) result len.new out.old out.new }
{
    records::put_join(node, Stamp::from_bits(start), out, len)
}

/// Writes a retention threshold as bytes. Returns 0, how many there are and, where they fit, the bytes. No memory.
#[unsafe(no_mangle)]
pub extern "C" fn hlc_record_encode_threshold(stamp: u64, out: &mut [u8], len: &mut usize) -> u32
    ensures { ReturnsRecord (Threshold stamp) result len.new out.old out.new }
{
    records::put_threshold(Stamp::from_bits(stamp), out, len)
}

/// Applies the records of a log in turn, and passes over those that came before, until one is refused. Returns 0, or
/// its refusal and word, 106 and the first fault of the bytes, or 15; and how many were taken, their bytes and greatest
/// threshold.
#[unsafe(no_mangle)]
pub extern "C" fn hlc_store_apply_records(
    alloc: Global,
    store: &mut Store,
    bytes: &[u8],
    used: &mut usize,
    count: &mut usize,
    threshold: &mut u64,
    word: &mut u64,
) -> u32
    ensures { OnStorePast store.old.value store.new.value ((result ≡ 100) × (used.new ≡ 0) × (count.new ≡ 0)
        × (threshold.new ≡ 0) × (word.new ≡ 0)) (λ old new past. ReturnsApplied new bytes.now past result
        used.new count.new threshold.new word.new) }
{
    on_core!(alloc, store, [used, count, threshold, word], |core| {
        records::apply_all(core, bytes, used, count, threshold, word)
    })
}
