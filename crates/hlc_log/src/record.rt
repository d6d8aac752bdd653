//! The records of a log, as bytes.
ghost use Rattle.std.specs.Prelude.{◌≡◌, length, IfOk, IfErr, IsErrOf, IsOk, Ok, Some, None, IsSome, MatchResult};
ghost use Rattle.hlc_wire.specs.{Placing.PutsFront, Refusal.IsRefusal, Reading.Gives, Reading.Reads, Reading.whole};
ghost use Rattle.hlc_log.specs.declared.record.Record.{Record as ARecord};
ghost use Rattle.hlc_log.specs.Record.{record_bytes, record_at, item_record_at, join_at, threshold_at, record_refusal};
ghost use Rattle.hlc_log.specs.Record.{record_seen, RecordFits, IsShortRecord, StartsWithWrite};

use hlc_clock::Stamp;
use hlc_node::{BodyFault, Item, ItemRef};
use hlc_values::NoMemory;
use hlc_wire::{
    DecodeError, EncodeError, WireFault, copy_item, item_ref_at, item_size, put_bytes, put_item,
    u16_at, u64_at,
};
use std::alloc::Global;

/// A record of a log that all replicas of a store share.
#[derive(PartialEq, Eq, Debug, Drop)]
pub enum Record {
    /// An item of a node.
    Item(Item),
    /// A node joins: it is assigned this number, and starts at this stamp.
    Join { node: u16, start: Stamp },
    /// No more snapshot is opened below this stamp, so each replica may vacuum to it.
    Threshold(Stamp),
}

/// A record that borrows the key and the value of an item, so making one needs no memory.
#[derive(Debug, Drop)]
pub enum RecordRef<'a> {
    /// An item of a node.
    Item(ItemRef<'a>),
    /// A node joins: it is assigned this number, and starts at this stamp.
    Join { node: u16, start: Stamp },
    /// No more snapshot is opened below this stamp, so each replica may vacuum to it.
    Threshold(Stamp),
}

impl Record {
    /// Returns the record as a reference to the bytes of its own key and value.
    pub fn as_ref(&self) -> RecordRef<'_>
        ensures { record_seen result ≡ self.now }
    {
        match self {
            Record::Item(item) => RecordRef::Item(item.as_ref()),
            Record::Join { node, start } => RecordRef::Join {
                node: *node,
                start: *start,
            },
            Record::Threshold(at) => RecordRef::Threshold(*at),
        }
    }
}

/// Reads the record from its encoding, which is all of the bytes.
///
/// The error is the first fault from the left; or, if there is none, that memory ran out for the copy of a write's key
/// or value.
pub fn decode_record(alloc: Global, bytes: &[u8]) -> Result<Record, DecodeError>
    // The bytes are the encoding of the record that is read.
    ensures found { IfOk result (λ made. RecordFits made × (bytes.now ≡ record_bytes made)) }
    // The encoding of a record is read, unless memory runs out.
    ensures only { (entry : ARecord) → RecordFits entry → bytes.now ≡ record_bytes entry
        → Gives (λ made. made) result (Ok entry) }
    // The fault is exactly this one.
    ensures exact { Gives (λ made. made) result (whole (record_at bytes.now)) }
    // Only a write needs memory, and only if there is no fault.
    ensures memory { IsErrOf result DecodeError.NoMemory
        → StartsWithWrite bytes.now × IsOk (whole (record_at bytes.now)) }
{
    all(alloc, bytes)
}

/// Reads a record from all of the bytes.
fn all(alloc: Global, bytes: &[u8]) -> Result<Record, DecodeError>
    ensures read { Gives (λ made. made) result (whole (record_at bytes.now)) }
    ensures memory { IsErrOf result DecodeError.NoMemory
        → StartsWithWrite bytes.now × IsOk (whole (record_at bytes.now)) }
{
    let (entry, rest) = record_ref_at(bytes)?;
    if !rest.is_empty() {
        return Err(DecodeError::Fault(WireFault::Trailing));
    }
    let copy = copy_record(alloc, &entry)?;
    Ok(copy)
}

/// Copies a record, with the key and the value of an item.
fn copy_record(alloc: Global, entry: &RecordRef<'_>) -> Result<Record, NoMemory>
    ensures ok { IfOk result (λ copy. copy ≡ record_seen entry.now) }
    ensures short { IsShortRecord (record_seen entry.now) → IsOk result }
{
    match entry {
        RecordRef::Item(item) => Ok(Record::Item(copy_item(alloc, item)?)),
        RecordRef::Join { node, start } => Ok(Record::Join {
            node: *node,
            start: *start,
        }),
        RecordRef::Threshold(at) => Ok(Record::Threshold(*at)),
    }
}

/// Reads the record at the front of some bytes, and returns it with the bytes after it. The key and the value of an
/// item are those in the bytes: nothing is copied.
///
/// The error is the first fault from the left. No memory is needed.
#[tactic(auto, unfolding(crate::specs::Record::record_at))]
pub fn record_ref_at(bytes: &[u8]) -> Result<(RecordRef<'_>, &[u8]), WireFault>
    ensures { Reads (λ x. (record_seen x.0, x.1.now)) result (record_at bytes.now) }
{
    match bytes {
        [] => Err(WireFault::Short),
        [1, ..] => item_record_at(bytes),
        [2, rest @ ..] => join_at(rest),
        [3, rest @ ..] => threshold_at(rest),
        [_, ..] => Err(WireFault::Version),
    }
}

/// Reads an item, as a record.
#[tactic(auto, unfolding(crate::specs::Record::item_record_at))]
fn item_record_at(bytes: &[u8]) -> Result<(RecordRef<'_>, &[u8]), WireFault>
    ensures { Reads (λ x. (record_seen x.0, x.1.now)) result (item_record_at bytes.now) }
{
    let (item, rest) = item_ref_at(bytes)?;
    Ok((RecordRef::Item(item), rest))
}

/// Reads a join after its first byte.
#[tactic(auto, unfolding(crate::specs::Record::join_at))]
fn join_at(bytes: &[u8]) -> Result<(RecordRef<'_>, &[u8]), WireFault>
    ensures { Reads (λ x. (record_seen x.0, x.1.now)) result (join_at bytes.now) }
{
    let (node, rest) = u16_at(bytes)?;
    let (start, rest) = u64_at(rest)?;
    let start = Stamp::from_bits(start);
    Ok((RecordRef::Join { node, start }, rest))
}

/// Reads a threshold after its first byte.
#[tactic(auto, unfolding(crate::specs::Record::threshold_at))]
fn threshold_at(bytes: &[u8]) -> Result<(RecordRef<'_>, &[u8]), WireFault>
    ensures { Reads (λ x. (record_seen x.0, x.1.now)) result (threshold_at bytes.now) }
{
    let (at, rest) = u64_at(bytes)?;
    let at = Stamp::from_bits(at);
    Ok((RecordRef::Threshold(at), rest))
}

/// Returns the one encoding of a record, of at most `MAX_ITEM_BYTES` bytes, or `MAX_BATCH_BYTES` for a batch.
///
/// Refused, in this order: the first reason to refuse an item's body; out of memory.
pub fn encode_record(alloc: Global, entry: &Record) -> Result<Vec<u8>, EncodeError>
    ensures ok { IfOk result
        (λ bytes. RecordFits entry.now × (bytes.items ≡ record_bytes entry.now)) }
    ensures err { IfErr result (λ fault. IsRefusal (record_refusal entry.now) fault) }
{
    let entry = entry.as_ref();
    let size = match record_size(&entry) {
        Ok(size) => size,
        Err(fault) => return Err(EncodeError::BadBody(fault)),
    };
    let mut out = vec![in alloc; 0; size]?;
    put_record(&entry, out.as_mut_slice());
    Ok(out)
}

/// Returns how many bytes the encoding of a record has, or the first reason why it has none.
pub fn record_size(entry: &RecordRef<'_>) -> Result<usize, BodyFault>
    ensures { MatchResult result
        (λ size. (record_refusal (record_seen entry.now) ≡ None)
        × (size ≡ length (record_bytes (record_seen entry.now))))
        (λ fault. record_refusal (record_seen entry.now) ≡ Some fault) }
{
    match entry {
        RecordRef::Item(item) => item_size(item),
        RecordRef::Join { node: _, start: _ } => Ok(11),
        RecordRef::Threshold(_) => Ok(9),
    }
}

/// Writes the encoding of a record, which `encode_record` returns, to the front of a buffer, and returns how many bytes
/// it has. If they do not fit, nothing is written. It takes no memory.
pub fn put_record(entry: &RecordRef<'_>, out: &mut [u8]) -> Option<usize>
    requires { record_refusal (record_seen entry.now) ≡ None }
    ensures put { PutsFront (record_bytes (record_seen entry.now)) result out.old out.new }
    ensures fits { IsSome result → RecordFits (record_seen entry.now) }
{
    match entry {
        RecordRef::Item(item) => put_item(item, out),
        RecordRef::Join { node, start } => put_join(*node, *start, out),
        RecordRef::Threshold(at) => put_threshold(*at, out),
    }
}

/// Writes a join.
fn put_join(node: u16, start: Stamp, out: &mut [u8]) -> Option<usize>
    ensures put { PutsFront (record_bytes (ARecord.Join node start)) result out.old out.new }
    ensures fits { IsSome result → RecordFits (ARecord.Join node start) }
{
    if out.len() < 11 {
        return None;
    }
    let at_node = put_bytes(out, 0, &[2]);
    let at_start = put_bytes(out, at_node, &node.to_be_bytes());
    let start = start.bits();
    Some(put_bytes(out, at_start, &start.to_be_bytes()))
}

/// Writes a threshold.
fn put_threshold(at: Stamp, out: &mut [u8]) -> Option<usize>
    ensures put { PutsFront (record_bytes (ARecord.Threshold at)) result out.old out.new }
    ensures fits { IsSome result → RecordFits (ARecord.Threshold at) }
{
    if out.len() < 9 {
        return None;
    }
    let at_stamp = put_bytes(out, 0, &[3]);
    let at = at.bits();
    Some(put_bytes(out, at_stamp, &at.to_be_bytes()))
}
