//! Items as bytes.
ghost use Rattle.std.specs.Prelude.{◌≡◌, ◌≤◌, length, IfOk, IfErr, IsOk, IsErrOf, Ok, None, Some, IsSome, MatchResult};
ghost use Rattle.hlc_node.specs.{Items.body_refusal, Items.IsShort, declared.item.Item.Item as AnItem};
ghost use Rattle.hlc_wire.specs.Spelling.{item_bytes, most_bytes, ItemFits};
ghost use Rattle.hlc_wire.specs.{Placing.PutsFront, Refusal.IsRefusal};
ghost use Rattle.hlc_wire.specs.Reading.{Gives, Reads, item_at, item_rest_at, numbered_at, whole, NeedsMemory};

use crate::batch::{batch_at, copy_batch, write_size, writes_size};
use crate::fault::{DecodeError, EncodeError, WireFault};
use crate::fields::{copy_value, key_slice_at, u16_at, u64_at, value_slice_at};
use crate::placing::{put_body, put_bytes, put_numbers};
use hlc_clock::Stamp;
use hlc_node::{Body, BodyFault, Bytes, Content, Item, ItemRef};
use hlc_values::NoMemory;
use std::alloc::Global;

/// The maximum number of bytes of an item that is no batch.
pub const MAX_ITEM_BYTES: usize = 65_814;

/// The maximum number of bytes of an item.
pub const MAX_BATCH_BYTES: usize = 16_843_285;

/// An item of one write has at most 65,814 bytes: 1 of version, 2 of node, 8 of number, 8 of stamp, 1 of kind,
/// 1 and at most 255 of key, 1 and 2 and at most 65,535 of value.
pub fn max_item_bytes_are_65814()
    ensures { MAX_ITEM_BYTES ≡ 65814 }
{}

/// An item of a batch has at most 16,843,285 bytes: 20 up to the kind, 1 of count, and at most 256 writes of 65,794.
pub fn max_batch_bytes_are_16843285()
    ensures { MAX_BATCH_BYTES ≡ 16843285 }
{}

/// Reads the item from its encoding, which is all of the bytes.
///
/// The error is the first fault from the left; or, if there is none, that memory ran out for a batch, or for the copy
/// of a write's key or value.
pub fn decode_item(alloc: Global, bytes: &[u8]) -> Result<Item, DecodeError>
    // The bytes are the encoding of the item that is read.
    ensures found { IfOk result (λ item. ItemFits item × (bytes.now ≡ item_bytes item)) }
    // The encoding of an item is read, unless memory runs out.
    ensures only { (item : AnItem) → ItemFits item → bytes.now ≡ item_bytes item
        → Gives (λ item. item) result (Ok item) }
    // The fault is exactly this one.
    ensures exact { Gives (λ item. item) result (whole (item_at bytes.now)) }
    // Only a write or a batch needs memory, byte 19 being the kind of the item, and only if there is no fault.
    ensures memory { IsErrOf result DecodeError.NoMemory
        → NeedsMemory bytes.now × IsOk (whole (item_at bytes.now)) }
{
    all(alloc, bytes)
}

/// Reads an item from all of the bytes.
fn all(alloc: Global, bytes: &[u8]) -> Result<Item, DecodeError>
    ensures read { Gives (λ item. item) result (whole (item_at bytes.now)) }
    ensures memory { IsErrOf result DecodeError.NoMemory
        → NeedsMemory bytes.now × IsOk (whole (item_at bytes.now)) }
{
    let (item, rest) = item_ref_at(bytes)?;
    if !rest.is_empty() {
        return Err(DecodeError::Fault(WireFault::Trailing));
    }
    let copy = copy_item(alloc, &item)?;
    Ok(copy)
}

/// Returns the one encoding of an item, of at most `MAX_ITEM_BYTES` bytes, or `MAX_BATCH_BYTES` for a batch.
///
/// Refused, in this order: the first reason to refuse its body; out of memory.
pub fn encode_item(alloc: Global, item: &Item) -> Result<Vec<u8>, EncodeError>
    ensures ok { IfOk result (λ bytes. ItemFits item.now × (bytes.items ≡ item_bytes item.now)) }
    ensures size { IfOk result (λ bytes. length bytes.items ≤ most_bytes item.now.body) }
    ensures err { IfErr result (λ fault. IsRefusal (body_refusal item.now.body) fault) }
{
    let item = item.as_ref();
    let size = match item_size(&item) {
        Ok(size) => size,
        Err(fault) => return Err(EncodeError::BadBody(fault)),
    };
    let mut out = vec![in alloc; 0; size]?;
    put_item(&item, out.as_mut_slice());
    Ok(out)
}

/// Returns how many bytes the encoding of an item has, or the first reason why it has none.
pub fn item_size(item: &ItemRef<'_>) -> Result<usize, BodyFault>
    ensures size { MatchResult result
        (λ size. (body_refusal item.now.body ≡ None) × (size ≡ length (item_bytes item.now)))
        (λ fault. body_refusal item.now.body ≡ Some fault) }
    ensures most { IfOk result (λ size. size ≤ most_bytes item.now.body) }
{
    match item.body_fault() {
        Some(fault) => Err(fault),
        None => Ok(size_of(item)),
    }
}

/// Returns how many bytes the encoding of an item has.
fn size_of(item: &ItemRef<'_>) -> usize
    requires { body_refusal item.now.body ≡ None }
    ensures size { result ≡ length (item_bytes item.now) }
    ensures most { result ≤ most_bytes item.now.body }
{
    match item.content() {
        Content::Nothing => 20,
        Content::One(written) => 20 + write_size(written.key, written.value),
        Content::Many(writes) => 21 + writes_size(writes),
    }
}

/// Writes the encoding of an item, which `encode_item` returns, to the front of a buffer, and returns how many bytes it
/// has. If they do not fit, nothing is written. It takes no memory.
pub fn put_item(item: &ItemRef<'_>, out: &mut [u8]) -> Option<usize>
    requires { body_refusal item.now.body ≡ None }
    ensures put { PutsFront (item_bytes item.now) result out.old out.new }
    ensures fits { IsSome result → ItemFits item.now }
{
    let size = size_of(item);
    if out.len() < size {
        return None;
    }
    let at_numbers = put_bytes(out, 0, &[1]);
    let at_body = put_numbers(out, at_numbers, item);
    put_body(out, at_body, item);
    Some(size)
}

/// Copies an item, with its keys and values.
pub fn copy_item(alloc: Global, item: &ItemRef<'_>) -> Result<Item, NoMemory>
    ensures ok { IfOk result (λ copy. copy ≡ item.now) }
    ensures short { IsShort item.now.body → IsOk result }
{
    let body = match item.content() {
        Content::One(written) => Body::Write {
            key: Bytes::from_slice(alloc, written.key)?,
            value: copy_value(alloc, written.value)?,
        },
        Content::Many(writes) => Body::Batch(copy_batch(alloc, writes)?),
        Content::Nothing => {
            if item.retires() {
                Body::Retire
            } else {
                Body::Report
            }
        }
    };
    Ok(Item {
        node: item.node(),
        number: item.number(),
        stamp: item.stamp(),
        body,
    })
}

/// Reads the item at the front of some bytes, and returns it with the bytes after it. Its keys and values are those
/// in the bytes: nothing is copied.
///
/// The error is the first fault from the left. No memory is needed.
#[tactic(auto, unfolding(crate::specs::Reading::item_at))]
pub fn item_ref_at(bytes: &[u8]) -> Result<(ItemRef<'_>, &[u8]), WireFault>
    ensures { Reads (λ x. (x.0, x.1.now)) result (item_at bytes.now) }
{
    match bytes {
        [] => Err(WireFault::Short),
        [1, rest @ ..] => item_rest_at(rest),
        [_, ..] => Err(WireFault::Version),
    }
}

/// Reads an item after its version.
#[tactic(auto, unfolding(crate::specs::Reading::item_rest_at))]
fn item_rest_at(bytes: &[u8]) -> Result<(ItemRef<'_>, &[u8]), WireFault>
    ensures { Reads (λ x. (x.0, x.1.now)) result (item_rest_at bytes.now) }
{
    let (node, rest) = u16_at(bytes)?;
    let (number, rest) = u64_at(rest)?;
    let (stamp, rest) = u64_at(rest)?;
    let stamp = Stamp::from_bits(stamp);
    numbered_at(node, number, stamp, rest)
}

/// Reads the body of an item that has these numbers.
#[tactic(auto, unfolding(crate::specs::Reading::body_at))]
fn numbered_at(
    node: u16,
    number: u64,
    stamp: Stamp,
    bytes: &[u8],
) -> Result<(ItemRef<'_>, &[u8]), WireFault>
    ensures { Reads (λ x. (x.0, x.1.now)) result (numbered_at node number stamp bytes.now) }
{
    match bytes {
        [] => Err(WireFault::Short),
        [0, rest @ ..] => {
            let (key, rest) = key_slice_at(rest)?;
            let (value, rest) = value_slice_at(rest)?;
            Ok((ItemRef::write(node, number, stamp, key, value), rest))
        }
        [1, rest @ ..] => Ok((ItemRef::report(node, number, stamp), rest)),
        [2, rest @ ..] => Ok((ItemRef::retire(node, number, stamp), rest)),
        [3, rest @ ..] => {
            let (writes, rest) = batch_at(rest)?;
            Ok((ItemRef::batch(node, number, stamp, writes), rest))
        }
        [_, ..] => Err(WireFault::Kind),
    }
}
