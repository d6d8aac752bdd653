//! The writes of a batch as bytes: one less than their number in a byte, and for each its key and its value.
ghost use Rattle.std.specs.Prelude.{◌≡◌, ◌≤◌, ◌<◌, ◌+◌, ◌++◌, ◌*◌, length, option_copied, IfOk, MatchResult, Ok, Err};
ghost use Rattle.std.specs.Prelude.{IsTrue, []};
ghost use Rattle.hlc_rows.specs.Spelled.{writes_in, write_seen};
ghost use Rattle.hlc_wire.specs.Spelling.{key_bytes, value_bytes, write_bytes, writes_bytes, batch_bytes, KeyFits};
ghost use Rattle.hlc_wire.specs.Spelling.{ValueFits, WritesFit, BatchFits};
ghost use Rattle.hlc_wire.specs.{Placing.with_bytes, Reading.Reads, Reading.writes_at, Reading.batch_at, Reading.whole};

use crate::fault::WireFault;
use crate::fields::{copy_value, key_slice_at, value_slice_at};
use crate::placing::{put_bytes, put_value};
use hlc_node::{Bytes, Listed, Write, Writes, Written};
use hlc_values::NoMemory;
use std::alloc::Global;

/// Reads the writes of a batch, and returns them with the bytes after them.
#[tactic(auto, unfolding(crate::specs::Reading::batch_at))]
pub(crate) fn batch_at(bytes: &[u8]) -> Result<(Writes<'_>, &[u8]), WireFault>
    ensures { Reads (λ x. (x.0, x.1.now)) result (batch_at bytes.now) }
{
    match bytes {
        [] => Err(WireFault::Short),
        [count, rest @ ..] => {
            let count = *count as usize + 1;
            let after = after_writes(count, rest)?;
            Ok((Writes::spelled(count, rest), after))
        }
    }
}

/// Returns the bytes after this many writes.
#[tactic(auto, unfolding(crate::specs::Reading::writes_at))]
fn after_writes(count: usize, bytes: &[u8]) -> Result<&[u8], WireFault>
    ensures { Reads (λ rest. (writes_in count bytes.now, rest.now)) result (writes_at count bytes.now) }
{
    if count == 0 {
        return Ok(bytes);
    }
    let (_, rest) = key_slice_at(bytes)?;
    let (_, rest) = value_slice_at(rest)?;
    after_writes(count - 1, rest)
}

/// Returns whether the bytes are this many writes and no more. That is all that a reader of good bytes waits for.
#[tactic(auto, unfolding(crate::specs::Reading::writes_at))]
fn are_writes(count: usize, bytes: &[u8]) -> bool
    ensures { IsTrue result → writes_at count bytes.now ≡ Ok (writes_in count bytes.now, []) }
{
    if count == 0 {
        return bytes.is_empty();
    }
    let Ok((_, rest)) = key_slice_at(bytes) else {
        return false;
    };
    let Ok((_, rest)) = value_slice_at(rest) else {
        return false;
    };
    are_writes(count - 1, rest)
}

/// Reads this many writes, at most 256, from all of the bytes. Their keys and values are those in the bytes: nothing is
/// copied. The error is the first fault from the left.
pub fn writes_of(count: usize, bytes: &[u8]) -> Result<Writes<'_>, WireFault>
    requires { count ≤ 256 }
    ensures { MatchResult result (λ writes. whole (writes_at count bytes.now) ≡ Ok writes)
        (λ fault. whole (writes_at count bytes.now) ≡ Err fault) }
{
    if are_writes(count, bytes) {
        return Ok(Writes::spelled(count, bytes));
    }
    match after_writes(count, bytes) {
        Ok([]) => Ok(Writes::spelled(count, bytes)),
        Ok(_) => Err(WireFault::Trailing),
        Err(fault) => Err(fault),
    }
}

/// Copies the writes of a batch.
pub(crate) fn copy_batch(alloc: Global, writes: Writes<'_>) -> Result<Listed<Write>, NoMemory>
    ensures { IfOk result (λ copy. copy ≡ writes.entry) }
{
    let mut copy = Vec::new(alloc);
    let mut rest = writes;
    while let Some((first, others)) = rest.split_first() {
        copy.push(Write {
            key: Bytes::from_slice(alloc, first.key)?,
            value: copy_value(alloc, first.value)?,
        })?;
        rest = others;
    }
    Ok(Listed::from_vec(copy))
}

/// Returns how many bytes a key and a value have.
pub(crate) fn write_size(key: &[u8], value: Option<&[u8]>) -> usize
    requires key { KeyFits key.now }
    requires value { ValueFits (option_copied value) }
    ensures size { result ≡ length (key_bytes key.now ++ value_bytes (option_copied value.entry)) }
    ensures most { result ≤ 65794 }
{
    match value {
        None => 2 + key.len(),
        Some(value) => 4 + key.len() + value.len(),
    }
}

/// Returns how many bytes the writes of a batch have.
pub(crate) fn writes_size(writes: Writes<'_>) -> usize
    requires fits { WritesFit writes }
    requires few { length writes < 257 }
    ensures size { result ≡ length (writes_bytes writes.entry) }
    ensures most { result ≤ 65794 * length writes.entry }
{
    let Some((first, others)) = writes.split_first() else {
        return 0;
    };
    write_size(first.key, first.value) + writes_size(others)
}

/// Writes the writes of a batch after their number.
pub(crate) fn put_batch(out: &mut [u8], at: usize, writes: Writes<'_>) -> usize
    requires fits { BatchFits writes }
    requires room { at + length (batch_bytes writes) ≤ length out.now }
    ensures end { result ≡ at + length (batch_bytes writes.entry) }
    ensures put { out.new ≡ with_bytes at (batch_bytes writes.entry) out.old }
{
    let at_writes = put_bytes(out, at, &[(writes.len() - 1) as u8]);
    put_writes(out, at_writes, writes)
}

/// Writes some writes, one after another.
fn put_writes(out: &mut [u8], at: usize, writes: Writes<'_>) -> usize
    requires fits { WritesFit writes }
    requires room { at + length (writes_bytes writes) ≤ length out.now }
    ensures end { result ≡ at + length (writes_bytes writes.entry) }
    ensures put { out.new ≡ with_bytes at (writes_bytes writes.entry) out.old }
{
    let Some((first, others)) = writes.split_first() else {
        return at;
    };
    let at_others = put_one(out, at, &first);
    put_writes(out, at_others, others)
}

/// Writes one write.
fn put_one(out: &mut [u8], at: usize, write: &Written<'_>) -> usize
    requires key { KeyFits write.now.key.now }
    requires value { ValueFits (option_copied write.now.value) }
    requires room { at + length (write_bytes (write_seen write.now)) ≤ length out.now }
    ensures end { result ≡ at + length (write_bytes (write_seen write.now)) }
    ensures put { out.new ≡ with_bytes at (write_bytes (write_seen write.now)) out.old }
{
    let at_key = put_bytes(out, at, &[write.key.len() as u8]);
    let at_value = put_bytes(out, at_key, write.key);
    put_value(out, at_value, write.value)
}
