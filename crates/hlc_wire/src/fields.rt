//! Fields, read from the front of some bytes and written at the end of others. Numbers are big-endian. Each reader
//! returns what it read and the bytes after it.
ghost use Rattle.std.specs.Prelude.{◌≡◌, ◌++◌, option_copied, IfOk, OnOk, IsOk, IsErrOf};
ghost use Rattle.std.specs.Int.{w16, w32, w64};
ghost use Rattle.hlc_rows.specs.Limits.{IsShortValue};
ghost use Rattle.hlc_wire.specs.Spelling.{flag_bytes, key_bytes, value_bytes, KeyFits, ValueFits};
ghost use Rattle.hlc_wire.specs.Reading.{Gives, Reads, bytes_at, number_at, flag_at, key_at, value_at};

use crate::fault::{DecodeError, WireFault};
use hlc_node::Bytes;
use hlc_values::NoMemory;
use std::alloc::{AllocError, Global};

/// Reads the number in the first two bytes. `Short` if there are fewer.
pub fn u16_at(bytes: &[u8]) -> Result<(u16, &[u8]), WireFault>
    ensures { Reads (λ x. (x.0, x.1.now)) result (number_at w16 bytes.now) }
{
    if bytes.len() < 2 {
        return Err(WireFault::Short);
    }
    let (front, rest) = bytes.split_at(2);
    let number = u16::from_be_bytes([front[0], front[1]]);
    Ok((number, rest))
}

/// Reads the number in the first four bytes. `Short` if there are fewer.
pub fn u32_at(bytes: &[u8]) -> Result<(u32, &[u8]), WireFault>
    ensures { Reads (λ x. (x.0, x.1.now)) result (number_at w32 bytes.now) }
{
    if bytes.len() < 4 {
        return Err(WireFault::Short);
    }
    let (front, rest) = bytes.split_at(4);
    let number = u32::from_be_bytes([front[0], front[1], front[2], front[3]]);
    Ok((number, rest))
}

/// Reads the number in the first eight bytes. `Short` if there are fewer.
pub fn u64_at(bytes: &[u8]) -> Result<(u64, &[u8]), WireFault>
    ensures { Reads (λ x. (x.0, x.1.now)) result (number_at w64 bytes.now) }
{
    if bytes.len() < 8 {
        return Err(WireFault::Short);
    }
    let (front, rest) = bytes.split_at(8);
    let number = u64::from_be_bytes([
        front[0], front[1], front[2], front[3], front[4], front[5], front[6], front[7],
    ]);
    Ok((number, rest))
}

/// Borrows the first `count` bytes. `Short` if there are fewer.
pub fn slice_at(count: usize, bytes: &[u8]) -> Result<(&[u8], &[u8]), WireFault>
    ensures { Reads (λ x. (x.0.now, x.1.now)) result (bytes_at count bytes.now) }
{
    if bytes.len() < count {
        return Err(WireFault::Short);
    }
    Ok(bytes.split_at(count))
}

/// Reads yes or no: a byte 1 or 0. `Short` if there is no byte, `Flag` for any other.
#[tactic(auto, unfolding(crate::specs::Reading::flag_at))]
pub fn flag_at(bytes: &[u8]) -> Result<(bool, &[u8]), WireFault>
    ensures { Reads (λ x. (x.0, x.1.now)) result (flag_at bytes.now) }
{
    match bytes {
        [] => Err(WireFault::Short),
        [0, rest @ ..] => Ok((false, rest)),
        [1, rest @ ..] => Ok((true, rest)),
        [_, ..] => Err(WireFault::Flag),
    }
}

/// Borrows a key: a byte of length, 1 to 255, and that many bytes.
///
/// `Short` if there is no byte of length, `EmptyKey` if it is 0, `Short` if fewer bytes follow.
#[tactic(auto, unfolding(crate::specs::Reading::key_at))]
pub fn key_slice_at(bytes: &[u8]) -> Result<(&[u8], &[u8]), WireFault>
    ensures { Reads (λ x. (x.0.now, x.1.now)) result (key_at bytes.now) }
{
    match bytes {
        [] => Err(WireFault::Short),
        [0, ..] => Err(WireFault::EmptyKey),
        [count, rest @ ..] => slice_at(*count as usize, rest),
    }
}

/// Copies a key, which it reads as `key_slice_at` does: its faults, then out of memory.
pub fn key_at(alloc: Global, bytes: &[u8]) -> Result<(Bytes, &[u8]), DecodeError>
    ensures read { Gives (λ x. (x.0, x.1.now)) result (key_at bytes.now) }
    ensures memory { IsErrOf result DecodeError.NoMemory → IsOk (key_at bytes.now) }
{
    let (key, rest) = key_slice_at(bytes)?;
    let copy = Bytes::from_slice(alloc, key)?;
    Ok((copy, rest))
}

/// Borrows a value, or reads a deletion mark: a byte 0; or a byte 1, two bytes of length, and that many bytes.
///
/// `Short` if there is no first byte, `Flag` if it is neither 0 nor 1, `Short` if fewer bytes follow.
#[tactic(auto, unfolding(crate::specs::Reading::value_at))]
pub fn value_slice_at(bytes: &[u8]) -> Result<(Option<&[u8]>, &[u8]), WireFault>
    ensures { Reads (λ x. (option_copied x.0, x.1.now)) result (value_at bytes.now) }
{
    match bytes {
        [] => Err(WireFault::Short),
        [0, rest @ ..] => Ok((None, rest)),
        [1, rest @ ..] => {
            let (count, rest) = u16_at(rest)?;
            let (value, rest) = slice_at(count as usize, rest)?;
            Ok((Some(value), rest))
        }
        [_, ..] => Err(WireFault::Flag),
    }
}

/// Copies a value, or reads a deletion mark, as `value_slice_at` does: its faults, then out of memory.
pub fn value_at(alloc: Global, bytes: &[u8]) -> Result<(Option<Bytes>, &[u8]), DecodeError>
    ensures read { Gives (λ x. (x.0, x.1.now)) result (value_at bytes.now) }
    ensures memory { IsErrOf result DecodeError.NoMemory → IsOk (value_at bytes.now) }
{
    let (value, rest) = value_slice_at(bytes)?;
    let copy = copy_value(alloc, value)?;
    Ok((copy, rest))
}

/// Copies a value, if there is one. The only error is out of memory.
pub(crate) fn copy_value(alloc: Global, value: Option<&[u8]>) -> Result<Option<Bytes>, NoMemory>
    ensures ok { IfOk result (λ copy. copy ≡ option_copied value.entry) }
    ensures short { IsShortValue (option_copied value.entry) → IsOk result }
{
    match value {
        None => Ok(None),
        Some(value) => Ok(Some(Bytes::from_slice(alloc, value)?)),
    }
}

/// Writes yes or no, in one byte.
///
/// The only error of the writers here is out of memory; the content of `out` is then not specified.
pub fn put_flag(out: &mut Vec<u8>, flag: bool) -> Result<(), AllocError>
    ensures { OnOk result (out.new.items ≡ out.old.items ++ flag_bytes flag) }
{
    if flag {
        out.push(1)?;
    } else {
        out.push(0)?;
    }
    Ok(())
}

/// Writes a key of 1 to 255 bytes: a byte of length, and the key.
pub fn put_key(out: &mut Vec<u8>, key: &[u8]) -> Result<(), AllocError>
    requires { KeyFits key.now }
    ensures { OnOk result (out.new.items ≡ out.old.items ++ key_bytes key.now) }
{
    out.push(key.len() as u8)?;
    out.extend_from_slice(key)?;
    Ok(())
}

/// Writes a value of at most 65,535 bytes, or a deletion mark, as `value_at` reads it.
pub fn put_value(out: &mut Vec<u8>, value: Option<&[u8]>) -> Result<(), AllocError>
    requires { ValueFits (option_copied value) }
    ensures { OnOk result
        (out.new.items ≡ out.old.items ++ value_bytes (option_copied value.entry)) }
{
    match value {
        None => out.push(0)?,
        Some(bytes) => {
            out.push(1)?;
            out.extend_from_slice(&(bytes.len() as u16).to_be_bytes())?;
            out.extend_from_slice(bytes)?;
        }
    }
    Ok(())
}
