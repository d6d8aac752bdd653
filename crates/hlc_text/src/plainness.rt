//! Whether bytes are their own spelling, checked several at a time.
ghost use Rattle.std.specs.Prelude.{◌≡◌, ◌<◌, ◌≤◌, ◌+◌, length};
ghost use Rattle.std.specs.{List.list_all, Simd.Lanes.chunk};
ghost use Rattle.hlc_text.specs.{Text.is_literal, Spelling.is_own_spelling};

use std::simd::prelude::*;

/// Returns whether the byte is its own spelling.
#[inline(always)]
pub(crate) fn is_literal(byte: u8) -> bool
    ensures { result ≡ is_literal byte }
{
    33 <= byte && byte <= 126 && byte != b'%'
}

/// Returns whether each of the next sixteen bytes is its own spelling.
#[inline(always)]
fn are_plain_16(bytes: &[u8], from: usize) -> bool
    requires { from + 16 ≤ length bytes.now }
    ensures { result ≡ list_all is_literal (chunk from 16 bytes.now) }
{
    let lanes = u8x16::from_slice(&bytes[from..]);
    let outside = lanes.simd_lt(u8x16::splat(b'!')) | lanes.simd_gt(u8x16::splat(b'~'));
    (outside | lanes.simd_eq(u8x16::splat(b'%'))).to_bitmask() == 0
}

/// Returns whether each of the next eight bytes is its own spelling.
#[inline(always)]
fn are_plain_8(bytes: &[u8], from: usize) -> bool
    requires { from + 8 ≤ length bytes.now }
    ensures { result ≡ list_all is_literal (chunk from 8 bytes.now) }
{
    let lanes = u8x8::from_slice(&bytes[from..]);
    let outside = lanes.simd_lt(u8x8::splat(b'!')) | lanes.simd_gt(u8x8::splat(b'~'));
    (outside | lanes.simd_eq(u8x8::splat(b'%'))).to_bitmask() == 0
}

/// Returns whether each of sixteen bytes or more is its own spelling.
fn are_many_plain(bytes: &[u8]) -> bool
    requires { 16 ≤ length bytes.now }
    ensures { result ≡ list_all is_literal bytes.now }
{
    let last = bytes.len() - 16;
    let mut from = 0;
    while from < last {
        if !are_plain_16(bytes, from) {
            return false;
        }
        from += 16;
    }
    // These overlap the bytes before, unless the number of bytes is a multiple of sixteen.
    are_plain_16(bytes, last)
}

/// Returns whether each of some bytes is its own spelling.
#[inline(always)]
pub(crate) fn are_plain(bytes: &[u8]) -> bool
    ensures { result ≡ list_all is_literal bytes.now }
{
    let count = bytes.len();
    if count >= 16 {
        return are_many_plain(bytes);
    }
    if count >= 8 {
        return are_plain_8(bytes, 0) && are_plain_8(bytes, count - 8);
    }
    bytes.iter().all(|byte| is_literal(*byte))
}

/// Returns whether the bytes are a word that spells them.
#[inline(always)]
pub(crate) fn is_own_spelling(bytes: &[u8]) -> bool
    ensures { result ≡ is_own_spelling bytes.now }
{
    !bytes.is_empty() && are_plain(bytes)
}
