//! Searches for the place of the first byte of some value in a text, several bytes at a time.
ghost use Rattle.std.specs.Prelude.{◌≡◌, ◌≢◌, ◌==◌, ◌<◌, ◌≤◌, ◌+◌, not, ℕ, MatchOption, length, slice_index};
ghost use Rattle.std.specs.{List.prefix_len, Simd.Lanes.chunk};

use std::simd::prelude::*;

/// Returns how many of the next sixteen bytes come before the first one that equals `byte`: sixteen where none does.
#[inline(always)]
fn before_of_16(text: &[u8], from: usize, byte: u8) -> usize
    requires { from + 16 ≤ length text.now }
    ensures { result ≡ prefix_len (λ x. not (x == byte)) (chunk from 16 text.now) }
{
    let hits = u8x16::from_slice(&text[from..])
        .simd_eq(u8x16::splat(byte))
        .to_bitmask();
    if hits == 0 {
        16
    } else {
        hits.trailing_zeros() as usize
    }
}

/// Returns how many of the next eight bytes come before the first one that equals `byte`: eight where none does.
#[inline(always)]
fn before_of_8(text: &[u8], from: usize, byte: u8) -> usize
    requires { from + 8 ≤ length text.now }
    ensures { result ≡ prefix_len (λ x. not (x == byte)) (chunk from 8 text.now) }
{
    let hits = u8x8::from_slice(&text[from..])
        .simd_eq(u8x8::splat(byte))
        .to_bitmask();
    if hits == 0 {
        8
    } else {
        hits.trailing_zeros() as usize
    }
}

/// Returns the place of the first byte that equals `byte`, where none before `from` does.
#[inline(always)]
fn place_from(text: &[u8], from: usize, byte: u8) -> Option<usize>
    requires within { from ≤ length text.now }
    requires before { (k : ℕ) → k < from → slice_index text.now k ≢ byte }
    ensures { MatchOption result
        ((k : ℕ) → k < length text.now → slice_index text.now k ≢ byte)
        (λ at. (at < length text.now) × (slice_index text.now at ≡ byte)
        × ((k : ℕ) → k < at → slice_index text.now k ≢ byte)) }
{
    for at in from..text.len() {
        if text[at] == byte {
            return Some(at);
        }
    }
    None
}

/// Returns the place of the first byte that equals `byte`, if there is one. It is fast where that is likely to be more
/// than eight bytes away.
#[inline(always)]
pub fn far_place(text: &[u8], byte: u8) -> Option<usize>
    ensures { MatchOption result
        ((k : ℕ) → k < length text.now → slice_index text.now k ≢ byte)
        (λ at. (at < length text.now) × (slice_index text.now at ≡ byte)
        × ((k : ℕ) → k < at → slice_index text.now k ≢ byte)) }
{
    let mut from = 0;
    while text.len() - from >= 16 {
        let before = before_of_16(text, from, byte);
        if before < 16 {
            return Some(from + before);
        }
        from += 16;
    }
    place_from(text, from, byte)
}

/// Returns the same, fast where it is likely to be among the next eight bytes.
#[inline(always)]
pub fn near_place(text: &[u8], byte: u8) -> Option<usize>
    ensures { MatchOption result
        ((k : ℕ) → k < length text.now → slice_index text.now k ≢ byte)
        (λ at. (at < length text.now) × (slice_index text.now at ≡ byte)
        × ((k : ℕ) → k < at → slice_index text.now k ≢ byte)) }
{
    let mut from = 0;
    while text.len() - from >= 8 {
        let before = before_of_8(text, from, byte);
        if before < 8 {
            return Some(from + before);
        }
        from += 8;
    }
    place_from(text, from, byte)
}
