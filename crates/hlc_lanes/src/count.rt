//! The number of stamps at or below a bound.
ghost use Rattle.std.specs.Prelude.{◌≡◌, ◌+◌, ◌≤◌, count_by, nat_le, length};
ghost use Rattle.std.specs.Simd.Lanes.{chunk};

use std::simd::prelude::*;

/// Returns the number of stamps at or below the bound. It needs no memory, and makes one pass.
pub fn count_at(stamps: &[u64], bound: u64) -> usize
    ensures { result ≡ count_by (λ stamp. nat_le stamp bound) stamps.now }
{
    let mut count = 0usize;
    let mut at = 0usize;
    while stamps.len() - at >= 8 {
        count += count_in(stamps, at, bound) as usize;
        at += 8;
    }
    count + count_rest(&stamps[at..], bound)
}

/// Returns how many of the eight stamps from a position on are at or below the bound.
fn count_in(stamps: &[u64], at: usize, bound: u64) -> u32
    requires { at + 8 ≤ length stamps.now }
    ensures { result ≡ count_by (λ stamp. nat_le stamp bound) (chunk at 8 stamps.now) }
{
    let lanes = u64x8::from_slice(&stamps[at..]);
    lanes.simd_le(u64x8::splat(bound)).to_bitmask().count_ones()
}

/// Returns how many stamps of a rest are at or below the bound.
fn count_rest(rest: &[u64], bound: u64) -> usize
    ensures { result ≡ count_by (λ stamp. nat_le stamp bound) rest.now }
{
    rest.iter().filter(|stamp| **stamp <= bound).count()
}
