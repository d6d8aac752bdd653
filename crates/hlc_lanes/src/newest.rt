//! The greatest stamp at or below a bound.
//!
//! A stamp above the bound counts as 0. So the greatest of all is the requested one, unless it is
//! 0: then a search decides whether 0 itself is among the stamps.
ghost use Rattle.std.specs.Prelude.{◌≡◌, ◌+◌, ◌≤◌, length, max, map};
ghost use Rattle.std.specs.Simd.Lanes.{chunk};
ghost use Rattle.hlc_lanes.specs.{Newest.IsNewest, Greatest.within, Greatest.greatest};

use std::simd::prelude::*;

/// Returns the greatest stamp at or below the bound, or none. It needs no memory, and makes one
/// pass; a second pass if no stamp except 0 is at or below the bound.
pub fn newest_at(stamps: &[u64], bound: u64) -> Option<u64>
    ensures { IsNewest stamps.now bound result }
{
    let best = greatest_within(stamps, bound);
    if best > 0 {
        return Some(best);
    }
    if stamps.contains(&0) {
        return Some(0);
    }
    None
}

/// Returns the greatest stamp at or below the bound, or 0 if there is none.
fn greatest_within(stamps: &[u64], bound: u64) -> u64
    ensures { result ≡ greatest (map (within bound) stamps.now) }
{
    let mut best = u64x8::splat(0);
    let mut at = 0usize;
    while stamps.len() - at >= 8 {
        best = greater(best, within_in(stamps, at, bound));
        at += 8;
    }
    top_lane(best).max(greatest_rest(&stamps[at..], bound))
}

/// Returns the eight stamps from a position on, with 0 in place of those above the bound.
fn within_in(stamps: &[u64], at: usize, bound: u64) -> u64x8
    requires { at + 8 ≤ length stamps.now }
    ensures { result ≡ map (within bound) (chunk at 8 stamps.now) }
{
    let lanes = u64x8::from_slice(&stamps[at..]);
    lanes
        .simd_le(u64x8::splat(bound))
        .select(lanes, u64x8::splat(0))
}

/// Returns the greater value of each two lanes.
fn greater(best: u64x8, lanes: u64x8) -> u64x8
    requires best { length best ≡ 8 }
    requires lanes { length lanes ≡ 8 }
    ensures long { length result ≡ 8 }
    ensures top { greatest result ≡ max (greatest best) (greatest lanes) }
{
    best.simd_max(lanes)
}

/// Returns the greatest lane. No contract specifies the result of `reduce_max`, so the lanes are
/// compared one by one.
fn top_lane(best: u64x8) -> u64
    requires { length best ≡ 8 }
    ensures { result ≡ greatest best }
{
    greatest_of(&best.to_array())
}

/// Returns the greatest of some values, or 0 if there are none.
fn greatest_of(values: &[u64]) -> u64
    ensures { result ≡ greatest values.now }
{
    let mut best = 0u64;
    for value in values {
        best = best.max(*value);
    }
    best
}

/// Returns the greatest stamp of a rest at or below the bound, or 0 if there is none.
fn greatest_rest(rest: &[u64], bound: u64) -> u64
    ensures { result ≡ greatest (map (within bound) rest.now) }
{
    let mut best = 0u64;
    for stamp in rest {
        best = best.max(within(*stamp, bound));
    }
    best
}

/// Returns the stamp, or 0 if it is above the bound.
fn within(stamp: u64, bound: u64) -> u64
    ensures { result ≡ within bound stamp }
{
    if stamp <= bound { stamp } else { 0 }
}
