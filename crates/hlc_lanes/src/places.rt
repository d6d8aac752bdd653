//! The position of a stamp and a node.
ghost use Rattle.std.specs.Prelude.{◌≡◌, ◌+◌, ◌≤◌, ◌<◌, ℕ, length, slice_index, false};
ghost use Rattle.hlc_lanes.specs.Places.{IsPlace, IsPlaceIn};

use std::simd::prelude::*;

/// Returns the least position with the stamp and the node, or none. The slices have the same
/// length. It needs no memory, and makes one pass.
pub fn place_of(stamps: &[u64], nodes: &[u16], stamp: u64, node: u16) -> Option<usize>
    requires { length nodes.now ≡ length stamps.now }
    ensures { IsPlace stamps.now nodes.now stamp node result }
{
    let mut at = 0usize;
    while stamps.len() - at >= 8 {
        if has_stamp(stamps, at, stamp) {
            let found = place_in(stamps, nodes, at, at + 8, stamp, node);
            if found.is_some() {
                return found;
            }
        }
        at += 8;
    }
    place_in(stamps, nodes, at, stamps.len(), stamp, node)
}

/// Returns whether one of the eight positions from `at` on may have the stamp; false if none has
/// it.
pub(crate) fn has_stamp(stamps: &[u64], at: usize, stamp: u64) -> bool
    requires { at + 8 ≤ length stamps.now }
    ensures { result ≡ false → (k : ℕ) → at ≤ k → k < at + 8 → slice_index stamps.now k ≡ stamp
        → ⊥ }
{
    let lanes = u64x8::from_slice(&stamps[at..]);
    lanes.simd_eq(u64x8::splat(stamp)).to_bitmask() != 0
}

/// Returns the least position of a range with the stamp and the node, or none, one position after
/// another.
fn place_in(
    stamps: &[u64],
    nodes: &[u16],
    from: usize,
    to: usize,
    stamp: u64,
    node: u16,
) -> Option<usize>
    requires order { from ≤ to }
    requires inside { to ≤ length stamps.now }
    requires beside { length nodes.now ≡ length stamps.now }
    ensures { IsPlaceIn stamps.now nodes.now stamp node from to result }
{
    for i in from..to {
        if stamps[i] == stamp && nodes[i] == node {
            return Some(i);
        }
    }
    None
}
