//! The greatest node with a stamp.
ghost use Rattle.std.specs.Prelude.{◌≡◌, ◌≤◌, length, max, Some, unwrap_or};
ghost use Rattle.hlc_lanes.specs.Places.{IsGreatestNode, IsGreatestNodeBelow};

use crate::places::has_stamp;

/// Returns the greatest node at the positions with this stamp, or none. The slices have the same
/// length. It needs no memory, and makes one pass.
pub fn greatest_node(stamps: &[u64], nodes: &[u16], stamp: u64) -> Option<u16>
    requires { length nodes.now ≡ length stamps.now }
    ensures { IsGreatestNode stamps.now nodes.now stamp result }
{
    let mut best = None;
    let mut at = 0usize;
    while stamps.len() - at >= 8 {
        if has_stamp(stamps, at, stamp) {
            best = greatest_node_in(stamps, nodes, at, at + 8, stamp, best);
        }
        at += 8;
    }
    greatest_node_in(stamps, nodes, at, stamps.len(), stamp, best)
}

/// Returns the greater of `so_far` and the greatest node with the stamp in a range, one position
/// after another.
fn greatest_node_in(
    stamps: &[u64],
    nodes: &[u16],
    from: usize,
    to: usize,
    stamp: u64,
    so_far: Option<u16>,
) -> Option<u16>
    requires order { from ≤ to }
    requires inside { to ≤ length stamps.now }
    requires beside { length nodes.now ≡ length stamps.now }
    requires before { IsGreatestNodeBelow stamps.now nodes.now stamp from so_far }
    ensures { IsGreatestNodeBelow stamps.now nodes.now stamp to result }
{
    let mut best = so_far;
    for i in from..to {
        if stamps[i] == stamp {
            best = greater_node(best, nodes[i]);
        }
    }
    best
}

/// Returns the greater of the two nodes, or `node` if it is the only one.
fn greater_node(best: Option<u16>, node: u16) -> Option<u16>
    ensures { result ≡ Some (max (unwrap_or best 0) node) }
{
    match best {
        Some(other) if other > node => Some(other),
        _ => Some(node),
    }
}
