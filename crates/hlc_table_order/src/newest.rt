//! The position of the newest of some stamps and nodes, which are side by side.
ghost use Rattle.std.specs.Prelude.{◌≡◌, ◌↔◌, ◌≤◌, ◌<◌, ◌-◌, ◌⊎◌, IsTrue, Some, IfSome, MatchOption, length};
ghost use Rattle.std.specs.Prelude.{slice_index, take, count_by, nat_le, false};
ghost use Rattle.std.specs.List.Sorted.{IsPartitionPoint};
ghost use Rattle.hlc_table_order.specs.Newest.{NotAbove, IsNewestBelow, IsGreatestAt};
ghost use Rattle.hlc_table_order.specs.Order.{IsIndex, AreFirstWithin};

use hlc_lanes::{greatest_node, newest_at, place_of};

/// Below this many rows one plain pass is faster than three by the kernels.
const FEW: usize = 16;

/// Returns the stamp at a position, or 0 if there is none.
pub(crate) fn stamp_at(stamps: &[u64], place: usize) -> u64
    ensures { result ≡ slice_index stamps.now place }
{
    if place < stamps.len() {
        stamps[place]
    } else {
        0
    }
}

/// Returns the node at a position, or 0 if there is none.
pub(crate) fn node_at(nodes: &[u16], place: usize) -> u16
    ensures { result ≡ slice_index nodes.now place }
{
    if place < nodes.len() { nodes[place] } else { 0 }
}

/// Returns whether a row is below one that came later.
pub(crate) fn is_below(stamps: &[u64], nodes: &[u16], place: usize, later: usize) -> bool
    requires { place < later }
    ensures below { IsTrue result → NotAbove stamps.now nodes.now place later }
    ensures above { result ≡ false → NotAbove stamps.now nodes.now later place }
{
    let stamp = stamp_at(stamps, place);
    let other = stamp_at(stamps, later);
    stamp < other || stamp == other && node_at(nodes, place) < node_at(nodes, later)
}

/// Returns the newer of `best` and a later row, or `best` if they are alike.
fn newer(stamps: &[u64], nodes: &[u16], best: Option<usize>, later: usize) -> usize
    requires { IfSome best (λ place. place < later) }
    ensures one { (result ≡ later) ⊎ (best ≡ Some result) }
    ensures later { NotAbove stamps.now nodes.now later result }
    ensures best { IfSome best (λ place. NotAbove stamps.now nodes.now place result) }
{
    match best {
        Some(place) if !is_below(stamps, nodes, place, later) => place,
        _ => later,
    }
}

/// Returns the newest of `first` and of the rows from a position on, one after another.
fn newest_of_few(
    stamps: &[u64],
    nodes: &[u16],
    from: usize,
    bound: u64,
    first: Option<usize>,
) -> Option<usize>
    requires from { from ≤ length stamps.now }
    requires first { IsNewestBelow stamps.now nodes.now bound from first }
    ensures { IsNewestBelow stamps.now nodes.now bound (length stamps.now) result }
{
    let mut best = first;
    for place in from..stamps.len() {
        if stamps[place] <= bound {
            best = Some(newer(stamps, nodes, best, place));
        }
    }
    best
}

/// Returns the first position of the greatest node with a stamp.
fn greatest_place(stamps: &[u64], nodes: &[u16], stamp: u64) -> Option<usize>
    requires { length nodes.now ≡ length stamps.now }
    ensures { IsGreatestAt stamps.now nodes.now stamp result }
{
    let node = greatest_node(stamps, nodes, stamp)?;
    place_of(stamps, nodes, stamp, node)
}

/// Returns whether `first` is a row above a stamp.
fn is_above(stamps: &[u64], first: Option<usize>, stamp: u64) -> bool
    ensures { IsTrue result ↔ MatchOption first ⊥ (λ place. stamp < slice_index stamps.now place) }
{
    match first {
        Some(place) => stamp < stamp_at(stamps, place),
        None => false,
    }
}

/// Returns the position of the newest of all rows at or below the bound, where `first` is that of the rows before
/// `from`. Among many rows the kernels find it: the stamp, its greatest node, and the first position of both.
pub fn newest_from(
    stamps: &[u64],
    nodes: &[u16],
    from: usize,
    bound: u64,
    first: Option<usize>,
) -> Option<usize>
    requires beside { length nodes.now ≡ length stamps.now }
    requires from { from ≤ length stamps.now }
    requires first { IsNewestBelow stamps.now nodes.now bound from first }
    ensures { IsNewestBelow stamps.now nodes.now bound (length stamps.now) result }
{
    if stamps.len() - from < FEW {
        return newest_of_few(stamps, nodes, from, bound, first);
    }
    let Some(stamp) = newest_at(&stamps[from..], bound) else {
        return first;
    };
    if is_above(stamps, first, stamp) {
        return first;
    }
    let Some(place) = greatest_place(&stamps[from..], &nodes[from..], stamp) else {
        return first;
    };
    Some(newer(stamps, nodes, first, from + place))
}

/// Returns the position of the newest row of an index at or below the bound, where `count` rows of
/// the index are at or below it.
pub fn newest_of_first(
    stamps: &[u64],
    nodes: &[u16],
    order: &[u32],
    bound: u64,
    count: usize,
) -> Option<usize>
    requires index { IsIndex stamps.now nodes.now order.now }
    requires point { IsPartitionPoint (λ place. IsTrue (nat_le (slice_index stamps.now place) bound))
        (λ place. nat_le (slice_index stamps.now place) bound ≡ false) order.now count }
    requires few { count ≤ length order.now }
    ensures { IsNewestBelow stamps.now nodes.now bound (length order.now) result }
{
    if count == 0 {
        return None;
    }
    Some(order[count - 1] as usize)
}

/// Returns whether the first `count` rows of an index are all at or below the bound.
fn are_first_within(stamps: &[u64], nodes: &[u16], order: &[u32], bound: u64, count: usize) -> bool
    requires { IsIndex stamps.now nodes.now order.now }
    ensures few { IsTrue result → count ≤ length order.now }
    ensures within { IsTrue result → AreFirstWithin stamps.now order.now bound count }
{
    if count == 0 {
        return true;
    }
    match order.get(count - 1) {
        Some(place) => stamp_at(stamps, *place as usize) <= bound,
        None => false,
    }
}

/// Returns how many rows of an index are at or below the bound. It searches from a position on, one row after another;
/// the result does not depend on that position.
pub fn count_from(stamps: &[u64], nodes: &[u16], order: &[u32], bound: u64, from: usize) -> usize
    requires { IsIndex stamps.now nodes.now order.now }
    ensures point { IsPartitionPoint (λ place. IsTrue (nat_le (slice_index stamps.now place) bound))
        (λ place. nat_le (slice_index stamps.now place) bound ≡ false) order.now result }
    ensures few { result ≤ length order.now }
{
    if !are_first_within(stamps, nodes, order, bound, from) {
        return count_indexed(stamps, nodes, order, bound);
    }
    for count in from..order.len() {
        if stamp_at(stamps, order[count] as usize) > bound {
            return count;
        }
    }
    order.len()
}

/// Returns whether the last row of an index is at or below the bound.
fn is_last_within(stamps: &[u64], order: &[u32], bound: u64) -> bool
    ensures { IsTrue result
        → slice_index stamps.now (slice_index order.now (length order.now - 1)) ≤ bound }
{
    match order.last() {
        Some(place) => stamp_at(stamps, *place as usize) <= bound,
        None => false,
    }
}

/// Returns how many rows of an index are at or below the bound: all of them if its last is, and otherwise the result of
/// a binary search.
pub fn count_indexed(stamps: &[u64], nodes: &[u16], order: &[u32], bound: u64) -> usize
    requires { IsIndex stamps.now nodes.now order.now }
    ensures point { IsPartitionPoint (λ place. IsTrue (nat_le (slice_index stamps.now place) bound))
        (λ place. nat_le (slice_index stamps.now place) bound ≡ false) order.now result }
    ensures few { result ≤ length order.now }
    ensures count { result ≡ count_by
        (λ stamp. nat_le stamp bound) (take (length order.now) stamps.now) }
{
    if is_last_within(stamps, order, bound) {
        return order.len();
    }
    order.partition_point(|place| stamp_at(stamps, *place as usize) <= bound)
}
