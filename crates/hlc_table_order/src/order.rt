//! The index of a key with many rows: the positions of its first rows, in the order of their stamps and nodes. It only
//! makes reads fast, so if memory runs out, it stays as it was.
ghost use Rattle.std.specs.Prelude.{◌≡◌, ◌≤◌, ◌<◌, ◌+◌, ◌++◌, [], ℕ, IsTrue, IfOk, length, take, drop, slice_index};
ghost use Rattle.std.specs.Prelude.{◌/◌, ◌==◌, false, min, nat_le, if◌then◌else◌, IsPermutation};
ghost use Rattle.hlc_table_order.specs.Order.{Rises, IsIndex, IsNumbered, place_cmp};

use crate::newest::{is_below, node_at, stamp_at};
use hlc_values::NoMemory;
use std::cmp::Ordering;

/// A column of at most this many rows has no index.
const FIRST: usize = 16;

/// This many rows, and one more for each `SHARE` rows of the index, may be outside it.
const LEAST: usize = 64;

const SHARE: usize = 256;

/// No position in the index is above this.
const MOST: usize = 4294967295;

/// Compares two rows in the order of the index: by stamp, then by node, and then the later one
/// first.
fn compare(stamps: &[u64], nodes: &[u16], place: u32, other: u32) -> Ordering
    ensures { result ≡ place_cmp stamps.now nodes.now place other }
{
    let by_stamp = stamp_at(stamps, place as usize).cmp(&stamp_at(stamps, other as usize));
    let by_node = node_at(nodes, place as usize).cmp(&node_at(nodes, other as usize));
    by_stamp.then(by_node).then(other.cmp(&place))
}

/// Adds the positions up to a count, and returns whether there was memory.
fn add_places(order: &mut Vec<u32>, count: usize) -> bool
    requires { length order.old.items ≤ count }
    ensures yes { IsTrue result → IsNumbered order.old.items order.new.items count }
    ensures no { result ≡ false → order.new.items ≡ order.old.items }
{
    if count > MOST {
        return false;
    }
    let from = order.len();
    let Ok(()) = order.reserve(count - from) else {
        return false;
    };
    for place in from..count {
        order.push_reserved(place as u32);
    }
    true
}

/// Returns the least stamp from a position on.
fn least_from(stamps: &[u64], from: usize) -> u64
    ensures { (p : ℕ) → from ≤ p → p < length stamps.now → result ≤ slice_index stamps.now p }
{
    let mut least = u64::MAX;
    for place in from..stamps.len() {
        if stamps[place] < least {
            least = stamps[place];
        }
    }
    least
}

/// Returns how many rows of the index are below a stamp. They come first.
fn count_below(stamps: &[u64], nodes: &[u16], order: &[u32], stamp: u64) -> usize
    requires { IsIndex stamps.now nodes.now order.now }
    ensures few { result ≤ length order.now }
    ensures below { (i : ℕ) → i < result
        → slice_index stamps.now (slice_index order.now i) < stamp }
    ensures above { (i : ℕ) → result ≤ i → i < length order.now
        → stamp ≤ slice_index stamps.now (slice_index order.now i) }
{
    order.partition_point(|place| stamp_at(stamps, *place as usize) < stamp)
}

/// Returns the positions from `from` on, sorted.
fn sorted_tail(
    order: &Vec<u32>,
    from: usize,
    stamps: &[u64],
    nodes: &[u16],
) -> Result<Vec<u32>, NoMemory>
    requires { from ≤ length order.now.items }
    ensures same { IfOk result (λ tail. IsPermutation (drop from order.now.items) tail.items) }
    ensures rises { IfOk result (λ tail. Rises stamps.now nodes.now tail.items) }
{
    let mut tail = Vec::from_slice(*order.allocator(), &order[from..])?;
    tail.sort_by(|place, other| compare(stamps, nodes, *place, *other))?;
    Ok(tail)
}

/// Replaces the positions from `from` on by others of the same number. It needs no memory.
fn replace_tail(order: &mut Vec<u32>, from: usize, tail: Vec<u32>)
    requires from { from ≤ length order.old.items }
    requires alike { from + length tail.items ≡ length order.old.items }
    ensures { order.new.items ≡ take from order.old.items ++ tail.items }
{
    let mut tail = tail;
    order.truncate(from);
    let _ = order.append(&mut tail);
}

/// Adds all rows to the index, if there is memory. It sorts only from the least of the new stamps on.
fn index_all(order: &mut Vec<u32>, stamps: &[u64], nodes: &[u16])
    requires { IsIndex stamps.now nodes.now order.old.items }
    ensures { IsIndex stamps.now nodes.now order.new.items }
{
    let count = order.len();
    let least = least_from(stamps, count);
    let from = count_below(stamps, nodes, order.as_slice(), least);
    let added = add_places(order, stamps.len());
    if !added {
        return;
    }
    match sorted_tail(order, from, stamps, nodes) {
        Ok(tail) => replace_tail(order, from, tail),
        Err(_) => order.truncate(count),
    }
}

/// Adds the next row to the index if it is above all rows of the index and there is memory.
fn index_next(order: &mut Vec<u32>, stamps: &[u64], nodes: &[u16])
    requires index { IsIndex stamps.now nodes.now order.old.items }
    requires one { length order.old.items < length stamps.now }
    ensures { IsIndex stamps.now nodes.now order.new.items }
{
    let count = order.len();
    if count > 0 && count < MOST && is_below(stamps, nodes, order[count - 1] as usize, count) {
        let _ = order.push(count as u32);
    }
}

/// Returns how many rows may be outside an index of this many rows.
fn most_after(count: usize) -> usize
    ensures { result ≡ (if count == 0 then FIRST else LEAST + count / SHARE) }
{
    if count == 0 {
        FIRST
    } else {
        LEAST + count / SHARE
    }
}

/// Returns whether adding all rows to the index now sorts no more of its own rows than of the others. It checks this
/// only at each multiple of `LEAST` rows outside, since the check scans them.
fn sorts_few(order: &[u32], stamps: &[u64], nodes: &[u16]) -> bool
    requires { IsIndex stamps.now nodes.now order.now }
{
    let count = order.len();
    let outside = stamps.len() - count;
    if outside % LEAST != 0 {
        return false;
    }
    let least = least_from(stamps, count);
    count - count_below(stamps, nodes, order, least) <= outside
}

/// Extends the index after a row was added: by that row if it is the only one outside and above all others; otherwise
/// by all rows if many are outside, or if this sorts few of its own rows.
pub fn extend_index(order: &mut Vec<u32>, stamps: &[u64], nodes: &[u16])
    requires { IsIndex stamps.now nodes.now order.old.items }
    ensures { IsIndex stamps.now nodes.now order.new.items }
{
    let count = order.len();
    let outside = stamps.len() - count;
    if outside == 1 {
        index_next(order, stamps, nodes);
    } else if outside > most_after(count) || sorts_few(order.as_slice(), stamps, nodes) {
        index_all(order, stamps, nodes);
    }
}

/// Sets each member of the list to its own position.
fn number(order: &mut Vec<u32>)
    requires { length order.old.items ≤ 4294967295 }
    ensures { IsNumbered [] order.new.items (length order.old.items) }
{
    for place in 0..order.len() {
        order[place] = place as u32;
    }
}

/// Rebuilds the index after rows were dropped, over no more rows than it had. It needs no memory.
pub fn index_again(order: &mut Vec<u32>, stamps: &[u64], nodes: &[u16])
    ensures index { IsIndex stamps.now nodes.now order.new.items }
    ensures many { length order.new.items ≡ (if nat_le (length stamps.now) LEAST then 0
        else min (length order.old.items) (min (length stamps.now) MOST)) }
{
    if stamps.len() <= LEAST {
        order.clear();
        return;
    }
    order.truncate(stamps.len().min(MOST));
    number(order);
    order.sort_unstable_by(|place, other| compare(stamps, nodes, *place, *other));
}
