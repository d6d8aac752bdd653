//! A part of a listing, as bytes.
ghost use Rattle.std.specs.Prelude.{◌≡◌, ◌≤◌, ◌+◌, List, length, nat_le, option_copied};
ghost use Rattle.hlc_core.specs.{Past.Step, Past.stamp_of, Past.writes, StoreView.Represents};
ghost use Rattle.hlc_wire.specs.Placing.{with_bytes};
ghost use Rattle.hlc_range_calls.specs.Listing.{narrowed};
ghost use Rattle.hlc_range_calls.specs.Scan.{end_of, part_bytes, ListsWhatFits, ReturnsScan, ReturnsCount};

use crate::list::{put_pair, put_sized};
use hlc_core::{Answers, Core};

/// Returns whether a key fits in this many bytes, alone or with its value.
#[tactic(auto, using(crate::proofs::ByteLemmas::pair_length))]
pub(crate) fn fits(room: usize, alone: bool, key: &[u8], value: &[u8]) -> bool
    ensures { result ≡ nat_le (length (part_bytes alone (key.now, value.now))) room }
{
    if alone {
        return room >= 8 && room - 8 >= key.len();
    }
    room >= 16 && room - 16 >= key.len() && room - 16 - key.len() >= value.len()
}

/// Writes a key, alone or with its value, to a place of a buffer, and returns the place after it.
fn put_part(out: &mut [u8], at: usize, alone: bool, key: &[u8], value: &[u8]) -> usize
    requires { at + length (part_bytes alone (key.now, value.now)) ≤ length out.now }
    ensures end { result ≡ at + length (part_bytes alone (key.now, value.now)) }
    ensures put { out.new ≡ with_bytes at (part_bytes alone (key.now, value.now)) out.old }
{
    if alone {
        return put_sized(out, at, key);
    }
    put_pair(out, at, key, value)
}

/// Writes keys, alone or with their values, to the start of a buffer while they fit, and how many bytes and keys it
/// wrote. Returns 0, or 104 where a key is left.
fn put_fitting(
    out: &mut [u8],
    alone: bool,
    answers: Answers<'_>,
    len: &mut usize,
    count: &mut usize,
) -> u32
    ensures { ListsWhatFits (part_bytes alone) answers.entry result len.new count.new out.old out.new }
{
    let mut at = 0usize;
    let mut index = 0usize;
    for (key, value) in answers {
        if !fits(out.len() - at, alone, key, value) {
            *len = at;
            *count = index;
            return 104;
        }
        at = put_part(out, at, alone, key, value);
        index += 1;
    }
    *len = at;
    *count = index;
    0
}

/// Returns the end of a range: no bytes represent none.
pub fn end(to: &[u8]) -> Option<&[u8]>
    ensures { option_copied result ≡ end_of to.now }
{
    if to.is_empty() {
        return None;
    }
    Some(to)
}

/// Lists the keys with a value in a snapshot, alone or with it, from one key on and below another, if that has bytes.
/// Returns 0, or 104 where a key did not fit; and the bytes of those that fit, their length and how many they are. Or
/// returns 10.
pub fn scan(
    core: &Core,
    id: u64,
    from: &[u8],
    to: &[u8],
    alone: bool,
    out: &mut [u8],
    len: &mut usize,
    count: &mut usize,
) -> u32
    ensures { (past : List Step) → Represents core.now past → ReturnsScan alone
        (stamp_of id past) (writes past) from.now to.now result len.new count.new out.old out.new }
{
    *len = 0;
    *count = 0;
    match core.at(id) {
        None => 10,
        Some(view) => put_fitting(out, alone, view.range(from, end(to)), len, count),
    }
}

/// Returns how many pairs there are, or the greatest number of 64 bits where there are more.
fn number_of(answers: Answers<'_>) -> u64
    ensures { result ≡ narrowed (length answers.entry) }
{
    let mut count = 0u64;
    for _ in answers {
        count = count.saturating_add(1);
    }
    count
}

/// Returns 0 and how many keys of a range have a value in a snapshot; or 10.
pub fn count(core: &Core, id: u64, from: &[u8], to: &[u8], count: &mut u64) -> u32
    ensures { (past : List Step) → Represents core.now past → ReturnsCount
        (stamp_of id past) (writes past) from.now to.now result count.new }
{
    *count = 0;
    let Some(view) = core.at(id) else {
        return 10;
    };
    *count = number_of(view.range(from, end(to)));
    0
}
