//! The differences between two snapshots, as bytes.
ghost use Rattle.std.specs.Prelude.{◌≡◌, ◌≤◌, ◌+◌, List, length, nat_le, option_copied};
ghost use Rattle.hlc_core.specs.{Past.Step, Past.stamp_of, Past.writes, StoreView.Represents};
ghost use Rattle.hlc_wire.specs.Placing.{with_bytes};
ghost use Rattle.hlc_range_calls.specs.{Scan.ListsWhatFits, Changes.change_bytes, Changes.ReturnsChanges};

use crate::list::{put_answer, put_sized};
use crate::scan::end;
use hlc_core::{Changes, Core};

/// Returns whether a key fits in this many bytes with its answer.
fn fits(room: usize, key: &[u8], value: Option<&[u8]>) -> bool
    ensures { result ≡ nat_le (length (change_bytes (key.now, option_copied value.entry))) room }
{
    match value {
        None => room >= 9 && room - 9 >= key.len(),
        Some(value) => {
            if room < 17 {
                return false;
            }
            room - 17 >= key.len() && room - 17 - key.len() >= value.len()
        }
    }
}

/// Writes a key and its answer to a place of a buffer, and returns the place after them.
fn put_change(out: &mut [u8], at: usize, key: &[u8], value: Option<&[u8]>) -> usize
    requires { at + length (change_bytes (key.now, option_copied value)) ≤ length out.now }
    ensures end { result ≡ at + length (change_bytes (key.now, option_copied value.entry)) }
    ensures put { out.new ≡ with_bytes at (change_bytes (key.now, option_copied value.entry)) out.old }
{
    let between = put_sized(out, at, key);
    put_answer(out, between, value)
}

/// Writes differences to the start of a buffer while they fit, and how many bytes and keys it wrote. Returns 0, or 104
/// where a key is left.
fn put_changes(out: &mut [u8], changes: Changes<'_>, len: &mut usize, count: &mut usize) -> u32
    ensures { ListsWhatFits change_bytes changes.entry result len.new count.new out.old out.new }
{
    let mut at = 0usize;
    let mut index = 0usize;
    for (key, value) in changes {
        if !fits(out.len() - at, key, value) {
            *len = at;
            *count = index;
            return 104;
        }
        at = put_change(out, at, key, value);
        index += 1;
    }
    *len = at;
    *count = index;
    0
}

/// Lists the keys of a range whose answers in two snapshots differ, each with that in the second. Returns 0, or 104
/// where a key did not fit; and the bytes of those that fit, their length and how many they are. Or returns 10.
pub fn changes(
    core: &Core,
    before: u64,
    after: u64,
    from: &[u8],
    to: &[u8],
    out: &mut [u8],
    len: &mut usize,
    count: &mut usize,
) -> u32
    ensures { (past : List Step) → Represents core.now past → ReturnsChanges
        (stamp_of before past) (stamp_of after past) (writes past) from.now to.now
        result len.new count.new out.old out.new }
{
    *len = 0;
    *count = 0;
    match core.changes_between(before, after, from, end(to)) {
        None => 10,
        Some(changes) => put_changes(out, changes, len, count),
    }
}
