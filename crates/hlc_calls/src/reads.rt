//! Reads of a key, and of many keys in one call, for callers for which a call is expensive.
ghost use Rattle.std.specs.Prelude.{◌≡◌, ◌≤◌, ◌<◌, ◌+◌, List, true, length, option_copied, MatchOption, MatchResult};
ghost use Rattle.hlc_core.specs.{Past.Step, Past.stamp_of, Past.writes, StoreView.Represents};
ghost use Rattle.hlc_wire.specs.Placing.{with_bytes};
ghost use Rattle.hlc_calls.specs.{Answers.ReturnsRead, Entries.lies};
ghost use Rattle.hlc_calls.specs.ReadAll.{answer_at, answer_bytes, IsLeftOut, ReturnsAll, ReturnsAnswers};

use crate::entries::piece_of;
use crate::outputs::fill;
use hlc_core::{Core, ReadView};
use hlc_range_calls::list::put_sized;
use hlc_wire::put_bytes;

/// The place of a key among some bytes.
#[repr(C)]
#[derive(Clone, Copy)]
pub struct Place {
    pub at: usize,
    pub len: usize,
}

/// Reads a key. Returns 0 with the value, 102 where there is none, or 10.
pub fn read(core: &Core, id: u64, key: &[u8], out: &mut [u8], len: &mut usize) -> u32
    ensures { (past : List Step) → Represents core.now past
        → ReturnsRead (stamp_of id past) (writes past) key.now result len.new out.old out.new }
{
    *len = 0;
    match core.read(id, key) {
        Ok(Some(value)) => {
            fill(value, out, len);
            0
        }
        Ok(None) => 102,
        Err(_) => 10,
    }
}

/// Writes an answer to a place of a buffer, and returns the place after it; or none, where it does not fit.
fn put_answer(out: &mut [u8], at: usize, value: Option<&[u8]>) -> Option<usize>
    requires { at ≤ length out.now }
    ensures { MatchOption result
        ((length out.old < at + length (answer_bytes (option_copied value.entry))) × (out.new ≡ out.old))
        (λ end. (end ≡ at + length (answer_bytes (option_copied value.entry))) × (end ≤ length out.old)
        × (out.new ≡ with_bytes at (answer_bytes (option_copied value.entry)) out.old)) }
{
    let room = out.len() - at;
    match value {
        None => {
            if room == 0 {
                return None;
            }
            Some(put_bytes(out, at, &[0]))
        }
        Some(value) => {
            if room < 9 || room - 9 < value.len() {
                return None;
            }
            let start = put_bytes(out, at, &[1]);
            Some(put_sized(out, start, value))
        }
    }
}

/// Writes the answer of the key at a place among the bytes. Returns the place after it; or 103 where the bytes do not
/// contain the key, or 104 where the answer does not fit.
fn put_key(
    view: &ReadView<'_>,
    place: &Place,
    bytes: &[u8],
    out: &mut [u8],
    at: usize,
) -> Result<usize, u32>
    requires { at ≤ length out.now }
    ensures { MatchResult result
        (λ end. (lies place.now.at place.now.len bytes.now ≡ true)
        × (end ≡ at + length (answer_at view.now.rows view.now.stamp bytes.now place.now))
        × (end ≤ length out.old)
        × (out.new
        ≡ with_bytes at (answer_at view.now.rows view.now.stamp bytes.now place.now) out.old))
        (λ code. IsLeftOut view.now.rows view.now.stamp bytes.now place.now at (length out.old) code
        × (out.new ≡ out.old)) }
{
    let Some(key) = piece_of(bytes, place.at, place.len) else {
        return Err(103);
    };
    put_answer(out, at, view.get(key)).ok_or(104)
}

/// Writes the answers of keys in turn to the start of a buffer, and how many bytes and answers it wrote. Returns 0, or
/// why the next key is left out.
fn put_answers(
    view: &ReadView<'_>,
    places: &[Place],
    bytes: &[u8],
    out: &mut [u8],
    len: &mut usize,
    count: &mut usize,
) -> u32
    ensures { ReturnsAnswers view.now.rows view.now.stamp places.now bytes.now
        result len.new count.new out.old out.new }
{
    let mut at = 0usize;
    let mut index = 0usize;
    while index < places.len() {
        match put_key(view, &places[index], bytes, out, at) {
            Ok(end) => at = end,
            Err(code) => {
                *len = at;
                *count = index;
                return code;
            }
        }
        index += 1;
    }
    *len = at;
    *count = index;
    0
}

/// Writes the answers of keys in a snapshot in turn, as many as fit, and returns how many answers and bytes these are.
/// The keys are at some places among bytes. Returns 0; 103 where the next key lies outside the bytes; 104 where its
/// answer does not fit; or 10 where the snapshot is not open. It needs no memory.
pub fn read_all(
    core: &Core,
    id: u64,
    places: &[Place],
    bytes: &[u8],
    out: &mut [u8],
    len: &mut usize,
    count: &mut usize,
) -> u32
    ensures { (past : List Step) → Represents core.now past → ReturnsAll (stamp_of id past)
        (writes past) places.now bytes.now result len.new count.new out.old out.new }
{
    *len = 0;
    *count = 0;
    match core.at(id) {
        None => 10,
        Some(view) => put_answers(&view, places, bytes, out, len, count),
    }
}
