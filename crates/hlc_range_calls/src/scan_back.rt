//! A part of a listing from its end, as bytes.
ghost use Rattle.std.specs.Prelude.{List};
ghost use Rattle.hlc_core.specs.{Past.Step, Past.stamp_of, Past.writes, StoreView.Represents};
ghost use Rattle.hlc_range_calls.specs.{Listing.pair_bytes, Scan.ListsWhatFits, Scan.ReturnsScanBack};

use crate::list::put_pair;
use crate::scan::{end, fits};
use hlc_core::{AnswersBack, Core};

/// Writes keys with their values to the start of a buffer while they fit, and how many bytes and keys it wrote. Returns
/// 0, or 104 where a key is left.
fn put_fitting_back(
    out: &mut [u8],
    answers: AnswersBack<'_>,
    len: &mut usize,
    count: &mut usize,
) -> u32
    ensures { ListsWhatFits pair_bytes answers.entry result len.new count.new out.old out.new }
{
    let mut at = 0usize;
    let mut index = 0usize;
    for (key, value) in answers {
        if !fits(out.len() - at, false, key, value) {
            *len = at;
            *count = index;
            return 104;
        }
        at = put_pair(out, at, key, value);
        index += 1;
    }
    *len = at;
    *count = index;
    0
}

/// Lists the keys with a value in a snapshot, with it, as `scan` does, but the last one of the range first.
pub fn scan_back(
    core: &Core,
    id: u64,
    from: &[u8],
    to: &[u8],
    out: &mut [u8],
    len: &mut usize,
    count: &mut usize,
) -> u32
    ensures { (past : List Step) → Represents core.now past → ReturnsScanBack
        (stamp_of id past) (writes past) from.now to.now result len.new count.new out.old out.new }
{
    *len = 0;
    *count = 0;
    match core.at(id) {
        None => 10,
        Some(view) => put_fitting_back(out, view.range_back(from, end(to)), len, count),
    }
}
