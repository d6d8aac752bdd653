//! The rows of one key between two stamps, the newest first, without a list of them.
ghost use Rattle.std.specs.Prelude.{◌≡◌, ◌<◌, ◌+◌, Some, None, length, slice_get};
ghost use Rattle.std.specs.Iterator.{YieldsFirstBy, item_count};
ghost use Rattle.hlc_table_column.specs.Cells.{Cell, cells_in};
ghost use Rattle.hlc_table_column.specs.Versions.{AreApart, IsNewestLeft, is_before, is_after, is_left, version_read};
ghost use Rattle.hlc_table_column.specs.Versions.{versions_left};

use crate::lanes::Lanes;
use hlc_clock::Stamp;
use std::marker::Model;

/// Returns whether one stamp and node is before another: by stamp, and then by node.
fn is_before(version: (u64, u16), other: (u64, u16)) -> bool
    ensures { result ≡ is_before version.0 version.1 other.0 other.1 }
{
    version.0 < other.0 || version.0 == other.0 && version.1 < other.1
}

/// Returns whether a stamp and node comes after the last one, if there was one: it is before that.
fn is_after(last: Option<(u64, u16)>, version: (u64, u16)) -> bool
    ensures { result ≡ is_after last version.0 version.1 }
{
    match last {
        Some(last) => is_before(version, last),
        None => true,
    }
}

/// Returns the stamp and the node of the row at a position.
fn version_at(lanes: &Lanes<'_>, place: usize) -> (u64, u16)
    requires { place < length lanes.now }
    ensures { (cell : Cell) → slice_get lanes.now place ≡ Some cell
        → result ≡ (cell.stamp, cell.node) }
{
    let (stamp, node) = lanes.version_at(place);
    (stamp.bits(), node)
}

/// Returns whether the row at a position is still to come.
fn is_left(lanes: &Lanes<'_>, from: u64, to: u64, last: Option<(u64, u16)>, place: usize) -> bool
    requires { place < length lanes.now }
    ensures { (cell : Cell) → slice_get lanes.now place ≡ Some cell
        → result ≡ is_left from to last cell }
{
    let version = version_at(lanes, place);
    from < version.0 && version.0 <= to && is_after(last, version)
}

/// Returns whether one of two rows is before the other, by their positions.
fn is_older(lanes: &Lanes<'_>, place: usize, other: usize) -> bool
    requires place { place < length lanes.now }
    requires other { other < length lanes.now }
    ensures { (cell newer : Cell) → slice_get lanes.now place ≡ Some cell
        → slice_get lanes.now other ≡ Some newer
        → result ≡ is_before cell.stamp cell.node newer.stamp newer.node }
{
    is_before(version_at(lanes, place), version_at(lanes, other))
}

/// Returns the position of the newest row that is still to come up to a position, where `best` is that of the rows
/// before it.
fn newest_upto(
    lanes: &Lanes<'_>,
    from: u64,
    to: u64,
    last: Option<(u64, u16)>,
    best: Option<usize>,
    place: usize,
) -> Option<usize>
    requires place { place < length lanes.now }
    requires best { IsNewestLeft from to last lanes.now place best }
    ensures { IsNewestLeft from to last lanes.now (place + 1) result }
{
    if !is_left(lanes, from, to, last, place) {
        return best;
    }
    let Some(first) = best else {
        return Some(place);
    };
    if is_older(lanes, first, place) {
        Some(place)
    } else {
        best
    }
}

/// Returns the position of the newest row that is still to come, or none. It looks at each row once.
fn newest_left(lanes: &Lanes<'_>, from: u64, to: u64, last: Option<(u64, u16)>) -> Option<usize>
    ensures { IsNewestLeft from to last lanes.now (length lanes.now) result }
{
    let mut best = None;
    for place in 0..lanes.len() {
        best = newest_upto(lanes, from, to, last, best, place);
    }
    best
}

/// Returns the next row, and moves the last one to it.
fn next_version<'a>(
    lanes: &Lanes<'a>,
    from: u64,
    to: u64,
    last: &mut Option<(u64, u16)>,
) -> Option<(Stamp, u16, Option<&'a [u8]>)>
    requires { AreApart lanes.now }
    ensures { YieldsFirstBy version_read (λ last. versions_left lanes.now from to last)
        last.old result last.new }
{
    let place = newest_left(lanes, from, to, *last)?;
    let (stamp, node) = lanes.version_at(place);
    *last = Some((stamp.bits(), node));
    Some((stamp, node, lanes.value_at(place)))
}

/// The rows of a key above one stamp and at or below another, the newest first, each as its stamp, its node, and its
/// value, or none for a deletion. Each call looks once at all rows of the key. In contracts it is the list of the
/// remaining rows, without the key.
#[derive(Debug, Drop)]
pub struct Versions<'a> {
    lanes: Option<Lanes<'a>>,
    from: Stamp,
    to: Stamp,
    last: Option<(u64, u16)>,
}

impl<'a> Model for Versions<'a> {
    ghost use Rattle.std.specs.Prelude.{List};
    ghost use Rattle.hlc_table_column.specs.Cells.{Cell, cells_in};
    ghost use Rattle.hlc_table_column.specs.Versions.{AreApart, versions_left};

    ghost Value = { List Cell };

    ghost view = { λ all. versions_left (cells_in all.lanes) all.from all.to all.last };

    ghost invariant = { λ all. AreApart (cells_in all.lanes) };
}

impl<'a> Iterator for Versions<'a> {
    type Item = (Stamp, u16, Option<&'a [u8]>);

    ghost next_gives = { YieldsFirstBy version_read (λ versions. versions) };

    ghost remaining = { item_count (λ versions. versions) };

    fn next(&mut self) -> Option<(Stamp, u16, Option<&'a [u8]>)> {
        match &self.lanes {
            Some(lanes) => next_version(lanes, self.from.bits(), self.to.bits(), &mut self.last),
            None => None,
        }
    }
}

/// Returns the rows of a key, if there are any, above one stamp and at or below another.
pub fn versions_of(lanes: Option<Lanes<'_>>, from: Stamp, to: Stamp) -> Versions<'_>
    requires { AreApart (cells_in lanes) }
    ensures { result ≡ versions_left (cells_in lanes.entry) from to None }
{
    Versions {
        lanes,
        from,
        to,
        last: None,
    }
}
