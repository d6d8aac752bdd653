//! An unfinished plan: the plans of the columns so far, one after another.
ghost use Rattle.std.specs.Prelude.{◌≡◌, ◌+◌, ◌<◌, ◌++◌, [], IfSome, MatchOption, None, OnOk, length, map};
ghost use Rattle.std.specs.Prelude.{nat_lt, slice_set, true};
ghost use Rattle.hlc_clock.specs.Points.{PointsAscend};
ghost use Rattle.hlc_table_column.specs.Rows.{rows_of};
ghost use Rattle.hlc_witness.specs.AllChanges.{key_changes};
ghost use Rattle.hlc_vacuum_draft.specs.KeyPlan.{AddsPlan};

use crate::changes::Changes;
use crate::gaps::{gap_end, greatest_of};
use crate::key_plan::are_equal;
use crate::points::last_of;
use hlc_clock::Stamp;
use hlc_table_column::Lanes;
use hlc_table_flags::FlagList;
use hlc_values::NoMemory;
use hlc_witness::cost_of;
use std::alloc::Global;

/// For each row so far whether it is kept, the number of changes so far, and the bytes that they force.
#[derive(Drop)]
pub struct Draft {
    pub keep: FlagList,
    pub changes: u64,
    pub bytes: u128,
}

impl Draft {
    /// Returns a draft of no column.
    pub fn new(alloc: Global) -> Draft
        ensures keep { result.keep ≡ [] }
        ensures changes { result.changes ≡ 0 }
        ensures bytes { result.bytes ≡ 0 }
    {
        Draft {
            keep: FlagList::new(alloc),
            changes: 0,
            bytes: 0,
        }
    }

    /// Makes room for the flags of this many rows.
    pub fn make_room(&mut self, rows: usize) -> Result<(), NoMemory>
        ensures keep { self.new.keep ≡ self.old.keep }
        ensures changes { self.new.changes ≡ self.old.changes }
        ensures bytes { self.new.bytes ≡ self.old.bytes }
    {
        self.keep.reserve(rows)?;
        Ok(())
    }

    /// Adds the plan of the next column: the newest row at a point is kept only if the answer there differs from that
    /// at the point before, and then a change is counted, and added to others. Points in a gap between the stamps of
    /// its rows are skipped.
    pub fn add<C: Changes>(
        &mut self,
        alloc: Global,
        key: &[u8],
        column: Lanes<'_>,
        points: &[Stamp],
        changes: &mut C,
    ) -> Result<(), NoMemory>
        requires { PointsAscend points.now }
        ensures plan { OnOk result (AddsPlan (rows_of key.now column.entry) key.now points.now
            self.old.changes self.new.changes
            self.old.keep self.new.keep self.old.bytes self.new.bytes) }
        ensures changes { OnOk result (C.adds changes.old
            (key_changes (rows_of key.now column.entry) key.now None points.now) changes.new) }
    {
        let from = self.keep.len();
        let stamps = column.stamps();
        let last = last_of(points).bits();
        add_flags(&mut self.keep, stamps, last)?;
        let greatest = greatest_of(stamps);
        let mut next = gap_end(stamps, greatest, 0, points.len());
        let mut before: Option<Stamp> = None;
        let mut value_before: Option<&[u8]> = None;
        let mut near = 0;
        for point in points {
            if point.bits() < next {
                if last < next {
                    return Ok(());
                }
                before = Some(*point);
                continue;
            }
            let (place, reached) = column.newest_on(*point, near);
            let value_here = column.value_of(place);
            if !are_equal(value_here, value_before) {
                changes.note(alloc, key, before, *point)?;
                self.count(1, cost_of(key, value_here))?;
                mark(&mut self.keep, from, place);
            }
            near = reached;
            value_before = value_here;
            before = Some(*point);
            let above = point.bits().saturating_add(1);
            next = gap_end(stamps, greatest, above, points.len());
        }
        Ok(())
    }

    /// Adds the draft of the columns after these.
    pub fn append(&mut self, other: Draft) -> Result<(), NoMemory>
        ensures keep { OnOk result (self.new.keep ≡ self.old.keep ++ other.keep) }
        ensures changes { OnOk result (self.new.changes ≡ self.old.changes + other.changes) }
        ensures bytes { OnOk result (self.new.bytes ≡ self.old.bytes + other.bytes) }
    {
        let Draft {
            keep,
            changes,
            bytes,
        } = other;
        self.keep.append(keep)?;
        self.count(changes, bytes)
    }

    /// Counts more changes, and the bytes that they force. A sum that does not fit counts as out of memory; no memory
    /// has room for that many rows.
    fn count(&mut self, changes: u64, bytes: u128) -> Result<(), NoMemory>
        ensures keep { OnOk result (self.new.keep ≡ self.old.keep) }
        ensures changes { OnOk result (self.new.changes ≡ self.old.changes + changes) }
        ensures bytes { OnOk result (self.new.bytes ≡ self.old.bytes + bytes) }
    {
        self.changes = self.changes.checked_add(changes).ok_or(NoMemory)?;
        self.bytes = self.bytes.checked_add(bytes).ok_or(NoMemory)?;
        Ok(())
    }
}

/// Appends a list to another. If that is empty, the list is moved in its place, and not copied. If memory runs out, the
/// second list is lost.
pub fn append_list<T: Drop>(list: &mut Vec<T>, mut more: Vec<T>) -> Result<(), NoMemory>
    ensures { OnOk result (list.new.items ≡ list.old.items ++ more.items) }
{
    if list.is_empty() {
        *list = more;
        return Ok(());
    }
    list.append(&mut more)
}

/// Adds for each stamp in turn whether it is above a bound.
fn add_flags(flags: &mut FlagList, stamps: &[u64], bound: u64) -> Result<(), NoMemory>
    ensures { OnOk result (flags.new
        ≡ flags.old ++ map (λ stamp. nat_lt bound stamp) stamps.now) }
{
    flags.reserve(stamps.len())?;
    for stamp in stamps {
        flags.push(*stamp > bound)?;
    }
    Ok(())
}

/// Sets the flag of a row, if there is one, among those from a position on.
fn mark(flags: &mut FlagList, from: usize, place: Option<usize>)
    requires { IfSome place (λ i. from + i < length flags.old) }
    ensures { MatchOption place (flags.new ≡ flags.old)
        (λ i. flags.new ≡ slice_set flags.old (from + i) true) }
{
    if let Some(i) = place {
        flags.set_after(from, i);
    }
}
