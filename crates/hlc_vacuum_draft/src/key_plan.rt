//! The plan of one key: which rows of its column to keep for some points.
ghost use Rattle.std.specs.Prelude.{◌≡◌, ◌↔◌, ◌<◌, ◌++◌, ◌∷◌, [], ℕ, List, length, map, nat_lt, IfOk, IfSome, IsTrue};
ghost use Rattle.std.specs.Prelude.{OnOk, MatchOption, option_copied, slice_set, true, false};
ghost use Rattle.hlc_rows.specs.Rows.{IsRowSet};
ghost use Rattle.hlc_clock.specs.Points.{PointsAscend};
ghost use Rattle.hlc_table_column.specs.Rows.{rows_of};
ghost use Rattle.hlc_vacuum_draft.specs.KeyPlan.{IsKeyPlan, IsKeyVacuum};

use crate::points::last_of;
use hlc_clock::Stamp;
use hlc_table_column::{Column, Lanes};
use hlc_values::NoMemory;
use std::alloc::Global;

/// Which rows of a column to keep, and the points of its changes.
#[derive(Debug, Drop)]
pub struct KeyPlan {
    pub keep: Vec<bool>,
    pub changes: Vec<Stamp>,
}

/// Plans a vacuum of one key at ascending points: the newest row at a point is kept only if the
/// answer there differs from that at the point before. It changes nothing.
pub fn plan_key(alloc: Global, column: &Column, points: &[Stamp]) -> Result<KeyPlan, NoMemory>
    requires { PointsAscend points.now }
    ensures flags { IfOk result (λ plan. (key : List ℕ)
        → IsKeyPlan (rows_of key column.now) key points.now plan.changes.items plan.keep.items) }
    ensures vacuumed { IfOk result (λ plan. (key : List ℕ) → IsRowSet (rows_of key column.now)
        → IsKeyVacuum (rows_of key column.now) points.now plan.changes.items plan.keep.items) }
{
    plan_lanes(alloc, column.lanes(), points)
}

/// Plans a vacuum of the rows of one key, as `plan_key` plans that of their column.
fn plan_lanes(alloc: Global, lanes: Lanes<'_>, points: &[Stamp]) -> Result<KeyPlan, NoMemory>
    requires { PointsAscend points.now }
    ensures flags { IfOk result (λ plan. (key : List ℕ)
        → IsKeyPlan (rows_of key lanes.entry) key points.now plan.changes.items plan.keep.items) }
    ensures vacuumed { IfOk result (λ plan. (key : List ℕ) → IsRowSet (rows_of key lanes.entry)
        → IsKeyVacuum (rows_of key lanes.entry) points.now plan.changes.items plan.keep.items) }
{
    let mut keep = flags_above(alloc, lanes.stamps(), last_of(points).bits())?;
    let mut changes = Vec::new(alloc);
    let mut value_before: Option<&[u8]> = None;
    for point in points {
        let place = lanes.newest(*point);
        let value_here = lanes.value_of(place);
        let equal = are_equal(value_here, value_before);
        note_point(&mut keep, &mut changes, *point, place, equal)?;
        value_before = value_here;
    }
    Ok(KeyPlan { keep, changes })
}

/// Returns for each stamp in turn whether it is above a bound.
fn flags_above(alloc: Global, stamps: &[u64], bound: u64) -> Result<Vec<bool>, NoMemory>
    ensures { IfOk result (λ flags. flags.items ≡ map (λ stamp. nat_lt bound stamp) stamps.now) }
{
    stamps.iter().map(|stamp| *stamp > bound).collect(alloc)
}

/// Returns whether two answers are the same.
pub(crate) fn are_equal(a: Option<&[u8]>, b: Option<&[u8]>) -> bool
    ensures { IsTrue result ↔ (option_copied a.entry ≡ option_copied b.entry) }
{
    match (a, b) {
        (Some(x), Some(y)) => x == y,
        (None, None) => true,
        _ => false,
    }
}

/// Records a change at a point, unless the answers there are equal.
fn note_point(
    keep: &mut Vec<bool>,
    changes: &mut Vec<Stamp>,
    point: Stamp,
    place: Option<usize>,
    equal: bool,
) -> Result<(), NoMemory>
    requires { IfSome place (λ i. i < length keep.old.items) }
    ensures long { length keep.new.items ≡ length keep.old.items }
    ensures same { IsTrue equal
        → OnOk result ((changes.new.items ≡ changes.old.items)
        × (keep.new.items ≡ keep.old.items)) }
    ensures change { equal ≡ false
        → OnOk result ((changes.new.items ≡ changes.old.items ++ point ∷ [])
        × MatchOption place (keep.new.items ≡ keep.old.items)
        (λ i. keep.new.items ≡ slice_set keep.old.items i true)) }
{
    if equal {
        return Ok(());
    }
    changes.push(point)?;
    if let Some(i) = place {
        keep[i] = true;
    }
    Ok(())
}
