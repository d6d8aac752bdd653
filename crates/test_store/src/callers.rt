//! The small callers in the READMEs of the libraries below the store.
ghost use Rattle.std.specs.Prelude.{ℕ, ◌≡◌, ◌<◌, ◌≤◌, ◌↔◌, ◌+◌, ◌++◌, ◌∷◌, [], List, None, Some, true, length, false};
ghost use Rattle.std.specs.Prelude.{IsTrue, IfOk, IfSome, IsErr, OnOk, count_by, nat_le, IsPermutation};
ghost use Rattle.hlc_clock.specs.Points.{PointsAscend};
ghost use Rattle.hlc_heads.specs.Heads.{link_at};
ghost use Rattle.hlc_node.specs.Items.{body_refusal};
ghost use Rattle.hlc_rows.specs.{Rows.IsRowSet, declared.row.Row.Row as ARow};
ghost use Rattle.hlc_witness.specs.Fewest.{Alike};
ghost use Rattle.hlc_snapshot.specs.RegistryView.{stamp_in};

use hlc_clock::{Clock, ClockFault, Stamp};
use hlc_columns::Table;
use hlc_heads::Heads;
use hlc_intake::{Intake, LinkFault};
use hlc_lanes::count_at;
use hlc_node::{Body, Bytes, Row, body_fault};
use hlc_snapshot::{Registry, SnapshotFault};
use hlc_vacuum::{apply, plan_table};
use hlc_values::Exact;
use hlc_witness::{Witness, check};
use std::alloc::{AllocError, AllocFailed, Global};

/// Returns whether two values are equal.
pub(crate) fn are_equal<T: Exact>(a: &T, b: &T) -> bool
    ensures { IsTrue result ↔ (a.now ≡ b.now) }
{
    *a == *b
}

/// Stamps two events at one reading, the second later than the first.
pub(crate) fn two_events(clock: &mut Clock, reading: u64) -> Result<(Stamp, Stamp), ClockFault>
    ensures { IfOk result (λ stamps. stamps.0 < stamps.1) }
{
    let first = clock.tick(reading)?;
    let second = clock.tick(reading)?;
    Ok((first, second))
}

/// Returns a write that an item may contain, or none.
pub(crate) fn write_of(key: Bytes, value: Bytes) -> Option<Body>
    ensures { IfSome result (λ body. body_refusal body ≡ None) }
{
    let body = Body::Write {
        key,
        value: Some(value),
    };
    if body_fault(&body).is_some() {
        return None;
    }
    Some(body)
}

/// Passes one item to an intake twice, as a link that repeats would: the second time it is refused.
pub(crate) fn admit_twice(intake: &mut Intake, number: u64, stamp: Stamp) -> Result<(), LinkFault>
    ensures { IsErr result }
{
    let _first = intake.admit(number, stamp, false);
    intake.admit(number, stamp, false)
}

/// Returns whether every node has come so far that no item at or below this stamp is still to come.
pub(crate) fn is_complete(heads: &Heads, stamp: Stamp) -> bool
    ensures { result ≡ true → (k : ℕ) → k < length heads.now.links
        → (link_at heads.now.links k).retired ≡ false
        → stamp ≤ (link_at heads.now.links k).head }
{
    stamp <= heads.floor()
}

/// Opens two snapshots at one stamp, and returns their ids, which differ.
pub(crate) fn open_twice(registry: &mut Registry, stamp: Stamp) -> Result<(u64, u64), SnapshotFault>
    ensures { IfOk result
        (λ ids. (ids.0 < ids.1) × (stamp_in ids.0 registry.new.snapshots ≡ Some stamp)
        × (stamp_in ids.1 registry.new.snapshots ≡ Some stamp)) }
{
    let first = registry.open(stamp)?;
    let second = registry.open(stamp)?;
    Ok((first, second))
}

/// Returns the least number of rows that give these answers, if the witnesses show it.
pub(crate) fn least_count(rows: &[Row], points: &[Stamp], witnesses: &[Witness]) -> Option<u64>
    ensures { IfSome result
        (λ count. (others : List ARow) → IsRowSet others → Alike others rows.now points.now
        → count ≤ length others) }
{
    match check(rows, points, witnesses) {
        Ok(shown) => Some(shown.count()),
        Err(_) => None,
    }
}

/// Returns how many stamps are above a bound.
pub(crate) fn count_above(stamps: &[u64], bound: u64) -> usize
    ensures { result + count_by (λ stamp. nat_le stamp bound) stamps.now ≡ length stamps.now }
{
    stamps.len() - count_at(stamps, bound)
}

/// Adds a row, if its key has none yet, and returns whether it did.
pub(crate) fn add_first(table: &mut Table, row: Row) -> Result<bool, AllocFailed<Row>>
    ensures added { IfOk result
        (λ added. IsTrue added → IsPermutation (table.old ++ row ∷ []) table.new) }
    ensures known { IfOk result (λ added. added ≡ false → table.new ≡ table.old) }
{
    if table.column(row.key.as_slice()).is_some() {
        return Ok(false);
    }
    table.insert(row)?;
    Ok(true)
}

/// Drops the rows that no reader at these points needs, and returns how many they were.
pub(crate) fn drop_unread(
    alloc: Global,
    table: &mut Table,
    points: &[Stamp],
) -> Result<u128, AllocError>
    requires { PointsAscend points.now }
    ensures { OnOk result (Alike table.new table.old points.now) }
{
    let plan = plan_table(alloc, table, points)?;
    Ok(apply(table, plan).dropped)
}
