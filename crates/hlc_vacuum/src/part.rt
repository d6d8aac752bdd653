//! A vacuum of the columns of the keys of a range.
ghost use Rattle.std.specs.Prelude.{◌≡◌, ℕ, List, IfOk};
ghost use Rattle.hlc_clock.specs.Points.{PointsAscend};
ghost use Rattle.hlc_columns.specs.Answers.{in_part, part_end};
ghost use Rattle.hlc_table_column.specs.Rows.{KeyCells, keys_in};
ghost use Rattle.hlc_vacuum.specs.Part.{all_kept, with_plan, HaveFlags, IsPartOf, IsPartTallyOf, IsPartVacuum};
ghost use Rattle.hlc_vacuum.specs.Representing.{IsWithin};
ghost use Rattle.hlc_vacuum_draft.specs.{Plan.PlanView, Plan.tally_of, Report.numbers_in, Report.report_of};

use crate::piece::Piece;
use crate::plan::{Plan, Tally};
use crate::planner::{plan_columns, plan_of, tally_of};
use hlc_clock::Stamp;
use hlc_columns::{Keyed, Table};
use hlc_rows::Bytes;
use hlc_table_flags::Flags;
use hlc_vacuum_draft::{Numbers, Report, Unlisted};
use hlc_values::NoMemory;
use std::alloc::Global;

/// The plan of the columns of some keys, these keys, and the last of them, or none, only where no key is above it.
#[derive(Debug, Drop)]
pub struct PartPlan {
    pub plan: Plan,
    pub keys: Vec<Bytes>,
    pub end: Option<Bytes>,
}

/// The tally of the columns of some keys, these keys, and the last of them, or none, only where no key is above it.
#[derive(Debug, Drop)]
pub struct PartTally {
    pub tally: Tally,
    pub keys: Vec<Bytes>,
    pub end: Option<Bytes>,
}

/// Plans a vacuum of the first keys above a key, at most `limit` keys, at ascending points, as `plan_table` does for
/// all. It reads no other columns, and changes nothing.
pub fn plan_part(
    alloc: Global,
    table: &Table,
    after: &[u8],
    limit: usize,
    points: &[Stamp],
) -> Result<PartPlan, NoMemory>
    requires { PointsAscend points.now }
    ensures made { IfOk result (λ part. IsPartOf part table.now after.now limit) }
    ensures points { IfOk result (λ part. part.plan.points ≡ points.now) }
{
    let columns = table.columns_after(after, limit)?;
    let mut witnesses = Vec::new(alloc);
    let draft = plan_columns(alloc, columns.as_slice(), points, &mut witnesses)?;
    let plan = plan_of(alloc, points, Piece { draft, witnesses })?;
    let keys = copy_keys(alloc, columns.as_slice())?;
    let end = end_of(alloc, after, limit, keys.as_slice())?;
    Ok(PartPlan { plan, keys, end })
}

/// Plans a vacuum of the first keys as `plan_part` does, but counts the changes in place of listing them.
pub fn tally_part(
    alloc: Global,
    table: &Table,
    after: &[u8],
    limit: usize,
    points: &[Stamp],
) -> Result<PartTally, NoMemory>
    requires { PointsAscend points.now }
    ensures made { IfOk result (λ part. IsPartTallyOf part table.now after.now limit) }
    ensures points { IfOk result (λ part. part.tally.points ≡ points.now) }
{
    let columns = table.columns_after(after, limit)?;
    let draft = plan_columns(alloc, columns.as_slice(), points, &mut Unlisted)?;
    let tally = tally_of(alloc, points, draft)?;
    let keys = copy_keys(alloc, columns.as_slice())?;
    let end = end_of(alloc, after, limit, keys.as_slice())?;
    Ok(PartTally { tally, keys, end })
}

/// Returns copies of the keys of some columns.
fn copy_keys(alloc: Global, columns: &[Keyed<'_>]) -> Result<Vec<Bytes>, NoMemory>
    ensures { IfOk result (λ keys. keys.items ≡ keys_in columns.now) }
{
    let mut keys = Vec::new(alloc);
    for one in columns {
        keys.push(Bytes::from_slice(alloc, one.key())?)?;
    }
    Ok(keys)
}

/// Returns a copy of the last of the keys, or of `after` if there are none; or none if they are fewer than `limit`.
fn end_of(
    alloc: Global,
    after: &[u8],
    limit: usize,
    keys: &[Bytes],
) -> Result<Option<Bytes>, NoMemory>
    ensures { IfOk result (λ end. (columns : List KeyCells) → keys.now ≡ keys_in columns
        → end ≡ part_end after.now limit columns) }
{
    if keys.len() < limit {
        return Ok(None);
    }
    if keys.is_empty() {
        return Ok(Some(Bytes::from_slice(alloc, after)?));
    }
    let last = &keys[keys.len() - 1];
    Ok(Some(Bytes::from_slice(alloc, last.as_slice())?))
}

/// Carries out the plan of the columns of some keys of this table. All other rows stay. It needs no memory.
pub fn apply_part(table: &mut Table, part: PartPlan) -> (Report, Option<Bytes>)
    requires { (after : List ℕ) × (limit : ℕ) × IsPartOf part table.old after limit }
    ensures vacuumed { (after : List ℕ) (limit : ℕ) → IsPartOf part table.old after limit
        → IsPartVacuum table.old table.new (in_part after part.end) result.0 }
    ensures within { IsWithin table.old table.new }
    ensures report { result.0 ≡ report_of part.plan }
    ensures end { result.1 ≡ part.end }
{
    let PartPlan { plan, keys, end } = part;
    let numbers = apply_to_keys(table, keys.as_slice(), plan.tally());
    (plan.into_report(numbers), end)
}

/// Carries out the tally of the columns of some keys of this table, and returns the numbers of the report of each plan
/// that has this tally. All other rows stay. It needs no memory.
pub fn apply_part_tally(table: &mut Table, part: PartTally) -> (Numbers, Option<Bytes>)
    requires { (after : List ℕ) × (limit : ℕ) × IsPartTallyOf part table.old after limit }
    ensures vacuumed { (after : List ℕ) (limit : ℕ) (plan : PlanView)
        → IsPartOf (with_plan part plan) table.old after limit → part.tally ≡ tally_of plan
        → IsPartVacuum table.old table.new (in_part after part.end) (report_of plan) }
    ensures within { IsWithin table.old table.new }
    ensures numbers { result.0 ≡ numbers_in part.tally }
    ensures end { result.1 ≡ part.end }
{
    let PartTally { tally, keys, end } = part;
    (apply_to_keys(table, keys.as_slice(), &tally), end)
}

/// Carries out a tally of the columns of these keys, and returns the numbers of the report.
fn apply_to_keys(table: &mut Table, keys: &[Bytes], tally: &Tally) -> Numbers
    requires { HaveFlags keys.now tally.now.keep table.old }
    ensures rows { table.new ≡ all_kept keys.now tally.now.keep table.old }
    ensures numbers { result ≡ numbers_in tally.now }
{
    keep_of_keys(table, keys, tally.keep.flags());
    tally.numbers()
}

/// Keeps those rows of the keys that the flags select, and all rows of other keys.
fn keep_of_keys(table: &mut Table, keys: &[Bytes], flags: Flags<'_>)
    requires { HaveFlags keys.now flags table.old }
    ensures { table.new ≡ all_kept keys.now flags.entry table.old }
{
    let mut left = flags;
    for key in keys {
        left = table.keep_of(key.as_slice(), left);
    }
}
