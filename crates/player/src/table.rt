//! The calls of a table alone, and the plan of its vacuum.
ghost use Rattle.std.specs.Prelude.{[], IfOk};
ghost use Rattle.hlc_vacuum_draft.specs.Plan.{IsPlanOf};
ghost use Rattle.hlc_vacuum.specs.Part.{IsPartOf};

use crate::events::row_of;
use crate::lines::{LONGEST, next_key, next_name, next_stamp};
use crate::play::{Played, say, say_made};
use crate::refusing::{end_refusing, refuse};
use hlc_columns::{Row, Stamp, Table};
use hlc_text::words::LineWords;
use hlc_vacuum::{PartPlan, Plan, Report, apply, apply_part, plan_part, plan_table};
use std::alloc::{AllocError, Global};

/// A table, and the row that is held.
#[derive(Drop)]
pub(crate) struct Tabled {
    table: Table,
    /// The row until it is stored. A refused one is returned here.
    held: Option<Row>,
}

impl Tabled {
    pub(crate) fn new(alloc: Global) -> Tabled {
        let table = Table::new(alloc);
        Tabled { table, held: None }
    }

    /// Holds the row of these words.
    fn hold(&mut self, rt: &HostRuntime, words: &mut LineWords<'_>) -> Option<()> {
        self.held = Some(row_of(rt.alloc(), next_name(words), words)?);
        Some(())
    }

    /// Adds the held row if it is below all others, and prints whether it is. Where it runs out of memory, the row is
    /// printed and is held again.
    fn insert(&mut self, rt: &HostRuntime) -> Option<()> {
        match add_lowest(&mut self.table, self.held.take()?) {
            Ok(added) => say(rt, "added", &added),
            Err(row) => {
                let _ = say(rt, "returned", &row);
                self.held = Some(row);
                None
            }
        }
    }
}

impl Played for Tabled {
    fn call(&mut self, rt: &HostRuntime, name: &str, words: &mut LineWords<'_>) -> Option<()> {
        match name {
            "hold" => self.hold(rt, words),
            "insert" => self.insert(rt),
            "plan" => say_made(rt, "report", report(rt.alloc(), &self.table)),
            "vacuum" => say_made(rt, "vacuumed", vacuum(rt, &mut self.table).ok()),
            "vacuum_part" => say_made(rt, "vacuumed", vacuum_part(rt, &mut self.table).ok()),
            _ => ask(rt, &self.table, name, words),
        }
    }
}

/// Asks a table what changes nothing.
fn ask(rt: &HostRuntime, table: &Table, name: &str, words: &mut LineWords<'_>) -> Option<()> {
    match name {
        "keys" => say_made(rt, "keys", table.keys().ok()),
        "rows" => say(rt, "rows", &table.rows()),
        "rows_at" => say(rt, "rows", &table.rows_at(next_stamp(words))),
        "answer" => {
            let (stamp, mut room) = (next_stamp(words), [0; LONGEST]);
            let key = next_key(words, &mut room);
            say(rt, "value", &table.answer(key, stamp))
        }
        _ => Some(()),
    }
}

/// Returns the report of a plan.
fn report(alloc: Global, table: &Table) -> Option<Report> {
    plan(alloc, table).ok()?.report().ok()
}

/// Adds a row that is below all others, and returns whether it is. Where it runs out of memory, the row is returned.
fn add_lowest(table: &mut Table, row: Row) -> Result<bool, Row> {
    if table.rows_at(row.stamp) > 0 {
        return Ok(false);
    }
    match table.insert(row) {
        Ok(()) => Ok(true),
        Err(failed) => Err(failed.value),
    }
}

/// Plans a vacuum at three points.
fn plan(alloc: Global, table: &Table) -> Result<Plan, AllocError>
    ensures { IfOk result (λ plan. IsPlanOf plan table.now) }
{
    let points = [
        Stamp::from_bits(6),
        Stamp::from_bits(8),
        Stamp::from_bits(9),
    ];
    plan_table(alloc, table, &points)
}

/// Vacuums a table while the next request would be refused once there is a plan.
fn vacuum(rt: &HostRuntime, table: &mut Table) -> Result<Report, AllocError> {
    let plan = plan(rt.alloc(), table)?;
    refuse(rt, 1);
    let report = apply(table, plan);
    let _ = say(rt, "memory refused", &end_refusing(rt));
    Ok(report)
}

/// Plans a vacuum of all keys at one point.
fn plan_whole_part(alloc: Global, table: &Table) -> Result<PartPlan, AllocError>
    ensures { IfOk result (λ part. IsPartOf part table.now [] 9) }
{
    plan_part(alloc, table, &[], 9, &[Stamp::from_bits(8)])
}

/// Vacuums these keys, also so that the next request would be refused once there is a plan.
fn vacuum_part(rt: &HostRuntime, table: &mut Table) -> Result<Report, AllocError> {
    let part = plan_whole_part(rt.alloc(), table)?;
    refuse(rt, 1);
    let (report, _) = apply_part(table, part);
    let _ = say(rt, "memory refused", &end_refusing(rt));
    Ok(report)
}
