//! A checkpoint whose rows come one by one: each is checked as it comes, and put into the table of a store.
ghost use Rattle.std.specs.Prelude.{◌≡◌, ◌++◌, ◌∷◌, ◌↔◌, [], IfNone, IfOk, IsTrue, MatchOption, OnErr, OnOk};
ghost use Rattle.std.specs.List.Sorted.{IsPermutation};
ghost use Rattle.hlc_columns.specs.Table.{HasNoVersion};
ghost use Rattle.hlc_witness.specs.Cost.{IsInLimits};
ghost use Rattle.hlc_checkpoint.specs.StoreView.{StoreView, IsUnderHead, with_rows};
ghost use Rattle.hlc_checkpoint.specs.Checkpoint.{IsCheckpoint, IsFirstReason, Restores};
ghost use Rattle.hlc_checkpoint.specs.Growing.{HasGrown, IsAfter, first_fault, with_row, without_value};

use crate::checked::Checked;
use crate::checkpoint::{Checkpoint, RestoreFault, head_reason, is_under_head};
use hlc_columns::Table;
use hlc_intake::Intake;
use hlc_rows::{Row, write_fault};
use hlc_values::NoMemory;
use hlc_witness::row_order;
use std::alloc::Global;
use std::marker::Model;

/// A checkpoint whose rows are added one by one, in the order in which a checkpoint has them.
///
/// Each row is checked when it is added, and its value is moved into a table, so that no list of the rows is needed: it
/// takes the memory of the store, and a copy of the last key. After a row that no checkpoint has, the table is dropped,
/// and the rows after it are only checked.
#[derive(Debug, Drop)]
pub struct Growing {
    alloc: Global,
    head: Checkpoint,
    // The rows, as long as a checkpoint may have them.
    table: Table,
    // The last row, without its value.
    last: Option<Row>,
    checks: Checks,
}

/// What is true of all rows so far.
#[derive(Clone, Copy, Debug)]
struct Checks {
    /// Each is above the one before it.
    ascend: bool,
    /// Each is of a node, not above its head, and above 0.0.
    under: bool,
    /// An item may write each.
    limits: bool,
}

impl Model for Growing {
    ghost use Rattle.hlc_checkpoint.specs.StoreView.{StoreView};
    ghost use Rattle.hlc_checkpoint.specs.Growing.{GrowingView, HasGrown, growing_of};

    ghost Value = { GrowingView };

    ghost view = { λ growing. growing_of growing.head growing.table growing.last
        growing.checks.ascend growing.checks.under growing.checks.limits };

    ghost invariant = { λ growing. (kept : StoreView)
        × HasGrown (growing_of growing.head growing.table growing.last
        growing.checks.ascend growing.checks.under growing.checks.limits) kept };
}

impl Growing {
    /// Starts with these parts, whether they are a store's or not, and without rows. If `head` has rows, they do not
    /// count. It needs no memory.
    pub fn new(alloc: Global, head: Checkpoint) -> Growing
        ensures { HasGrown result (with_rows head []) }
    {
        Growing {
            alloc,
            head,
            table: Table::new(alloc),
            last: None,
            checks: Checks {
                ascend: true,
                under: true,
                limits: true,
            },
        }
    }

    /// Adds the next row, whatever it is. If memory runs out, nothing is changed, and the row is lost.
    pub fn add(&mut self, row: Row) -> Result<(), NoMemory>
        ensures ok { (kept : StoreView) → HasGrown self.old kept
            → OnOk result (HasGrown self.new (with_row kept row)) }
        ensures unchanged { OnErr result (self.new ≡ self.old) }
    {
        let checks = checked_on(self.checks, self.head.links(), &self.last, &row);
        let last = put(self.alloc, &mut self.table, row, checks)?;
        self.last = Some(last);
        self.checks = checks;
        Ok(())
    }

    /// Returns the first reason why the parts and the rows are no checkpoint, as `Checkpoint::fault` does. It looks at
    /// no row again.
    pub fn fault(&self) -> Option<RestoreFault>
        ensures first { (kept : StoreView) → HasGrown self.now kept
            → MatchOption result (IsCheckpoint kept) (IsFirstReason kept) }
        ensures none { IfNone result
            ((kept : StoreView) × HasGrown self.now kept × IsCheckpoint kept) }
    {
        match head_reason(&self.head) {
            Some(fault) => Some(fault),
            None => first_fault(self.checks),
        }
    }

    /// Returns what a store is made of, or the first reason why the parts and the rows are no checkpoint. It needs no
    /// memory.
    pub fn finish(self) -> Result<Checked, RestoreFault>
        ensures { (kept : StoreView) → HasGrown self kept → Restores kept result }
    {
        match self.fault() {
            Some(fault) => Err(fault),
            None => Ok(Checked::grown(self.head, self.table)),
        }
    }
}

/// Returns what is true of the rows, after one more.
fn checked_on(checks: Checks, links: &[Intake], last: &Option<Row>, row: &Row) -> Checks
    ensures ascend { IsTrue result.ascend ↔ (IsTrue checks.ascend × IsAfter last.now row.now) }
    ensures under { IsTrue result.under ↔ (IsTrue checks.under × IsUnderHead links.now row.now) }
    ensures limits { IsTrue result.limits ↔ (IsTrue checks.limits × IsInLimits row.now) }
{
    Checks {
        ascend: checks.ascend && is_after(last, row),
        under: checks.under && is_under_head(links, row),
        limits: checks.limits && is_writable(row),
    }
}

/// Returns whether a row is above the last one, by key, stamp and node.
fn is_after(last: &Option<Row>, row: &Row) -> bool
    ensures { IsTrue result ↔ IsAfter last.now row.now }
{
    match last {
        None => true,
        Some(last) => row_order(last, row).is_lt(),
    }
}

/// Returns whether an item may write a row.
fn is_writable(row: &Row) -> bool
    ensures { IsTrue result ↔ IsInLimits row.now }
{
    write_fault(row.key.as_slice(), row.value()).is_none()
}

/// Puts a row into the table, or drops the table if the rows are not those of a checkpoint. Returns the row without its
/// value. If memory runs out, nothing is changed.
fn put(alloc: Global, table: &mut Table, row: Row, checks: Checks) -> Result<Row, NoMemory>
    requires { IsTrue checks.ascend → IsTrue checks.under → IsTrue checks.limits
        → HasNoVersion table.old row }
    ensures last { IfOk result (λ last. last ≡ without_value row) }
    ensures ok { OnOk result (IsTrue checks.ascend → IsTrue checks.under → IsTrue checks.limits
        → IsPermutation (table.old ++ row ∷ []) table.new) }
    ensures unchanged { OnErr result (table.new ≡ table.old) }
{
    let Row {
        key,
        stamp,
        node,
        value,
    } = row;
    match first_fault(checks) {
        None => table.insert_ascending(key.as_slice(), stamp, node, value)?,
        Some(_) => *table = Table::new(alloc),
    }
    Ok(Row {
        key,
        stamp,
        node,
        value: None,
    })
}

/// Returns the first reason against the rows, or none.
fn first_fault(checks: Checks) -> Option<RestoreFault>
    ensures { result ≡ first_fault checks.ascend checks.under checks.limits }
{
    if !checks.ascend {
        return Some(RestoreFault::RowsNotAscending);
    }
    if !checks.under {
        return Some(RestoreFault::RowAboveHead);
    }
    if !checks.limits {
        return Some(RestoreFault::RowOutOfLimits);
    }
    None
}
