//! An older checkpoint that becomes a newer one by an increment.
ghost use Rattle.std.specs.Prelude.{◌≡◌, ◌<◌, ◌++◌, ◌↔◌, All, IfOk, IfErr, OnOk, OnErr, IfSome, IsTrue, List, None};
ghost use Rattle.std.specs.List.Sorted.{IsPermutation};
ghost use Rattle.hlc_table_column.specs.Rows.{rows_to};
ghost use Rattle.hlc_witness.specs.Certificate.{RowsAscend};
ghost use Rattle.hlc_core.specs.{Past.Step, Past.floor, Checkpoint.IsCheckpoint};
ghost use Rattle.hlc_core.specs.StoreView.{StoreView, Represents};
ghost use Rattle.hlc_increment.specs.Increment.{AreFitting, IsAdvanced, IsIncrementOf, IsReason, without_drops};
ghost use Rattle.hlc_increment.specs.Faults.{advance_code, advance_word};

use crate::increment::Increment;
use crate::later::may_be_later;
use hlc_checkpoint::sort;
use hlc_core::{Checkpoint, RestoreFault, Row, Stamp};
use hlc_values::NoMemory;
use std::error::Error;
use std::fmt;

/// Why an older checkpoint does not become a newer one, in the order in which the reasons are checked.
#[derive(Clone, Copy, PartialEq, Eq, Debug)]
pub enum AdvanceFault {
    /// The older one is no checkpoint, or the state of the increment is none.
    Parts(RestoreFault),
    /// The increment is not of this state later on: it has another number of nodes at the start, fewer links, a link
    /// with a lower number or head, a node that retired and is back, a lower horizon, a lower last id, or an open
    /// snapshot that was closed.
    NotLater,
    /// The stamp of the increment is above the floor of the older checkpoint, so writes up to it may be missing.
    AboveFloor { floor: Stamp },
    /// The stamp of the increment is below its horizon.
    BelowHorizon { horizon: Stamp },
    /// A row of the increment is not above its stamp.
    RowUpToStamp,
}

impl AdvanceFault {
    /// Returns the number of this refusal in outputs: 107, 111, 8 or 110.
    pub fn code(self) -> u32
        ensures { result ≡ advance_code self }
    {
        match self {
            AdvanceFault::Parts(_) => 107,
            AdvanceFault::NotLater => 111,
            AdvanceFault::AboveFloor { .. } => 8,
            AdvanceFault::BelowHorizon { .. } | AdvanceFault::RowUpToStamp => 110,
        }
    }

    /// Returns the number of the reason against the parts, or the word of the floor, in this refusal, or 0.
    pub fn word(self) -> u64
        ensures { result ≡ advance_word self }
    {
        match self {
            AdvanceFault::Parts(fault) => fault.code() as u64,
            AdvanceFault::AboveFloor { floor } => floor.bits(),
            AdvanceFault::NotLater
            | AdvanceFault::BelowHorizon { .. }
            | AdvanceFault::RowUpToStamp => 0,
        }
    }
}

impl fmt::Display for AdvanceFault {
    ghost use Rattle.std.specs.Prelude.{Some};
    ghost use Rattle.hlc_increment.specs.Faults.{advance_text};

    ghost output = { λ fault. Some (advance_text fault) };

    fn fmt<W: fmt::Write>(&self, f: &mut fmt::Formatter<W>) -> fmt::Result {
        match self {
            AdvanceFault::Parts(fault) => fault.fmt(f),
            AdvanceFault::NotLater => f.write_str(
                "the increment is not of a later state of this store",
            ),
            AdvanceFault::AboveFloor { floor } => {
                write!(f, "the stamp is above the floor of the checkpoint, {floor}")
            }
            AdvanceFault::BelowHorizon { horizon } => {
                write!(f, "the stamp is below that of the last vacuum, {horizon}")
            }
            AdvanceFault::RowUpToStamp => f.write_str(
                "a row of the increment is not above its stamp",
            ),
        }
    }
}

impl Error for AdvanceFault {}

/// Returns the checkpoint that an older one becomes by an increment: the increment's state, with the rows of both. If
/// the increment is of the store from which the older checkpoint is, then a store that is restored from the result
/// represents the same past as that store, but that its vacuums since the older checkpoint dropped nothing. So it
/// answers alike, and its next vacuum drops what those dropped.
///
/// Nothing goes back (`back`): an increment of an earlier state is refused with `NotLater`. One of the same state is
/// taken, also one that comes twice: it changes nothing.
///
/// Refused for the first reason of `AdvanceFault`; memory is needed only after the check. Both are moved, and lost if
/// it is refused. No row is copied; the rows are sorted.
pub fn advance(
    older: Checkpoint,
    increment: Increment,
) -> Result<Result<Checkpoint, AdvanceFault>, NoMemory>
    ensures ok { IfOk result (λ made. IfOk made (IsAdvanced older increment)) }
    ensures fitting { IfOk result (λ made. OnOk made (AreFitting older increment)) }
    ensures represents { (past more : List Step) (newer : StoreView) → Represents older past
        → Represents newer (more ++ past) → IsIncrementOf newer increment
        → IfOk result (λ made. IfOk made
        (λ whole. Represents whole (without_drops more ++ past))) }
    ensures chained { (past mid more : List Step) (newer : StoreView)
        → Represents older (without_drops mid ++ past)
        → Represents newer (more ++ (mid ++ past)) → IsIncrementOf newer increment
        → IfOk result (λ made. IfOk made
        (λ whole. Represents whole (without_drops more ++ (without_drops mid ++ past)))) }
    ensures back { (past mid more : List Step) (earlier : StoreView)
        → Represents older (more ++ (without_drops mid ++ past)) → Represents earlier (mid ++ past)
        → IsIncrementOf earlier increment → IfOk result (λ made. IfOk made
        (λ whole. Represents whole (more ++ (without_drops mid ++ past)))) }
    ensures only { (past more : List Step) (newer : StoreView) → Represents older past
        → IsCheckpoint older → Represents newer (more ++ past)
        → IsIncrementOf newer increment → IsCheckpoint increment.state
        → IfOk result (λ made. OnErr made (floor past < increment.since)) }
    ensures err { IfOk result (λ made. IfErr made (IsReason older increment)) }
    ensures memory { OnErr result (AreFitting older increment) }
{
    if let Some(fault) = reason_against(&older, &increment) {
        return Ok(Err(fault));
    }
    let (since, state) = increment.into_parts();
    let (nodes, last_id, horizon) = (state.initial_nodes(), state.last_id(), state.horizon());
    let (_, _, lower) = older.into_lists();
    let (links, snapshots, upper) = state.into_lists();
    let rows = merged(lower, since, upper)?;
    Ok(Ok(Checkpoint::of(nodes, links, snapshots, last_id, horizon, rows)))
}

/// Returns the first reason against an increment of a checkpoint, or none.
fn reason_against(older: &Checkpoint, increment: &Increment) -> Option<AdvanceFault>
    ensures some { IfSome result (IsReason older.now increment.now) }
    ensures none { result ≡ None → AreFitting older.now increment.now }
{
    let state = increment.state();
    if let Some(fault) = older.fault() {
        return Some(AdvanceFault::Parts(fault));
    }
    if let Some(fault) = state.fault() {
        return Some(AdvanceFault::Parts(fault));
    }
    if !may_be_later(older, state) {
        return Some(AdvanceFault::NotLater);
    }
    let floor = older.floor();
    if increment.since() > floor {
        return Some(AdvanceFault::AboveFloor { floor });
    }
    let horizon = state.horizon();
    if increment.since() < horizon {
        return Some(AdvanceFault::BelowHorizon { horizon });
    }
    if !are_above(increment.since(), state.rows()) {
        return Some(AdvanceFault::RowUpToStamp);
    }
    None
}

/// Returns whether all rows are above a stamp.
fn are_above(since: Stamp, rows: &[Row]) -> bool
    ensures { IsTrue result ↔ All (λ row. since < row.stamp) rows.now }
{
    for row in rows {
        if row.stamp <= since {
            return false;
        }
    }
    true
}

/// Returns the rows of one list up to a stamp, and all of the other, which are above it, by key, stamp and node.
fn merged(lower: Vec<Row>, since: Stamp, upper: Vec<Row>) -> Result<Vec<Row>, NoMemory>
    requires lower { RowsAscend lower.items }
    requires upper { RowsAscend upper.items }
    requires above { All (λ row. since < row.stamp) upper.items }
    ensures rows { IfOk result
        (λ rows. IsPermutation (rows_to since lower.items ++ upper.items) rows.items) }
    ensures ascend { IfOk result (λ rows. RowsAscend rows.items) }
{
    let mut rows = lower;
    let mut upper = upper;
    keep_up_to(&mut rows, since);
    rows.append(&mut upper)?;
    sort(&mut rows);
    Ok(rows)
}

/// Keeps the rows up to a stamp, in their order.
fn keep_up_to(rows: &mut Vec<Row>, since: Stamp)
    ensures { rows.new.items ≡ rows_to since rows.old.items }
{
    rows.retain(|row| row.stamp <= since);
}
