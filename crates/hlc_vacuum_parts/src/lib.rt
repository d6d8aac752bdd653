//! The laws of vacuums of a store, and what the parts of a vacuum are together.
#![tactic(auto)]

ghost use Rattle.std.specs.Prelude.{ℕ, ◌≤◌, List, [], length};
ghost use Rattle.hlc_table_column.specs.Rows.{rows_to};
ghost use Rattle.hlc_core.specs.Past.{Step};
ghost use Rattle.hlc_core.specs.StoreView.{StoreView, Represents};
ghost use Rattle.hlc_core.specs.Calls.{Vacuums};
ghost use Rattle.hlc_core.specs.GoneOn.{HasGoneOn};
ghost use Rattle.hlc_vacuum_parts.specs.Pass.{Part, ArePass, left_by, report_of};
ghost use Rattle.hlc_vacuum_parts.specs.Between.{MadePart, ArePassWithCalls, left_last, kept_by};

mod laws;

pub use laws::{
    a_vacuum_is_one_to_the_floor, parts_keep_representing, there_is_one_report,
    vacuums_keep_representing, vacuums_leave_a_certificate, vacuums_leave_the_fewest,
};

/// The parts of a vacuum to a stamp, one after another with nothing in between, are together a vacuum to the stamp: the
/// last of them leaves a store that represents the past with that vacuum, the rows at or below the stamp are the fewest
/// and the cheapest against all accepted writes, and the sums of the parts' reports are the expected report.
pub fn parts_are_a_vacuum()
    ensures { (old : StoreView) (at : ℕ) (past : List Step) (part : Part) (parts : List Part)
        → Represents old past → ArePass old at [] past part parts
        → Vacuums (left_by part parts) at past (report_of part parts) }
{}

/// After parts to one stamp, each above the key where the one before it ended, and with any calls between them and
/// after them, no more rows are left at or below the stamp than the parts kept: of the keys of each as many as the
/// changes of all writes that were accepted by then, at the snapshots that were open then and at the stamp.
pub fn a_pass_leaves_no_more()
    ensures { (at : ℕ) (part : MadePart) (parts : List MadePart) (last : StoreView) (past : List Step)
        → ArePassWithCalls at [] part parts → HasGoneOn (left_last part parts) last → Represents last past
        → length (rows_to at last.rows) ≤ kept_by part parts }
{}
