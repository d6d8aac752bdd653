//! Two checkpoints joined into one.
ghost use Rattle.std.specs.Prelude.{◌≡◌, ◌++◌, ◌∷◌, ◌↔◌, not, true, All, IfOk, IfErr, OnOk, OnErr, IsTrue, ℕ, Bool};
ghost use Rattle.std.specs.Prelude.{List, if◌then◌else◌};
ghost use Rattle.hlc_rows.specs.Rows.{answer};
ghost use Rattle.hlc_checkpoint.specs.Checkpoint.{IsCheckpoint};
ghost use Rattle.hlc_core.specs.{Past.Step, Past.PartVacuumed, Past.IsLegal, StoreView.with_rows, StoreView.Represents};
ghost use Rattle.hlc_split.specs.{Split.RepresentsPart, Split.is_under, Split.is_from, OwnPast.IsOwnPast};
ghost use Rattle.hlc_split.specs.Merge.{AreDivided, AreJoinable, HaveSameLinks, HaveSameSnapshots, IsReason};
ghost use Rattle.hlc_split.specs.Merge.{is_of_left, merge_code};

use crate::halves::is_under;
use hlc_checkpoint::Checkpoint;
use hlc_intake::Intake;
use hlc_node::Row;
use hlc_snapshot::Snapshot;
use hlc_values::NoMemory;
use std::error::Error;
use std::fmt;

/// Why two checkpoints are not joined, in the order in which the reasons are checked.
#[derive(Clone, Copy, PartialEq, Eq, Debug)]
pub enum MergeFault {
    /// The numbers of nodes at the start differ, or the links do: one has taken items that the other has not.
    LinksDiffer,
    /// The open snapshots differ, or the last ids.
    SnapshotsDiffer,
    /// The horizons differ.
    HorizonsDiffer,
    /// A key of the left one is not below the first key of the right one, or a key of the right one is.
    KeysOverlap,
}

impl MergeFault {
    /// Returns the number of the reason in outputs: 1 to 4, in the order of the variants.
    pub fn code(self) -> u32
        ensures { result ≡ merge_code self }
    {
        match self {
            MergeFault::LinksDiffer => 1,
            MergeFault::SnapshotsDiffer => 2,
            MergeFault::HorizonsDiffer => 3,
            MergeFault::KeysOverlap => 4,
        }
    }
}

impl fmt::Display for MergeFault {
    ghost use Rattle.std.specs.Prelude.{Some};
    ghost use Rattle.hlc_split.specs.Merge.{merge_text};

    ghost output = { λ fault. Some (merge_text fault) };

    fn fmt<W: fmt::Write>(&self, f: &mut fmt::Formatter<W>) -> fmt::Result {
        f.write_str(match self {
            MergeFault::LinksDiffer => "the links differ",
            MergeFault::SnapshotsDiffer => "the open snapshots differ",
            MergeFault::HorizonsDiffer => "the horizons differ",
            MergeFault::KeysOverlap => "the keys of the left are not all below those of the right",
        })
    }
}

impl Error for MergeFault {}

/// Joins two checkpoints, of which the left one has the lower keys: the state of both, with the rows of the left one
/// before those of the right one. Whatever each of them took, the result answers each key as the one that it is of, at
/// each stamp, and is a checkpoint if both are: a store that is restored from it represents a past that begins with it.
///
/// If both represent their parts of one past, the result represents all of it, and its vacuums are parts of one. If
/// they were parts and went on, each vacuumed when it chose but to one stamp in the end, it represents what both took,
/// vacuumed to that stamp.
///
/// Refused for the first reason of `MergeFault`; memory is needed only after the check. Both are moved, and lost if it
/// is refused. It looks at each link, each open snapshot and each row once, and copies no row.
#[tactic(auto, using(crate::proofs::Joined::merged_represents))]
pub fn merge(
    left: Checkpoint,
    right: Checkpoint,
) -> Result<Result<Checkpoint, MergeFault>, NoMemory>
    ensures ok { IfOk result (λ made. IfOk made
        (λ whole. whole ≡ with_rows left (left.rows ++ right.rows))) }
    ensures answers { (key : List ℕ) (stamp : ℕ) → IfOk result (λ made. IfOk made
        (λ whole. answer whole.rows key stamp
        ≡ (if is_of_left right.rows key then answer left.rows key stamp else answer right.rows key stamp))) }
    ensures checkpoint { IsCheckpoint left → IsCheckpoint right
        → IfOk result (λ made. IfOk made IsCheckpoint) }
    ensures represents { (past : List Step) (is_of : List ℕ → Bool) → IsLegal past
        → RepresentsPart is_of left past → RepresentsPart (λ key. not (is_of key)) right past
        → IfOk result (λ made. IfOk made (λ whole. RepresentsPart (λ _. true) whole past)) }
    ensures vacuumed { (past own_left own_right : List Step) (is_of : List ℕ → Bool)
        → IsLegal past → IsOwnPast is_of past own_left
        → IsOwnPast (λ key. not (is_of key)) past own_right
        → Represents left own_left → Represents right own_right
        → IfOk result (λ made. IfOk made
        (λ whole. RepresentsPart (λ _. true) whole (PartVacuumed left.horizon 0 ∷ past))) }
    ensures joinable { IfOk result (λ made. OnOk made (AreJoinable left right)) }
    ensures err { IfOk result (λ made. IfErr made (IsReason left right)) }
    ensures memory { OnErr result (AreJoinable left right) }
{
    if !have_same_links(&left, &right) {
        return Ok(Err(MergeFault::LinksDiffer));
    }
    if !have_same_snapshots(&left, &right) {
        return Ok(Err(MergeFault::SnapshotsDiffer));
    }
    if left.horizon() != right.horizon() {
        return Ok(Err(MergeFault::HorizonsDiffer));
    }
    if !are_divided(left.rows(), right.rows()) {
        return Ok(Err(MergeFault::KeysOverlap));
    }
    let (nodes, last_id, horizon) = (left.initial_nodes(), left.last_id(), left.horizon());
    let (links, snapshots, lower) = left.into_lists();
    let (_, _, upper) = right.into_lists();
    let rows = joined(lower, upper)?;
    Ok(Ok(Checkpoint::of(nodes, links, snapshots, last_id, horizon, rows)))
}

/// Returns whether both have as many nodes at the start, and the same progress of each link.
fn have_same_links(left: &Checkpoint, right: &Checkpoint) -> bool
    ensures { IsTrue result ↔ HaveSameLinks left.now right.now }
{
    left.initial_nodes() == right.initial_nodes() && are_same_links(left.links(), right.links())
}

/// Returns whether both have the same open snapshots, and the same last id.
fn have_same_snapshots(left: &Checkpoint, right: &Checkpoint) -> bool
    ensures { IsTrue result ↔ HaveSameSnapshots left.now right.now }
{
    left.last_id() == right.last_id() && are_same_snapshots(left.snapshots(), right.snapshots())
}

/// Returns whether both lists have the same links.
fn are_same_links(left: &[Intake], right: &[Intake]) -> bool
    ensures { IsTrue result ↔ (left.now ≡ right.now) }
{
    left == right
}

/// Returns whether both lists have the same snapshots.
fn are_same_snapshots(left: &[Snapshot], right: &[Snapshot]) -> bool
    ensures { IsTrue result ↔ (left.now ≡ right.now) }
{
    left == right
}

/// Returns whether the keys of the one list are below the first key of the other, and no key of the other is.
fn are_divided(left: &[Row], right: &[Row]) -> bool
    ensures { IsTrue result ↔ AreDivided left.now right.now }
{
    match right.first() {
        None => true,
        Some(first) => {
            let bound = first.key.as_slice();
            are_under(left, bound) && are_from(right, bound)
        }
    }
}

/// Returns whether all keys of the rows are below another.
fn are_under(rows: &[Row], bound: &[u8]) -> bool
    ensures { IsTrue result ↔ All (λ row. is_under bound.now row.key ≡ true) rows.now }
{
    for row in rows {
        if !is_under(row.key.as_slice(), bound) {
            return false;
        }
    }
    true
}

/// Returns whether no key of the rows is below another.
fn are_from(rows: &[Row], bound: &[u8]) -> bool
    ensures { IsTrue result ↔ All (λ row. is_from bound.now row.key ≡ true) rows.now }
{
    for row in rows {
        if is_under(row.key.as_slice(), bound) {
            return false;
        }
    }
    true
}

/// Returns the rows of one list before those of the other.
fn joined(lower: Vec<Row>, upper: Vec<Row>) -> Result<Vec<Row>, NoMemory>
    ensures { IfOk result (λ rows. rows.items ≡ lower.items ++ upper.items) }
{
    let mut rows = lower;
    let mut upper = upper;
    rows.append(&mut upper)?;
    Ok(rows)
}
