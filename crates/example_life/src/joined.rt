//! The two ranges as one store again, at their cut.
ghost use Rattle.std.specs.Prelude.{◌≡◌, ◌++◌, ℕ, List, IfOk};
ghost use Rattle.hlc.specs.{Node.Row as ARow, Ranges.MachineView};
ghost use Rattle.hlc_intake.specs.IntakeView.{IntakeView};
ghost use Rattle.example_life.specs.Life.{AnswersAs, HaveGoneOn, further, with_links};

use crate::stopped::Stopped;
use hlc::ranges::{Ranges, keys_stay_in_their_store, merge};
use hlc::{Checkpoint, Stamp};
use hlc_intake::Intake;
use std::alloc::Global;

/// Takes the checkpoints of both ranges, and joins them into one, which answers each key as all that was written, up to
/// the cut of both. Returns that cut too.
///
/// The machines have written their last: each link goes on from the further of the two that it was, so that no number
/// and no stamp is used again.
pub fn joined(alloc: Global, ranges: &Ranges) -> Result<(Checkpoint, Stamp), Stopped>
    ensures { (rows : List ARow) (bound : List ℕ) (written : List ARow) (machine : MachineView)
        → HaveGoneOn rows bound written ranges.now machine
        → IfOk result (λ made. AnswersAs made.0 made.1 (rows ++ written)) }
{
    keys_stay_in_their_store();
    let cut = ranges.cut();
    let [low, high] = ranges.stores() else {
        return Err(Stopped::NotJoined);
    };
    let (left, right) = alike(alloc, low.checkpoint()?, high.checkpoint()?)?;
    match merge(left, right) {
        Ok(Ok(whole)) => Ok((whole, cut)),
        _ => Err(Stopped::NotJoined),
    }
}

/// Returns both checkpoints with the same links: each as far as the further one, as if reports had brought the other
/// there.
fn alike(
    alloc: Global,
    left: Checkpoint,
    right: Checkpoint,
) -> Result<(Checkpoint, Checkpoint), Stopped>
    ensures { IfOk result (λ made. (links : List IntakeView)
        × (made.0 ≡ with_links left links) × (made.1 ≡ with_links right links)) }
{
    let mut links = Vec::new(alloc);
    for (a, b) in left.links().iter().zip(right.links()) {
        links.push(further(a, b))?;
    }
    let same = Vec::from_slice(alloc, links.as_slice())?;
    Ok((with_links(left, links), with_links(right, same)))
}

/// Returns the link that is as far as the further of two.
fn further(a: &Intake, b: &Intake) -> Intake
    ensures { result ≡ further a.now b.now }
{
    Intake::resuming(
        a.next().max(b.next()),
        a.head().max(b.head()),
        a.retired() || b.retired(),
    )
}

/// Returns the checkpoint with these links.
fn with_links(kept: Checkpoint, links: Vec<Intake>) -> Checkpoint
    ensures { result ≡ with_links kept links.items }
{
    let (nodes, last_id, horizon) = (kept.initial_nodes(), kept.last_id(), kept.horizon());
    let (_, snapshots, rows) = kept.into_lists();
    Checkpoint::of(nodes, links, snapshots, last_id, horizon, rows)
}
