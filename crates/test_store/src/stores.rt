//! The small callers in the READMEs of `hlc_checkpoint` and `hlc_core`, each with what it may rely on.
ghost use Rattle.std.specs.Prelude.{◌≡◌, true, List, length, IfOk, IsOkAnd};
ghost use Rattle.hlc_checkpoint.specs.Checkpoint.{IsCheckpoint};
ghost use Rattle.hlc_vacuum_draft.specs.Vacuumed.{rows_to};
ghost use Rattle.hlc_core.specs.{Past.Step, Past.floor, StoreView.Represents};

use hlc_checkpoint::Checkpoint;
use hlc_core::{Core, NoMemory};
use hlc_witness::{NotShown, Shown, check};

/// Returns whether this is a checkpoint, so that a store is restored from it unless memory runs out.
pub(crate) fn is_checkpoint(checkpoint: &Checkpoint) -> bool
    ensures { result ≡ true → IsCheckpoint checkpoint.now }
{
    checkpoint.fault().is_none()
}

/// Vacuums a store, and checks by the report alone that the rows left up to its floor are the fewest, and the cheapest.
/// They always are.
pub(crate) fn vacuum_and_check(core: &mut Core) -> Result<Result<Shown, NotShown>, NoMemory>
    ensures { (past : List Step) → Represents core.old past → IfOk result
        (λ shown. IsOkAnd shown (λ least. least.rows ≡ length (rows_to (floor past) core.new.rows))) }
{
    let report = core.vacuum()?;
    let rows = core.rows_to(report.floor)?;
    let points = report.points.as_slice();
    let witnesses = report.witnesses.as_slice();
    Ok(check(rows.as_slice(), points, witnesses))
}
