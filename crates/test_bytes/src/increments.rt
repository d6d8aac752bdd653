//! The small caller in the README of `hlc_increment`.
ghost use Rattle.std.specs.Prelude.{◌++◌, List, IfSome};
ghost use Rattle.hlc_core.specs.{Past.Step, StoreView.Represents};
ghost use Rattle.hlc_increment.specs.Increment.{without_drops};

use hlc_core::{Checkpoint, Core};
use hlc_increment::{Increment, advance};

/// Returns the checkpoint that an older one becomes by an increment of a store, whose floor it had.
pub(crate) fn next(core: &Core, older: Checkpoint) -> Option<Checkpoint>
    ensures { (past more : List Step) → Represents older past → Represents core.now (more ++ past)
        → IfSome result (λ made. Represents made (without_drops more ++ past)) }
{
    let Ok(increment) = Increment::of(core, older.floor()) else {
        return None;
    };
    match advance(older, increment) {
        Ok(Ok(made)) => Some(made),
        _ => None,
    }
}
