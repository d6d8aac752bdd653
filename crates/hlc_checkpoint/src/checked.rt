//! A checkpoint that was checked, with its rows in a table.
ghost use Rattle.std.specs.Prelude.{◌≡◌, MatchResult};
ghost use Rattle.hlc_checkpoint.specs.StoreView.{StoreView, with_rows};
ghost use Rattle.hlc_checkpoint.specs.Checkpoint.{IsCheckpoint, IsCopyOf, Restores};

use crate::checkpoint::{Checkpoint, RestoreFault};
use crate::restoring::{table_of, table_of_moved};
use hlc_columns::Table;
use hlc_values::NoMemory;
use std::alloc::Global;
use std::marker::Model;

/// A checkpoint that was checked, with its rows in a table: what a store is made of. In contracts it is the state of
/// that store.
#[derive(Debug, Drop)]
pub struct Checked {
    head: Checkpoint,
    table: Table,
}

impl Model for Checked {
    ghost use Rattle.hlc_checkpoint.specs.StoreView.{StoreView, with_rows};
    ghost use Rattle.hlc_checkpoint.specs.Checkpoint.{IsCheckpoint, IsCopyOf};

    ghost Value = { StoreView };

    ghost view = { λ checked. with_rows checked.head checked.table };

    ghost invariant = { λ checked. (kept : StoreView)
        × IsCheckpoint kept × IsCopyOf kept (with_rows checked.head checked.table) };
}

impl Checked {
    /// Checks a checkpoint, and copies its parts and its rows. Refused for the first reason of `RestoreFault`; memory
    /// is needed only after the check.
    pub fn copy_of(
        alloc: Global,
        checkpoint: &Checkpoint,
    ) -> Result<Result<Checked, RestoreFault>, NoMemory>
        ensures { MatchResult result (Restores checkpoint.now) (λ _. IsCheckpoint checkpoint.now) }
    {
        if let Some(fault) = checkpoint.fault() {
            return Ok(Err(fault));
        }
        let head = checkpoint.copy_head(alloc)?;
        let table = table_of(alloc, checkpoint.rows())?;
        Ok(Ok(Checked { head, table }))
    }

    /// Checks a checkpoint as `copy_of` does, and moves its parts and its rows. A refused checkpoint is lost.
    pub fn of(
        alloc: Global,
        checkpoint: Checkpoint,
    ) -> Result<Result<Checked, RestoreFault>, NoMemory>
        ensures { MatchResult result (Restores checkpoint) (λ _. IsCheckpoint checkpoint) }
    {
        if let Some(fault) = checkpoint.fault() {
            return Ok(Err(fault));
        }
        let (head, rows) = checkpoint.split(alloc);
        let table = table_of_moved(alloc, rows)?;
        Ok(Ok(Checked { head, table }))
    }

    /// Returns the checkpoint of parts and a table that were checked.
    pub(crate) fn grown(head: Checkpoint, table: Table) -> Checked
        requires { (kept : StoreView) × IsCheckpoint kept × IsCopyOf kept (with_rows head table) }
        ensures { result ≡ with_rows head table }
    {
        Checked { head, table }
    }

    /// Moves the parts out, without their rows, and the table of these.
    pub fn into_parts(self) -> (Checkpoint, Table)
        ensures same { with_rows result.0 result.1 ≡ self }
        ensures sound { (kept : StoreView) × IsCheckpoint kept × IsCopyOf kept self }
    {
        (self.head, self.table)
    }
}
