//! How the items of a machine reach the ranges, and how a node joins them.
ghost use Rattle.std.specs.Prelude.{◌≡◌, [], ◌∷◌, ◌++◌, ℕ, List, IfOk};
ghost use Rattle.hlc.specs.{Node.Row as ARow, Ranges.MachineView};
ghost use Rattle.example_life.specs.Life.{IsRowOf, HaveGoneOn};

use crate::stopped::Stopped;
use hlc::ranges::{Machine, Ranges, events_keep_stores, steps_keep_machines};
use hlc::{Stamp, Write};
use std::alloc::Global;

/// Lets the machine write or delete a key, and delivers the item to the range of the key. Returns the stamp.
pub fn write_key(
    ranges: &mut Ranges,
    machine: &mut Machine,
    reading: u64,
    write: Write,
) -> Result<Stamp, Stopped>
    ensures { (rows : List ARow) (bound : List ℕ) (written : List ARow)
        → HaveGoneOn rows bound written ranges.old machine.old
        → IfOk result (λ stamp. (row : ARow) × IsRowOf write row × (row.stamp ≡ stamp)
        × HaveGoneOn rows bound (written ++ row ∷ []) ranges.new machine.new) }
{
    events_keep_stores();
    steps_keep_machines();
    let (store, item) = machine.write(ranges.division(), reading, write.key, write.value)?;
    let stamp = item.stamp;
    ranges.accept(store, item)?;
    Ok(stamp)
}

/// Lets the machine report to a range, so that the floor (closed timestamp) there may rise.
pub fn report(
    ranges: &mut Ranges,
    machine: &mut Machine,
    store: usize,
    reading: u64,
) -> Result<(), Stopped>
    ensures { (rows : List ARow) (bound : List ℕ) (written : List ARow)
        → HaveGoneOn rows bound written ranges.old machine.old
        → IfOk result (λ _. HaveGoneOn rows bound written ranges.new machine.new) }
{
    events_keep_stores();
    steps_keep_machines();
    let item = machine.report(store, reading)?;
    ranges.accept(store, item)?;
    Ok(())
}

/// Lets one more node join both ranges, each at its floor.
pub fn join(alloc: Global, ranges: &mut Ranges) -> Result<Vec<(u16, Stamp)>, Stopped>
    ensures { (rows : List ARow) (bound : List ℕ) (written : List ARow) (machine : MachineView)
        → HaveGoneOn rows bound written ranges.old machine
        → IfOk result (λ _. HaveGoneOn rows bound written ranges.new machine) }
{
    steps_keep_machines();
    match ranges.join(alloc) {
        Ok(made) => Ok(made),
        Err(_) => Err(Stopped::Refused),
    }
}
