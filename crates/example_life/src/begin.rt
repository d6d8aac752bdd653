//! A store from bytes, and its halves as two ranges that a machine writes to.
ghost use Rattle.std.specs.Prelude.{◌≡◌, ℕ, [], ◌∷◌, List, IfOk};
ghost use Rattle.hlc.specs.{Ranges.ByKeys, Store.Step, Store.Began, Store.Represents};
ghost use Rattle.hlc_checkpoint.specs.Checkpoint.{IsCheckpoint};
ghost use Rattle.hlc_saved.specs.Saved.{AreOf};
ghost use Rattle.example_life.specs.Life.{GoesOnFrom, HaveGoneOn};

use crate::stopped::Stopped;
use hlc::bytes::decode_checkpoint;
use hlc::ranges::{
    Division, Machine, Ranges, first_machines_begin_a_run, parts_begin_ranges, split,
};
use hlc::{Bytes, Checkpoint, Core, NodeCore, each_checkpoint_has_a_past};
use hlc_intake::Intake;
use std::alloc::Global;

/// Reads a checkpoint from bytes, whoever wrote them.
pub fn decoded(alloc: Global, bytes: &[u8]) -> Result<Checkpoint, Stopped>
    ensures { IfOk result (λ kept. (tag : ℕ) × AreOf bytes.now tag kept) }
{
    let Ok(made) = decode_checkpoint(alloc, bytes) else {
        return Err(Stopped::NoCheckpoint);
    };
    match made.checkpoint.fault() {
        None => Ok(made.checkpoint),
        Some(_) => Err(Stopped::NoCheckpoint),
    }
}

/// Makes a store of a checkpoint. Its past begins with that state, or is any past that the checkpoint represents.
pub fn restored(alloc: Global, kept: Checkpoint) -> Result<Core, Stopped>
    ensures sound { IfOk result (λ _. IsCheckpoint kept) }
    ensures began { IfOk result (λ core. Represents core (Began kept ∷ [])) }
    ensures represents { (past : List Step) → Represents kept past
        → IfOk result (λ core. Represents core past) }
{
    each_checkpoint_has_a_past();
    match Core::from_checkpoint(alloc, kept) {
        Ok(Ok(core)) => Ok(core),
        _ => Err(Stopped::NoCheckpoint),
    }
}

/// Returns the node of this number, as it goes on from its link.
pub fn writer(links: &[Intake], number: u16) -> Result<NodeCore, Stopped>
    ensures { IfOk result (GoesOnFrom links.now number) }
{
    let Some(link) = links.get(number as usize) else {
        return Err(Stopped::NoNode);
    };
    if link.retired() {
        return Err(Stopped::NoNode);
    }
    match NodeCore::restore(number, link.head(), link.next()) {
        Some(node) => Ok(node),
        None => Err(Stopped::NoNode),
    }
}

/// Returns the division of the keys into those below a key, and the others.
fn divided_at(alloc: Global, bound: &[u8]) -> Result<Division, Stopped>
    ensures { IfOk result (λ division. division ≡ ByKeys (bound.now ∷ [])) }
{
    let mut boundaries = Vec::new(alloc);
    boundaries.push(Bytes::from_slice(alloc, bound)?)?;
    match Division::by_keys(boundaries) {
        Some(division) => Ok(division),
        None => Err(Stopped::NoMemory),
    }
}

/// Returns a machine with this node in both ranges.
fn machine_of(alloc: Global, node: NodeCore) -> Result<Machine, Stopped>
    ensures { IfOk result (λ machine. machine ≡ record { last = node.last; nodes = node ∷ node ∷ [] }) }
{
    let mut nodes = Vec::new(alloc);
    nodes.push(node)?;
    nodes.push(node)?;
    Ok(Machine::of(node.now(), nodes))
}

/// Divides a checkpoint at a key, and begins two ranges with the halves, and a machine with the node of this number in
/// both.
pub fn begin(
    alloc: Global,
    kept: Checkpoint,
    bound: &[u8],
    number: u16,
) -> Result<(Ranges, Machine), Stopped>
    ensures { IfOk result (λ made. HaveGoneOn kept.rows bound.now [] made.0 made.1) }
{
    parts_begin_ranges();
    first_machines_begin_a_run();
    let None = kept.fault() else {
        return Err(Stopped::NoCheckpoint);
    };
    let node = writer(kept.links(), number)?;
    let machine = machine_of(alloc, node)?;
    let (below, rest) = split(alloc, kept, bound)?;
    let mut stores = Vec::new(alloc);
    stores.push(restored(alloc, below)?)?;
    stores.push(restored(alloc, rest)?)?;
    match Ranges::of(divided_at(alloc, bound)?, stores) {
        Some(ranges) => Ok((ranges, machine)),
        None => Err(Stopped::NoMemory),
    }
}
