//! What keeps a store's answers elsewhere: an increment over an older checkpoint, and recovery from a log.
ghost use Rattle.std.specs.Prelude.{◌≡◌, ◌+◌, ◌≤◌, [], ◌∷◌, ◌++◌, ℕ, List, IfOk, None as none, option_copied};
ghost use Rattle.hlc.specs.Node.{Row as ARow, Item as AnItem, Write as a_write, answer};
ghost use Rattle.hlc.specs.Store.{Step, Took, Opened, Closed, Represents, floor, horizon, last_id, writes};
ghost use Rattle.hlc.specs.Store.{without_drops};
ghost use Rattle.hlc_saved.specs.Saved.{BytesRepresent};
ghost use Rattle.hlc_log.specs.{Log.AreApplied, Record.record_bytes, Record.RecordFits};
ghost use Rattle.hlc_log.specs.declared.{record.Record.Record as ARecord, apply.Applied.Applied as AnApplied};
ghost use Rattle.example_life.specs.Life.{AreCopies, HasGrown, IsRowOf};

use crate::begin::{restored, writer};
use crate::stopped::Stopped;
use hlc::bytes::save;
use hlc::log::{
    Increment, Record, advance, encode_record, recover, recovered_stores_answer_as_replicas,
};
use hlc::{Bytes, Checkpoint, Core, NoMemory, NodeCore, Stamp, Write, each_checkpoint_has_a_past};
use std::alloc::Global;

/// Lets a node write to a store, and appends the item to the log that replicas of the store share.
pub fn write_logged(
    alloc: Global,
    core: &mut Core,
    log: &mut Vec<u8>,
    node: &mut NodeCore,
    reading: u64,
    write: Write,
) -> Result<(), Stopped>
    ensures { (past : List Step) → Represents core.old past → IfOk result (λ _. (item : AnItem)
        × (item.body ≡ a_write write.key write.value) × RecordFits (ARecord.Item item)
        × (log.new.items ≡ log.old.items ++ record_bytes (ARecord.Item item))
        × Represents core.new (Took item ∷ past)) }
{
    let Ok(item) = node.write(reading, write.key, write.value) else {
        return Err(Stopped::Refused);
    };
    let Ok(_) = core.accept_copy(&item) else {
        return Err(Stopped::Refused);
    };
    let Ok(bytes) = encode_record(alloc, &Record::Item(item)) else {
        return Err(Stopped::NoMemory);
    };
    match log.extend_from_slice(bytes.as_slice()) {
        Ok(()) => Ok(()),
        Err(_) => Err(Stopped::NoMemory),
    }
}

/// Returns the checkpoint that an older one becomes by an increment of the store, which had that state.
pub fn advanced(core: &Core, older: Checkpoint) -> Result<Checkpoint, Stopped>
    ensures { (past more : List Step) → Represents older past → Represents core.now (more ++ past)
        → IfOk result (λ made. Represents made (without_drops more ++ past)) }
{
    let Ok(increment) = Increment::of(core, older.floor()) else {
        return Err(Stopped::NotLater);
    };
    match advance(older, increment) {
        Ok(Ok(made)) => Ok(made),
        _ => Err(Stopped::NotLater),
    }
}

/// Makes a store from a checkpoint and all of a log, which may begin at any place before the checkpoint's.
pub fn recovered(alloc: Global, checkpoint: &[u8], log: &[u8]) -> Result<Core, Stopped>
    ensures { (tag : ℕ) (past : List Step) → BytesRepresent checkpoint.now tag past
        → IfOk result (λ core. (applied : AnApplied) × (applied.end ≡ none)
        × AreApplied core log.now past 0 applied) }
{
    let Ok(made) = recover(alloc, checkpoint, log) else {
        return Err(Stopped::NoCheckpoint);
    };
    match made.applied.end {
        Some(_) => Err(Stopped::NotLater),
        None => Ok(made.core),
    }
}

/// Reads a key at a stamp, in a snapshot that is open for that long.
pub fn read(alloc: Global, core: &mut Core, at: Stamp, key: &[u8]) -> Result<Option<Bytes>, Stopped>
    ensures { (past : List Step) → Represents core.old past → IfOk result (λ value.
        (horizon past ≤ at) × (at ≤ floor past) × (value ≡ answer (writes past) key.now at)
        × Represents core.new (Closed (last_id past + 1) ∷ (Opened at ∷ past))) }
{
    let Ok(id) = core.open(at) else {
        return Err(Stopped::NotReadable);
    };
    let value = match core.read(id, key) {
        Ok(value) => copied(alloc, value)?,
        Err(_) => return Err(Stopped::NotReadable),
    };
    match core.close(id) {
        Ok(_) => Ok(value),
        Err(_) => Err(Stopped::NotReadable),
    }
}

/// Returns a copy of a value, if there is one.
fn copied(alloc: Global, value: Option<&[u8]>) -> Result<Option<Bytes>, NoMemory>
    ensures { IfOk result (λ copy. copy ≡ option_copied value.entry) }
{
    match value {
        None => Ok(None),
        Some(bytes) => Ok(Some(Bytes::from_slice(alloc, bytes)?)),
    }
}

/// Makes a store of a checkpoint, and lets a node write to it twice. Returns the store, a checkpoint of it from before
/// both writes, the bytes of one from between them, and a log of both.
fn grown(
    alloc: Global,
    whole: Checkpoint,
    number: u16,
    reading: u64,
    later: (Write, Write),
) -> Result<(Core, Checkpoint, Vec<u8>, Vec<u8>), Stopped>
    ensures { IfOk result (λ made. (one two : AnItem)
        × (one.body ≡ a_write later.0.key later.0.value)
        × (two.body ≡ a_write later.1.key later.1.value)
        × HasGrown whole made.0 made.1 made.2.items made.3.items one two) }
{
    each_checkpoint_has_a_past();
    let mut core = restored(alloc, whole)?;
    let mut node = writer(core.links(), number)?;
    let mut log = Vec::new(alloc);
    let older = core.checkpoint()?;
    write_logged(alloc, &mut core, &mut log, &mut node, reading, later.0)?;
    let saved = save(alloc, &core, 1)?;
    write_logged(alloc, &mut core, &mut log, &mut node, reading, later.1)?;
    Ok((core, older, saved, log))
}

/// Makes two more stores of what a store that writes twice has saved: one from the checkpoint before both writes and an
/// increment, one from the checkpoint between them and all of the log.
pub fn to_replicas(
    alloc: Global,
    whole: Checkpoint,
    number: u16,
    reading: u64,
    later: (Write, Write),
) -> Result<(Core, Core), Stopped>
    ensures { IfOk result (λ made. (one two : ARow) × IsRowOf later.0 one × IsRowOf later.1 two
        × AreCopies whole (one ∷ (two ∷ [])) made.0 made.1) }
{
    recovered_stores_answer_as_replicas();
    let (core, older, saved, log) = grown(alloc, whole, number, reading, later)?;
    let one = restored(alloc, advanced(&core, older)?)?;
    let other = recovered(alloc, saved.as_slice(), log.as_slice())?;
    Ok((one, other))
}
