//! What the nodes of a storm write, and how.
ghost use Rattle.std.specs.Prelude.{◌≡◌, ◌+◌, ◌<◌, [], ◌∷◌, ◌++◌, false, true, IfOk, map};
ghost use Rattle.std.specs.List.{range_with_len};
ghost use Rattle.hlc_storm.specs.Written.{key_text, value_text, write_item, report_item, write_items, items_of};
ghost use Rattle.hlc_storm.specs.Written.{after_writes};

use hlc_core::{Bytes, Stamp};
use hlc_link::LinkSender;
use hlc_node::{Item, NodeCore};
use hlc_values::NoMemory;
use hlc_words::StormPlan;
use std::alloc::Global;
use std::sync::Wait;

/// Why a writer gave up.
#[derive(Clone, Copy, Debug, PartialEq, Eq)]
pub enum WriteFault {
    NoMemory,
    /// The node issued no item, or the link is closed.
    Stopped,
}

impl From<NoMemory> for WriteFault {
    ghost use Rattle.std.specs.Prelude.{◌≡◌};
    ghost use Rattle.hlc_storm.specs.declared.writing.WriteFault.{WriteFault};

    ghost from_gives = { λ shortage fault. fault ≡ WriteFault.NoMemory };

    fn from(_error: NoMemory) -> WriteFault {
        WriteFault::NoMemory
    }
}

/// Returns the key of this number.
fn key_of(alloc: Global, number: u64) -> Result<Bytes, NoMemory>
    ensures { IfOk result (λ key. key ≡ key_text number) }
{
    let text = format!(in alloc; "k{number}")?;
    Bytes::from_slice(alloc, text.as_bytes())
}

/// Returns all keys of a storm.
pub(crate) fn all_keys(alloc: Global, plan: &StormPlan) -> Result<Vec<Bytes>, NoMemory>
    ensures { IfOk result (λ keys. keys.items ≡ map key_text (range_with_len 0 plan.now.keys)) }
{
    let mut keys = Vec::with_capacity(alloc, plan.keys as usize)?;
    for number in 0..plan.keys {
        let key = key_of(alloc, number)?;
        keys.push(key)?;
    }
    Ok(keys)
}

/// Returns the value of a node's write of this number.
fn value_of(alloc: Global, node: u16, number: u64) -> Result<Bytes, NoMemory>
    ensures { IfOk result (λ value. value ≡ value_text node number) }
{
    let text = format!(in alloc; "{node}.{number}")?;
    Bytes::from_slice(alloc, text.as_bytes())
}

/// Runs the writer of a node: puts all its items on a new link, and then the end. The sending end is dropped in its
/// thread.
pub(crate) fn write_link<R: Wait>(
    rt: &R,
    alloc: Global,
    sender: LinkSender,
    node: u16,
    plan: StormPlan,
) -> Result<(), WriteFault>
    requires { (sender.put ≡ []) × (sender.ended ≡ false) }
{
    let mut sender = sender;
    write_all(rt, alloc, &mut sender, node, &plan)
}

/// Issues the writes of a node, and puts each on its link; then a report, and then the end of the link. The write of
/// number j, from 0, is made at reading j + 1, and the report at the reading after the last write's.
///
/// Nothing was put before, not even the end. It returns `Stopped` where the link is closed: what was put before stays
/// there.
pub(crate) fn write_all<R: Wait>(
    rt: &R,
    alloc: Global,
    sender: &mut LinkSender,
    node: u16,
    plan: &StormPlan,
) -> Result<(), WriteFault>
    requires { (sender.old.put ≡ []) × (sender.old.ended ≡ false) }
    ensures { IfOk result
        (λ _. (sender.new.put ≡ items_of plan.now node) × (sender.new.ended ≡ true)) }
{
    let mut core = NodeCore::new(node, Stamp::from_bits(0));
    put_writes(rt, alloc, sender, &mut core, node, plan)?;
    let report = report_of(&mut core, node, plan)?;
    put(rt, sender, report)?;
    if sender.put_end(rt).is_err() {
        return Err(WriteFault::Stopped);
    }
    Ok(())
}

/// Issues the writes of a node, and puts each on its link.
fn put_writes<R: Wait>(
    rt: &R,
    alloc: Global,
    sender: &mut LinkSender,
    core: &mut NodeCore,
    node: u16,
    plan: &StormPlan,
) -> Result<(), WriteFault>
    requires link { (sender.old.put ≡ []) × (sender.old.ended ≡ false) }
    requires core { core.old ≡ after_writes node 0 }
    ensures put { IfOk result (λ _. (sender.new.put ≡ write_items plan.now.keys node plan.now.writes)
        × (sender.new.ended ≡ false)) }
    ensures core { IfOk result (λ _. core.new ≡ after_writes node plan.now.writes) }
{
    for number in 0..plan.writes {
        let write = write_of(alloc, core, node, plan, number)?;
        put(rt, sender, write)?;
    }
    Ok(())
}

/// Issues the write of this number.
fn write_of(
    alloc: Global,
    core: &mut NodeCore,
    node: u16,
    plan: &StormPlan,
    number: u64,
) -> Result<Item, WriteFault>
    requires number { number < 1000 }
    requires core { core.old ≡ after_writes node number }
    ensures item { IfOk result (λ item. item ≡ write_item plan.now.keys node number) }
    ensures core { IfOk result (λ _. core.new ≡ after_writes node (number + 1)) }
{
    let key = key_of(alloc, number % plan.keys)?;
    let value = value_of(alloc, node, number)?;
    match core.write(number + 1, key, Some(value)) {
        Ok(item) => Ok(item),
        Err(_) => Err(WriteFault::Stopped),
    }
}

/// Issues the report after all writes.
fn report_of(core: &mut NodeCore, node: u16, plan: &StormPlan) -> Result<Item, WriteFault>
    requires { core.old ≡ after_writes node plan.now.writes }
    ensures { IfOk result (λ item. item ≡ report_item node plan.now.writes) }
{
    match core.report(plan.writes + 1) {
        Ok(report) => Ok(report),
        Err(_) => Err(WriteFault::Stopped),
    }
}

/// Puts an item on its link.
fn put<R: Wait>(rt: &R, sender: &mut LinkSender, item: Item) -> Result<(), WriteFault>
    ensures { IfOk result
        (λ _. (sender.new.put ≡ sender.old.put ++ item ∷ []) × (sender.new.ended ≡ sender.old.ended)) }
{
    match sender.put(rt, item) {
        Ok(()) => Ok(()),
        Err(_) => Err(WriteFault::Stopped),
    }
}
