//! How the items of a node reach the store: the node stamps an item, and the store accepts it over the node's link. In
//! a database a replicated log between the two stores the items.
ghost use Rattle.std.specs.Prelude.{List, IfOk, Some};
ghost use Rattle.hlc.specs.{Node.Write as a_write, Node.Report as a_report, Store.Step, Store.Represents};
ghost use Rattle.example_embed.specs.Fed.{Feeds, RepresentsSome};

use crate::stopped::Stopped;
use hlc::{Bytes, Core, NodeCore, Stamp};

/// Lets a node write, and delivers the item.
#[tactic(auto, using(crate::proofs::Codes::code_of_refusal))]
pub(crate) fn write(
    core: &mut Core,
    node: &mut NodeCore,
    reading: u64,
    key: Bytes,
    value: Bytes,
) -> Result<Stamp, Stopped>
    ensures keeps { RepresentsSome core.old → IfOk result (λ _. RepresentsSome core.new) }
    ensures feeds { (past : List Step) → Represents core.old past
        → Feeds core.old core.new past node.old (a_write key (Some value)) reading result }
{
    let item = node.write(reading, key, Some(value))?;
    let stamp = item.stamp;
    core.accept(item)?;
    Ok(stamp)
}

/// Lets a node report how far its stamps have come, and delivers the item.
#[tactic(auto, using(crate::proofs::Codes::code_of_refusal))]
pub(crate) fn report(core: &mut Core, node: &mut NodeCore, reading: u64) -> Result<Stamp, Stopped>
    ensures keeps { RepresentsSome core.old → IfOk result (λ _. RepresentsSome core.new) }
    ensures feeds { (past : List Step) → Represents core.old past
        → Feeds core.old core.new past node.old a_report reading result }
{
    let item = node.report(reading)?;
    let stamp = item.stamp;
    core.accept(item)?;
    Ok(stamp)
}
