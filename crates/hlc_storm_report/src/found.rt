//! What a storm found.
ghost use Rattle.std.specs.Prelude.{◌≡◌, ◌+◌, ◌∷◌, List, None, map, IfOk, IfErr};
ghost use Rattle.std.specs.List.{range_with_len};
ghost use Rattle.hlc_vacuum_draft.specs.declared.report.Report.{Report as AReport};
ghost use Rattle.hlc_core.specs.Past.{Step, Opened, Closed, count, floor, last_id, room_refusal, writes};
ghost use Rattle.hlc_core.specs.{Listing.IsListing, Stored.IsReport, StoreView.Represents};
ghost use Rattle.hlc_storm_report.specs.Found.{IsFoundIn};

use crate::report::{StormFault, StormReport};
use hlc_core::{Core, Listing, Stamp};
use hlc_words::StormPlan;
use std::alloc::Global;

/// Returns what the settled core contains; of a node that it does not have, that no item was accepted. Refused where it
/// runs out of memory, and where no more snapshot can be opened.
pub fn report_of(alloc: Global, core: Core, plan: StormPlan) -> Result<StormReport, StormFault>
    ensures found { IfOk result
        (λ report. (past : List Step) → Represents core past → IsFoundIn plan past report) }
    ensures room { IfOk result
        (λ _. (past : List Step) → Represents core past → room_refusal past ≡ None) }
    ensures memory { IfErr result (λ fault. fault ≡ StormFault.NoMemory) }
{
    let mut core = core;
    found_in(alloc, &mut core, plan)
}

/// Returns what a core contains, and vacuums it. Refused where it runs out of memory.
fn found_in(alloc: Global, core: &mut Core, plan: StormPlan) -> Result<StormReport, StormFault>
    ensures found { IfOk result
        (λ report. (past : List Step) → Represents core.old past → IsFoundIn plan past report) }
    ensures room { IfOk result
        (λ _. (past : List Step) → Represents core.old past → room_refusal past ≡ None) }
    ensures memory { IfErr result (λ fault. fault ≡ StormFault.NoMemory) }
{
    let accepted = counts_of(alloc, core, plan.nodes)?;
    let listed = listed_at_floor(core)?;
    let kept = kept_by_vacuum(core)?;
    let (floor, pairs) = listed;
    Ok(StormReport {
        accepted,
        floor,
        pairs,
        kept,
    })
}

/// Returns the floor, and the keys that have a value there. A snapshot is opened for that, and closed again.
fn listed_at_floor(core: &mut Core) -> Result<(Stamp, Listing), StormFault>
    ensures found { IfOk result
        (λ found. (past : List Step) → Represents core.old past
        → (found.0 ≡ floor past) × IsListing (writes past) found.0 found.1
        × Represents core.new (Closed (last_id past + 1) ∷ Opened found.0 ∷ past)) }
    ensures room { IfOk result
        (λ _. (past : List Step) → Represents core.old past → room_refusal past ≡ None) }
    ensures memory { IfErr result (λ fault. fault ≡ StormFault.NoMemory) }
{
    let Ok(opening) = core.open_floor() else {
        return Err(StormFault::NoMemory);
    };
    let (id, floor) = opening;
    let Ok(pairs) = core.list(id) else {
        return Err(StormFault::NoMemory);
    };
    let Ok(_) = core.close(id) else {
        return Err(StormFault::NoMemory);
    };
    Ok((floor, pairs))
}

/// Returns how many rows a vacuum to the floor keeps.
fn kept_by_vacuum(core: &mut Core) -> Result<u64, StormFault>
    ensures kept { IfOk result
        (λ kept. (past : List Step) → Represents core.old past
        → (report : AReport) × IsReport (floor past) past report × (kept ≡ report.kept)) }
    ensures memory { IfErr result (λ fault. fault ≡ StormFault.NoMemory) }
{
    match core.vacuum_counted() {
        Ok(numbers) => Ok(numbers.kept),
        Err(_) => Err(StormFault::NoMemory),
    }
}

/// Returns how many items of each of this many nodes the core accepted. Refused only where it runs out of memory.
fn counts_of(alloc: Global, core: &Core, count_of_nodes: u16) -> Result<Vec<u64>, StormFault>
    ensures counts { IfOk result (λ counts. (past : List Step) → Represents core.now past
        → counts.items ≡ map (λ node. count node past) (range_with_len 0 count_of_nodes)) }
    ensures memory { IfErr result (λ fault. fault ≡ StormFault.NoMemory) }
{
    let mut counts = Vec::new(alloc);
    for node in 0..count_of_nodes {
        let number = accepted_of(core, node);
        if counts.reserve(1).is_err() {
            return Err(StormFault::NoMemory);
        }
        counts.push_reserved(number);
    }
    Ok(counts)
}

/// Returns how many items of a node the core accepted: none of a node that it does not have.
fn accepted_of(core: &Core, node: u16) -> u64
    ensures { (past : List Step) → Represents core.now past → result ≡ count node past }
{
    match core.count(node) {
        Ok(number) => number,
        Err(_) => 0,
    }
}
