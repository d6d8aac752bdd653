//! The store of a storm.
ghost use Rattle.std.specs.Prelude.{◌≡◌, ◌+◌, [], Some, IfOk, IfErr, map};
ghost use Rattle.std.specs.List.{range_with_len};
ghost use Rattle.hlc_core.specs.History.{RepresentsHistory};
ghost use Rattle.hlc_server.specs.Seats.{fresh_seat};

use crate::report::StormFault;
use hlc_server::{Caller, Guarded};
use hlc_words::StormPlan;
use std::alloc::Global;
use std::sync::ledger::{Blank, Ledger};

/// Returns a new store of the nodes of a plan, which keeps a trail, and its callers: one for each feeder and each
/// reader, and one for the vacuum. There is no lock around it yet. Refused where it runs out of memory.
pub fn new_store<L: Ledger>(
    alloc: Global,
    blank: Blank,
    plan: &StormPlan,
) -> Result<(Guarded<L>, Vec<Caller<L>>), StormFault>
    requires ledger { (blank.name ≡ L.name) × (blank.parts ≡ L.parts) }
    requires callers { blank.parts ≡ plan.now.nodes + plan.now.readers + 1 }
    ensures store { IfOk result
        (λ made. RepresentsHistory plan.now.nodes made.0.core []
        × (made.0.trail ≡ Some []) × (made.0.calls ≡ 0)) }
    ensures callers { IfOk result (λ made. made.1.items
        ≡ map fresh_seat (range_with_len 0 (plan.now.nodes + plan.now.readers + 1))) }
    ensures memory { IfErr result (λ fault. fault ≡ StormFault.NoMemory) }
{
    let callers = plan.nodes + plan.readers + 1;
    match Guarded::<L>::new(alloc, blank, plan.nodes, callers, true) {
        Ok(made) => Ok(made),
        Err(_) => Err(StormFault::NoMemory),
    }
}
