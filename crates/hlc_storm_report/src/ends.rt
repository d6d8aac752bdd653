//! How the workers of a storm ended, and what follows from that.
ghost use Rattle.std.specs.Prelude.{◌≡◌, ◌≢◌, ◌∷◌, [], ◌++◌, false, true, None, Some, IfOk, IfErr, reverse};
ghost use Rattle.std.proofs.Props.{props};
ghost use Rattle.hlc_server.specs.declared.end.WorkEnd.{WorkEnd, WorkEnd as AnEnd};
ghost use Rattle.hlc_storm_report.specs.Found.{MayRefuse};

use crate::report::StormFault;
use hlc_server::{Caller, Receipt, Served, WorkEnd};
use std::alloc::Global;
use std::sync::ledger::Ledger;

/// The receipts of all callers.
pub type Lists<L> = Vec<(Caller<L>, Vec<Receipt>)>;

/// The receipts of the workers that ended so far, from the last caller to the first.
#[derive(Drop)]
pub struct Ends<L: Ledger> {
    pub lists: Lists<L>,
    /// The end of the worker with the lowest caller that was not done.
    pub first: Option<WorkEnd>,
    pub out_of_memory: bool,
    ghost not_done: { first ≢ Some WorkEnd.Done } by { Prim.hlevel props },
}

impl<L: Ledger> Ends<L> {
    /// Returns the ends before any worker ended. Memory may have run out already.
    pub fn new(alloc: Global, out_of_memory: bool) -> Ends<L>
        ensures lists { result.lists.items ≡ [] }
        ensures first { result.first ≡ None }
        ensures out_of_memory { result.out_of_memory ≡ out_of_memory }
    {
        Ends {
            lists: Vec::new(alloc),
            first: None,
            out_of_memory,
        }
    }

    /// Records the receipts and the end of a worker. Workers are recorded from the last caller to the first.
    pub fn with(self, served: Served<L>) -> Ends<L>
        ensures lists { result.out_of_memory ≡ false
            → result.lists.items ≡ self.lists.items ++ (served.caller, served.receipts) ∷ [] }
        ensures out_of_memory { result.out_of_memory ≡ false → self.out_of_memory ≡ false }
        ensures done { served.end ≡ WorkEnd.Done → result.first ≡ self.first }
        ensures first { served.end ≢ WorkEnd.Done → result.first ≡ Some served.end }
    {
        let Ends {
            lists,
            first,
            out_of_memory,
        } = self;
        let Served {
            caller,
            receipts,
            end,
        } = served;
        let mut lists = lists;
        let out_of_memory = lists.push((caller, receipts)).is_err() || out_of_memory;
        let first = if end == WorkEnd::Done {
            first
        } else {
            Some(end)
        };
        Ends {
            lists,
            first,
            out_of_memory,
        }
    }

    /// Returns the receipts by caller, or why there are none: out of memory; the first worker that was not done.
    pub fn outcome(self) -> Result<Lists<L>, StormFault>
        ensures lists { IfOk result (λ lists. lists.items ≡ reverse self.lists.items) }
        ensures done { IfOk result (λ _. (self.out_of_memory ≡ false) × (self.first ≡ None)) }
        ensures faults { IfErr result MayRefuse }
        ensures memory { IfErr result
            (λ fault. self.out_of_memory ≡ true → fault ≡ StormFault.NoMemory) }
        ensures worker { IfErr result (λ fault. self.out_of_memory ≡ false
            → (end : AnEnd) × (self.first ≡ Some end) × (fault ≡ StormFault.Work end)) }
    {
        let Ends {
            lists,
            first,
            out_of_memory,
        } = self;
        if out_of_memory {
            return Err(StormFault::NoMemory);
        }
        if let Some(end) = first {
            return Err(StormFault::Work(end));
        }
        let mut lists = lists;
        lists.reverse();
        Ok(lists)
    }
}
