//! What the lock protects, and how it is made.
ghost use Rattle.std.specs.Prelude.{◌≡◌, ◌<◌, [], ⊤, Some, None, IfOk, MatchResult, map, if◌then◌else◌};
ghost use Rattle.std.specs.{Option.ForSome, List.range_with_len};
ghost use Rattle.hlc_core.specs.{Calls.new_refusal, Calls.IsRefusal, History.RepresentsHistory};
ghost use Rattle.hlc_server.specs.{Seats.fresh_seat, Trails.IsAudited, Trails.HasHistory, Trails.entries_of};

use crate::caller::Caller;
use crate::trail::Trail;
use hlc_core::{Core, CoreFault, NoMemory};
use std::alloc::Global;
use std::marker::Model;
use std::sync::ledger::{Blank, Book, Ledger, Share};

/// What the lock of a shared store protects: a core, the trail of its calls where one is kept, and how many calls there
/// were, which the book of the ledger counts too.
///
/// Contracts describe the core, the calls of the trail and their number. With a trail or without, the core represents a
/// legal history of as many calls; the trail is such a history.
#[derive(Drop)]
pub struct Guarded<L: Ledger> {
    pub(crate) core: Core,
    pub(crate) trail: Option<Trail>,
    pub(crate) calls: u64,
    pub(crate) book: Book<L>,
}

impl<L: Ledger> Model for Guarded<L> {
    ghost use Rattle.std.specs.Prelude.{◌≡◌};
    ghost use Rattle.std.specs.Option.{ForSome};
    ghost use Rattle.hlc_server.specs.Trails.{GuardedView, IsAudited, HasHistory, entries_of};

    ghost Value = { GuardedView };

    ghost view = { λ guarded.
        record { core = guarded.core; trail = entries_of guarded.trail; calls = guarded.calls } };

    ghost invariant = { λ guarded. (guarded.calls ≡ guarded.book.total)
        × ForSome (entries_of guarded.trail)
        (λ trail. IsAudited guarded.core trail guarded.book.total)
        × HasHistory guarded.core guarded.book.total };
}

impl<L: Ledger> Guarded<L> {
    /// Returns a new core of this many nodes and its callers, who are numbered from 0, with no lock around it. With
    /// `audit`, a trail is kept.
    ///
    /// Refused, in this order: not 1 to 64 nodes; out of memory.
    pub fn new(
        alloc: Global,
        blank: Blank,
        nodes: u16,
        callers: u16,
        audit: bool,
    ) -> Result<(Guarded<L>, Vec<Caller<L>>), CoreFault>
        requires ledger { (blank.name ≡ L.name) × (blank.parts ≡ L.parts) }
        requires callers { (0 < callers) × (blank.parts ≡ callers) }
        ensures made { MatchResult result (λ made. new_refusal nodes ≡ None)
            (λ fault. IsRefusal (new_refusal nodes) ⊤ fault) }
        ensures callers { IfOk result
            (λ made. made.1.items ≡ map fresh_seat (range_with_len 0 callers)) }
        ensures fresh { IfOk result
            (λ made. RepresentsHistory nodes made.0.core []
            × (made.0.trail ≡ (if audit then Some [] else None)) × (made.0.calls ≡ 0)) }
    {
        let core = Core::new(alloc, nodes)?;
        let (book, share) = blank.open::<L>();
        let Ok(callers) = callers_of(alloc, share, callers) else {
            return Err(CoreFault::NoMemory);
        };
        let guarded = Guarded {
            core,
            trail: new_trail(alloc, audit),
            calls: 0,
            book,
        };
        Ok((guarded, callers))
    }

    /// Lends the core, for reading.
    pub fn core(&self) -> &Core
        ensures core { result.now ≡ self.now.core }
        ensures history { HasHistory self.now.core self.now.calls }
    {
        &self.core
    }

    /// Returns how many calls were made. Whenever nobody is in a call, the core represents a legal history of as many
    /// calls, with a trail or without. A trail is such a history.
    pub fn calls(&self) -> u64
        ensures calls { result ≡ self.now.calls }
        ensures trail { ForSome self.now.trail
            (λ trail. IsAudited self.now.core trail self.now.calls) }
        ensures history { HasHistory self.now.core self.now.calls }
    {
        self.calls
    }
}

/// Returns an empty trail, if one is to be kept.
fn new_trail(alloc: Global, audit: bool) -> Option<Trail>
    ensures { entries_of result ≡ (if audit then Some [] else None) }
{
    if audit {
        Some(Trail {
            entries: Vec::new(alloc),
        })
    } else {
        None
    }
}

/// Splits a share with all parts into as many callers, and returns these.
fn callers_of<L: Ledger>(
    alloc: Global,
    share: Share<L>,
    callers: u16,
) -> Result<Vec<Caller<L>>, NoMemory>
    requires { (share.parts ≡ callers) × (share.amount ≡ 0) × (0 < callers) }
    ensures { IfOk result (λ made. made.items ≡ map fresh_seat (range_with_len 0 callers)) }
{
    let mut rest = share;
    let mut made = Vec::with_capacity(alloc, usize::from(callers))?;
    for number in 0..callers {
        let share = rest.split_off(1, 0);
        made.push(Caller { number, share })?;
    }
    Ok(made)
}
