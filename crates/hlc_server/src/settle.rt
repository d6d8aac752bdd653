//! Compares the receipts of all callers with the trail, once all threads have ended.
ghost use Rattle.std.specs.Prelude.{◌≡◌, ◌+◌, ◌<◌, ◌↔◌, length, map, take, IsTrue, IfOk, IfErr, IfSome, IfNone};
ghost use Rattle.std.specs.Option.{is_some};
ghost use Rattle.hlc_server.specs.Trails.{GuardedView};
ghost use Rattle.hlc_server.specs.Settling.{claim, claims_of, IsInTrail, key_of, IsBelow, IsGood, AreGood, IsSettled};
ghost use Rattle.hlc_server.specs.Settling.{IsFirstBad, IsSettlement, last_key};

use crate::caller::Caller;
use crate::entry::{Entry, Receipt};
use crate::guarded::Guarded;
use crate::shared::Shared;
use hlc_core::Core;
use hlc_values::Exact;
use std::sync::ledger::Ledger;

/// The core after all calls, and how many there were.
#[derive(Drop)]
pub struct Settled {
    pub core: Core,
    /// How many entries the trail has.
    pub entries: u64,
}

/// Why receipts don't settle.
#[derive(Clone, Copy, PartialEq, Eq, Debug)]
pub enum SettleFault {
    /// No trail was kept.
    NoTrail,
    /// The receipt at this place of all, in the order of the lists, is not in the trail, or is there twice; or only the
    /// number of receipts differs, and this is that number.
    ReceiptMismatch { index: u64 },
}

/// Compares the receipts of all callers with the trail, and returns the core and the number of calls.
///
/// The receipts settle where each is the trail's entry at its number and is in the list of its own caller; where by
/// caller, and then by number, they strictly rise over all lists in their order; and where they are as many as the
/// entries. Refused, in this order: no trail was kept; the first receipt that breaks a rule, or else their number.
pub fn settle_guarded<L: Ledger>(
    guarded: Guarded<L>,
    lists: Vec<(Caller<L>, Vec<Receipt>)>,
) -> Result<Settled, SettleFault>
    ensures { IsSettlement guarded (claims_of lists.items) result }
{
    let Guarded {
        core,
        trail,
        calls: _,
        book: _,
    } = guarded;
    let Some(trail) = trail else {
        return Err(SettleFault::NoTrail);
    };
    let entries = trail.entries.len() as u64;
    if let Some(index) = first_bad(trail.entries.as_slice(), entries, lists.as_slice()) {
        return Err(SettleFault::ReceiptMismatch { index });
    }
    Ok(Settled { core, entries })
}

impl<L: Ledger> Shared<L> {
    /// Compares the receipts of all callers with the trail, once all threads have ended, and returns the core and the
    /// number of calls. It calls `into_guarded`, and then `settle_guarded`, whose contract is about exactly the store
    /// that it gets, and which says why it is refused.
    pub fn settle(self, lists: Vec<(Caller<L>, Vec<Receipt>)>) -> Result<Settled, SettleFault>
        ensures { (lock : GuardedView) × (is_some lock.trail ≡ self.audited)
            × IsSettlement lock (claims_of lists.items) result }
    {
        settle_guarded(self.into_guarded(), lists)
    }
}

/// Returns the place of the first bad receipt, the number of receipts where only that differs, or none.
fn first_bad<L: Ledger>(
    trail: &[Entry],
    entries: u64,
    lists: &[(Caller<L>, Vec<Receipt>)],
) -> Option<u64>
    requires { entries ≡ length trail.now }
    ensures settled { IfNone result (IsSettled trail.now (claims_of lists.now)) }
    ensures bad { IfSome result (IsFirstBad trail.now (claims_of lists.now)) }
{
    let mut last = None;
    let mut count = 0u64;
    for list in lists {
        match look_through(trail, list.0.number(), list.1.as_slice(), last) {
            Ok(key) => last = key,
            Err(i) => return Some(count + i as u64),
        }
        count += list.1.len() as u64;
    }
    if count == entries { None } else { Some(count) }
}

/// Checks the receipts in a caller's list, which come after this caller and number. Returns the caller and number of
/// the last one, or the place of the first bad one.
fn look_through(
    trail: &[Entry],
    by: u16,
    receipts: &[Receipt],
    before: Option<(u16, u64)>,
) -> Result<Option<(u16, u64)>, usize>
    ensures good { IfOk result (λ last. AreGood trail.now before (map (claim by) receipts.now)
        × (last ≡ last_key before (map (claim by) receipts.now))) }
    ensures bad { IfErr result
        (λ i. (i < length receipts.now)
        × AreGood trail.now before (map (claim by) (take i receipts.now))
        × ¬ AreGood trail.now before (map (claim by) (take (i + 1) receipts.now))) }
{
    let mut last = before;
    for (i, receipt) in receipts.iter().enumerate() {
        if !is_good(trail, by, receipt, last) {
            return Err(i);
        }
        last = Some((receipt.caller, receipt.number));
    }
    Ok(last)
}

/// Returns whether a receipt is in the trail, is in the list of its own caller, and comes after this caller and number.
fn is_good(trail: &[Entry], by: u16, receipt: &Receipt, before: Option<(u16, u64)>) -> bool
    ensures { IsTrue result ↔ IsGood trail.now before (claim by receipt.now) }
{
    is_in_trail(trail, receipt) && receipt.caller == by && comes_after(before, receipt)
}

/// Returns whether a receipt is the trail's entry at its number.
fn is_in_trail(trail: &[Entry], receipt: &Receipt) -> bool
    ensures { IsTrue result ↔ IsInTrail trail.now receipt.now }
{
    match trail.get(receipt.number as usize) {
        Some(entry) => {
            entry.caller == receipt.caller
                && are_equal(&entry.event, &receipt.event)
                && are_equal(&entry.reply, &receipt.reply)
        }
        None => false,
    }
}

/// Returns whether a receipt comes after this caller and number.
fn comes_after(before: Option<(u16, u64)>, receipt: &Receipt) -> bool
    ensures { IsTrue result ↔ IsBelow before (key_of receipt.now) }
{
    match before {
        None => true,
        Some((caller, number)) => {
            caller < receipt.caller || (caller == receipt.caller && number < receipt.number)
        }
    }
}

/// Returns whether two values are equal.
fn are_equal<T: Exact>(a: &T, b: &T) -> bool
    ensures { IsTrue result ↔ (a.now ≡ b.now) }
{
    a == b
}
