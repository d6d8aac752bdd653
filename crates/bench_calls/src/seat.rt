//! Calls of a shared store by one caller: reads whose receipts are kept, and openings that are refused.
use crate::{bytes, write};
use hlc_core::{Accepted, CoreEvent, CoreFault, CoreReply, Stamp};
use hlc_server::{CallResult, Caller, Receipt, Shared};
use std::alloc::Global;
use std::sync::Wait;
use std::sync::ledger::Ledger;

/// How many keys are written, and read in turn.
const KEYS: u8 = 64;

/// How many reads all threads make.
pub(crate) const CALLS: u64 = 400_000;

/// A caller, if one was left, and the answer of its last call.
#[derive(Drop)]
pub(crate) struct Seat<L: Ledger> {
    pub(crate) caller: Option<Caller<L>>,
    /// What was accepted.
    pub(crate) accepted: Option<Accepted>,
    /// The floor in the refusal of an opening.
    pub(crate) floor: u64,
    /// They are kept so that dropping them is not timed.
    pub(crate) receipts: Vec<Receipt>,
}

impl<L: Ledger> Seat<L> {
    /// Makes a call, whose receipt may be kept. Where memory runs out, it is not made.
    pub(crate) fn call<R: Wait>(
        &mut self,
        rt: &R,
        shared: &Shared<L>,
        event: CoreEvent,
        keeps: bool,
    ) {
        if let Some(caller) = &mut self.caller {
            let answer = shared.call(rt, caller, event);
            self.take_in(answer, keeps);
        }
    }

    /// Stores the answer of a call, and may keep its receipt.
    fn take_in(&mut self, answer: CallResult, keeps: bool) {
        if let Ok(receipt) = answer {
            self.hear(&receipt.reply);
            if keeps {
                drop(self.receipts.push(receipt));
            }
        }
    }

    /// Stores what a reply says.
    fn hear(&mut self, reply: &CoreReply) {
        match reply {
            CoreReply::Accepted(accepted) => self.accepted = Some(*accepted),
            CoreReply::Refused(CoreFault::AboveFloor { floor }) => self.floor = floor.bits(),
            _ => {}
        }
    }

    /// Writes all keys, and opens a snapshot at the floor.
    pub(crate) fn fill<R: Wait>(&mut self, rt: &R, alloc: Global, shared: &Shared<L>) {
        for number in 0..KEYS {
            if let Ok(item) = write(alloc, u32::from(number), &[number], &[7]) {
                self.call(rt, shared, CoreEvent::Accept(item), false);
            }
        }
        self.call(rt, shared, CoreEvent::OpenFloor, false);
    }

    /// Makes this many reads in the first snapshot, each of the next key.
    pub(crate) fn read_all<R: Wait>(
        &mut self,
        rt: &R,
        alloc: Global,
        shared: &Shared<L>,
        calls: u64,
    ) {
        for call in 0..calls {
            if let Ok(key) = bytes(alloc, &[(call % u64::from(KEYS)) as u8]) {
                self.call(rt, shared, CoreEvent::Read { id: 1, key }, true);
            }
        }
    }

    /// Looks often at the floor by an opening that is refused since its stamp is above it. Returns the greatest floor
    /// that was seen. Each look takes the lock once, needs no memory and opens nothing.
    pub(crate) fn ask_often<R: Wait>(&mut self, rt: &R, shared: &Shared<L>, looks: u64) -> u64 {
        let mut greatest = 0;
        for _ in 0..looks {
            self.call(
                rt,
                shared,
                CoreEvent::OpenAt(Stamp::from_bits(u64::MAX)),
                false,
            );
            greatest = greatest.max(self.floor);
        }
        greatest
    }
}
