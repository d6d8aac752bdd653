//! The callers of a shared store.
ghost use Rattle.std.specs.Prelude.{◌≡◌};

use crate::entry::CallResult;
use std::marker::Model;
use std::sync::ledger::{Ledger, Share};

/// A caller of a shared store: its number, and its share of the ledger, which counts its calls. It can't be copied, so
/// only its owner makes its calls.
#[derive(Drop)]
pub struct Caller<L: Ledger> {
    pub(crate) number: u16,
    pub(crate) share: Share<L>,
}

/// What a call returns: its caller, and the result of the call.
pub type Called<L> = (Caller<L>, CallResult);

impl<L: Ledger> Model for Caller<L> {
    ghost use Rattle.std.specs.Prelude.{◌<◌};
    ghost use Rattle.hlc_server.specs.Seats.{CallerView};

    ghost Value = { CallerView };

    ghost view = { λ caller. record { number = caller.number; share = caller.share.amount } };

    ghost invariant = { λ caller. 0 < caller.share.parts };
}

impl<L: Ledger> Caller<L> {
    /// Returns its number. The callers of a store are numbered from 0.
    pub fn number(&self) -> u16
        ensures { result ≡ self.now.number }
    {
        self.number
    }
}
