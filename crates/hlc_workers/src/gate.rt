//! The gate that workers ask before each call.
ghost use Rattle.std.specs.Prelude.{◌≡◌, true};

use std::sync::Wait;

/// Asked before each call of a worker, while no lock is taken.
pub trait Gate {
    ghost use Rattle.std.specs.Prelude.{ℕ, Bool};

    /// What it may answer at a turn.
    ghost may_answer: { Self → ℕ → Bool → Type 0 };

    /// Returns whether the call of this turn may be made. It may wait. Turns count the calls of the store that the
    /// worker was about to make, from 0. Where it answers false, the worker ends.
    fn pass<R: Wait>(&self, rt: &R, turn: u64) -> bool
        ensures { may_answer self.now turn result };
}

/// Lets each call pass at once.
#[derive(Clone, Copy, PartialEq, Eq, Debug)]
pub struct FreeGate;

impl Gate for FreeGate {
    ghost may_answer = { λ gate turn answer. answer ≡ true };

    fn pass<R: Wait>(&self, _rt: &R, _turn: u64) -> bool {
        true
    }
}
