//! The state of a store without the rows at or below a stamp.
ghost use Rattle.std.specs.Prelude.{◌≡◌, IfOk, IfErr};
ghost use Rattle.hlc_core.specs.Checkpoint.{IsCheckpoint};
ghost use Rattle.hlc_increment.specs.Increment.{IsIncrementOf, IsRefused};
ghost use Rattle.hlc_increment.specs.Faults.{increment_code, increment_word};

use hlc_core::{Checkpoint, Core, Stamp};
use hlc_values::NoMemory;
use std::error::Error;
use std::fmt;
use std::marker::Model;

/// Why there is no increment of a store since a stamp.
#[derive(Clone, Copy, PartialEq, Eq, Debug)]
pub enum IncrementFault {
    /// The stamp is below that of the last vacuum, which may have dropped rows above it.
    BelowHorizon { horizon: Stamp },
    /// Out of memory.
    NoMemory,
}

impl IncrementFault {
    /// Returns the number of this refusal in outputs: 9 or 15.
    pub fn code(self) -> u32
        ensures { result ≡ increment_code self }
    {
        match self {
            IncrementFault::BelowHorizon { .. } => 9,
            IncrementFault::NoMemory => 15,
        }
    }

    /// Returns the word of the horizon in this refusal, or 0.
    pub fn word(self) -> u64
        ensures { result ≡ increment_word self }
    {
        match self {
            IncrementFault::BelowHorizon { horizon } => horizon.bits(),
            IncrementFault::NoMemory => 0,
        }
    }
}

impl fmt::Display for IncrementFault {
    ghost use Rattle.std.specs.Prelude.{Some};
    ghost use Rattle.hlc_increment.specs.Faults.{increment_text};

    ghost output = { λ fault. Some (increment_text fault) };

    fn fmt<W: fmt::Write>(&self, f: &mut fmt::Formatter<W>) -> fmt::Result {
        match self {
            IncrementFault::BelowHorizon { horizon } => {
                write!(f, "the stamp is below that of the last vacuum, {horizon}")
            }
            IncrementFault::NoMemory => f.write_str("out of memory"),
        }
    }
}

impl Error for IncrementFault {}

impl From<NoMemory> for IncrementFault {
    ghost use Rattle.hlc_increment.specs.declared.increment.IncrementFault.TheVariants.{NoMemory as no_memory};

    ghost from_gives = { λ _ fault. fault ≡ no_memory };

    fn from(_fault: NoMemory) -> IncrementFault {
        IncrementFault::NoMemory
    }
}

/// The whole state of a store, but of its rows only those above a stamp. Anyone may make one from any parts: `advance`
/// checks them.
#[derive(Debug, Drop)]
pub struct Increment {
    since: Stamp,
    state: Checkpoint,
}

impl Model for Increment {
    ghost use Rattle.hlc_increment.specs.Increment.{IncrementView};

    ghost Value = { IncrementView };

    ghost view = { λ increment. record { since = increment.since; state = increment.state } };
}

impl Increment {
    /// Makes the increment of a store since a stamp. Choose the floor that the store had at the older checkpoint, or a
    /// stamp below it: each write that was accepted since then is above that floor.
    ///
    /// Refused, in this order: the stamp is below the horizon; out of memory. It goes through all rows, and copies and
    /// sorts those above the stamp.
    pub fn of(core: &Core, since: Stamp) -> Result<Increment, IncrementFault>
        ensures ok { IfOk result (IsIncrementOf core.now) }
        ensures since { IfOk result (λ increment. increment.since ≡ since) }
        ensures sound { IfOk result (λ increment. IsCheckpoint increment.state) }
        ensures err { IfErr result (IsRefused core.now since) }
    {
        let horizon = core.horizon();
        if since < horizon {
            return Err(IncrementFault::BelowHorizon { horizon });
        }
        let state = core.checkpoint_above(since)?;
        Ok(Increment { since, state })
    }

    /// Makes an increment from these parts, which are not checked.
    pub fn from_parts(since: Stamp, state: Checkpoint) -> Increment
        ensures { result ≡ record { since = since; state = state } }
    {
        Increment { since, state }
    }

    /// Returns the stamp: the increment has the rows above it.
    pub fn since(&self) -> Stamp
        ensures { result ≡ self.now.since }
    {
        self.since
    }

    /// Returns the state, with the rows above the stamp.
    pub fn state(&self) -> &Checkpoint
        ensures { result.now ≡ self.now.state }
    {
        &self.state
    }

    /// Moves the stamp and the state out.
    pub fn into_parts(self) -> (Stamp, Checkpoint)
        ensures since { result.0 ≡ self.since }
        ensures state { result.1 ≡ self.state }
    {
        (self.since, self.state)
    }
}
