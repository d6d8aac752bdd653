//! The clock of a node.
ghost use Rattle.std.specs.Prelude.{◌≡◌, ℕ, [], ◌∷◌, IfOk, OnErr};
ghost use Rattle.hlc_clock.specs.NextStamp.{expected_stamp, IsClockAnswer};
ghost use Rattle.hlc_clock.specs.Faults.{clock_code, clock_word};

use crate::stamp::{COUNTER_BOUND, READING_BOUND, Stamp};
use std::error::Error;
use std::fmt;
use std::marker::Model;

/// Why a clock refuses to stamp an event.
#[derive(Clone, Copy, PartialEq, Eq, Debug)]
pub enum ClockFault {
    /// The reading is 2^48 or more.
    ReadingTooLarge,
    /// The counter would have to be 65,536; `at` is the greatest earlier stamp.
    CounterFull { at: Stamp },
}

impl ClockFault {
    /// Returns the number of this refusal: 2 or 3.
    pub fn code(self) -> u32
        ensures { result ≡ clock_code self }
    {
        match self {
            ClockFault::ReadingTooLarge => 2,
            ClockFault::CounterFull { .. } => 3,
        }
    }

    /// Returns the word of the stamp in this refusal, or 0.
    pub fn word(self) -> u64
        ensures { result ≡ clock_word self }
    {
        match self {
            ClockFault::ReadingTooLarge => 0,
            ClockFault::CounterFull { at } => at.bits(),
        }
    }
}

impl fmt::Display for ClockFault {
    ghost use Rattle.std.specs.Prelude.{Some};
    ghost use Rattle.hlc_clock.specs.Faults.{clock_text};

    ghost output = { λ fault. Some (clock_text fault) };

    fn fmt<W: fmt::Write>(&self, f: &mut fmt::Formatter<W>) -> fmt::Result {
        match self {
            ClockFault::ReadingTooLarge => f.write_str("the clock reading is 2^48 or more"),
            ClockFault::CounterFull { at } => write!(f, "the counter has no room after {at}"),
        }
    }
}

impl Error for ClockFault {}

/// A node's clock, which remembers the stamp of the node's last event. In contracts it is that
/// stamp.
///
/// The rule is that of Kulkarni et al. 2014 for hybrid logical clocks, with one difference: if the
/// counter is full, the event is refused, and nothing is carried into the physical part.
#[repr(C)]
#[derive(Clone, Copy, PartialEq, Eq, Debug)]
pub struct Clock {
    last: Stamp,
}

impl Model for Clock {
    ghost use Rattle.std.specs.Prelude.{ℕ};

    ghost Value = { ℕ };

    ghost view = { λ clock. clock.last };

    ghost inverse = { λ stamp. record { last = stamp } };
}

impl Clock {
    /// Returns a clock whose last event had this stamp.
    pub fn starting_at(stamp: Stamp) -> Clock
        ensures { result ≡ stamp }
    {
        Clock { last: stamp }
    }

    /// Returns the stamp of the last event.
    pub fn now(&self) -> Stamp
        ensures { result ≡ self.now }
    {
        self.last
    }

    /// Stamps a local event or a send at this reading of the physical clock. The new stamp is the
    /// least one above the last stamp and not below the reading.
    ///
    /// A reading of 2^48 or more is refused first. A refusal leaves the clock unchanged.
    pub fn tick(&mut self, reading: u64) -> Result<Stamp, ClockFault>
        ensures rule { IsClockAnswer (self.old ∷ []) reading result }
        ensures value { result ≡ expected_stamp (self.old ∷ []) reading }
        ensures ok { IfOk result (λ stamp. self.new ≡ stamp) }
        ensures unchanged { OnErr result (self.new ≡ self.old) }
    {
        let answer = stamp_after(self.last, reading);
        if let Ok(stamp) = answer {
            self.last = stamp;
        }
        answer
    }

    /// Stamps the receipt of a message, or the observation of a snapshot, with the stamp `seen`, at
    /// this reading of the physical clock. The new stamp is the least one above the last stamp and
    /// above `seen`, and not below the reading.
    ///
    /// A reading of 2^48 or more is refused first. If the counter is full, `at` is the greater of
    /// the last stamp and `seen`. A refusal leaves the clock unchanged.
    pub fn receive(&mut self, seen: Stamp, reading: u64) -> Result<Stamp, ClockFault>
        ensures rule { IsClockAnswer (self.old ∷ seen ∷ []) reading result }
        ensures value { result ≡ expected_stamp (self.old ∷ seen ∷ []) reading }
        ensures ok { IfOk result (λ stamp. self.new ≡ stamp) }
        ensures unchanged { OnErr result (self.new ≡ self.old) }
    {
        let answer = stamp_after_both(self.last, seen, reading);
        if let Ok(stamp) = answer {
            self.last = stamp;
        }
        answer
    }
}

/// Returns the stamp of a receipt, from the node's last stamp and the stamp that it has seen.
fn stamp_after_both(last: Stamp, seen: Stamp, reading: u64) -> Result<Stamp, ClockFault>
    ensures { result ≡ expected_stamp (last ∷ seen ∷ []) reading }
{
    if reading >= READING_BOUND {
        return Err(ClockFault::ReadingTooLarge);
    }
    let l = last.l().max(seen.l()).max(reading);
    // The counter continues from the earlier stamps that have this physical part.
    let counter = if l == last.l() && l == seen.l() {
        last.c().max(seen.c())
    } else if l == last.l() {
        last.c()
    } else if l == seen.l() {
        seen.c()
    } else {
        // The physical clock is ahead of both stamps: the counter starts again at 0.
        return Ok(Stamp::from_bits(l * COUNTER_BOUND));
    };
    if counter == u16::MAX {
        return Err(ClockFault::CounterFull { at: last.max(seen) });
    }
    Ok(Stamp::from_bits(l * COUNTER_BOUND + counter as u64 + 1))
}

/// Returns the stamp of an event, from the node's last stamp.
fn stamp_after(last: Stamp, reading: u64) -> Result<Stamp, ClockFault>
    ensures { result ≡ expected_stamp (last ∷ []) reading }
{
    if reading >= READING_BOUND {
        return Err(ClockFault::ReadingTooLarge);
    }
    // The physical clock is ahead of the last stamp: the counter starts again at 0.
    if reading > last.l() {
        return Ok(Stamp::from_bits(reading * COUNTER_BOUND));
    }
    // It is not, so the counter makes the stamps differ.
    if last.c() == u16::MAX {
        return Err(ClockFault::CounterFull { at: last });
    }
    Ok(Stamp::from_bits(last.bits() + 1))
}
