//! The receiving end of a link: the order of its items.
ghost use Rattle.std.specs.Prelude.{◌≡◌, false};
ghost use Rattle.hlc_intake.specs.{Faults.link_code, Faults.link_word, IntakeView.Admits};

use hlc_clock::Stamp;
use hlc_values::NUMBER_BOUND;
use std::error::Error;
use std::fmt;
use std::marker::Model;

/// Why an item is refused.
#[derive(Clone, Copy, PartialEq, Eq, Debug)]
pub enum LinkFault {
    /// The link's last admitted item was its node's last.
    Retired,
    /// The link number is not the next one.
    NotNext { next: u64 },
    /// The number is 2^64 - 1, which no item has: no number would be left after it.
    NumbersSpent,
    /// The stamp is not above the stamp of the link's last admitted item.
    StampNotRising { head: Stamp },
}

impl LinkFault {
    /// Returns the number of this refusal: 6, 7, 14 or 27.
    pub fn code(self) -> u32
        ensures { result ≡ link_code self }
    {
        match self {
            LinkFault::Retired => 27,
            LinkFault::NotNext { .. } => 6,
            LinkFault::NumbersSpent => 14,
            LinkFault::StampNotRising { .. } => 7,
        }
    }

    /// Returns the next number or the word of the head in this refusal, or 0.
    pub fn word(self) -> u64
        ensures { result ≡ link_word self }
    {
        match self {
            LinkFault::NotNext { next } => next,
            LinkFault::StampNotRising { head } => head.bits(),
            LinkFault::Retired | LinkFault::NumbersSpent => 0,
        }
    }
}

impl fmt::Display for LinkFault {
    ghost use Rattle.std.specs.Prelude.{Some};
    ghost use Rattle.hlc_intake.specs.Faults.{link_text};

    ghost output = { λ fault. Some (link_text fault) };

    fn fmt<W: fmt::Write>(&self, f: &mut fmt::Formatter<W>) -> fmt::Result {
        match self {
            LinkFault::Retired => f.write_str("the node has retired"),
            LinkFault::NotNext { next } => write!(f, "the next item of the node is number {next}"),
            LinkFault::NumbersSpent => f.write_str("no item number is left"),
            LinkFault::StampNotRising { head } => {
                write!(f, "the stamp is not above that of the last item, {head}")
            }
        }
    }
}

impl Error for LinkFault {}

/// The progress of a node's link: the number of its next item; the head, which is the stamp of the last admitted item
/// or else of the node's start; and whether that item was its node's last. It does not look at the bodies of items.
#[derive(Clone, Copy, PartialEq, Eq, Debug)]
pub struct Intake {
    next: u64,
    head: Stamp,
    retired: bool,
}

impl Model for Intake {
    ghost use Rattle.hlc_intake.specs.IntakeView.{IntakeView};

    ghost Value = { IntakeView };

    ghost view = { λ intake. record
        { next = intake.next; head = intake.head; retired = intake.retired } };

    ghost inverse = { λ progress. record
        { next = progress.next; head = progress.head; retired = progress.retired } };
}

impl Intake {
    /// Returns the intake of a link on which no item has arrived: its first item has number 0, and
    /// its head is 0.0, the stamp of no item.
    pub fn new() -> Intake
        ensures { result ≡ record { next = 0; head = 0; retired = false } }
    {
        Intake::starting_at(Stamp::ZERO)
    }

    /// Returns the intake of the link of a node that starts at this stamp: its first item has
    /// number 0 and a stamp above the start.
    pub fn starting_at(start: Stamp) -> Intake
        ensures { result ≡ record { next = 0; head = start; retired = false } }
    {
        Intake {
            next: 0,
            head: start,
            retired: false,
        }
    }

    /// Returns the intake of a link with this progress: its next number, its head, and whether its
    /// node has retired.
    pub fn resuming(next: u64, head: Stamp, retired: bool) -> Intake
        ensures { result ≡ record { next = next; head = head; retired = retired } }
    {
        Intake {
            next,
            head,
            retired,
        }
    }

    /// Returns the number of the next item, which is also the number of admitted items.
    pub fn next(&self) -> u64
        ensures { result ≡ self.now.next }
    {
        self.next
    }

    /// Returns the stamp of the last admitted item, or of the start if there is none.
    pub fn head(&self) -> Stamp
        ensures { result ≡ self.now.head }
    {
        self.head
    }

    /// Returns whether the last admitted item was its node's last.
    pub fn retired(&self) -> bool
        ensures { result ≡ self.now.retired }
    {
        self.retired
    }

    /// Admits the item with this number and stamp if it is the link's next one. `last` marks the
    /// node's last item.
    ///
    /// Refused, in this order: the node has retired; not the next number; no number left after it;
    /// a stamp not above the head. A refusal leaves the intake unchanged. No call here needs
    /// memory.
    pub fn admit(&mut self, number: u64, stamp: Stamp, last: bool) -> Result<(), LinkFault>
        ensures { Admits self.old self.new number stamp last result }
    {
        if self.retired {
            return Err(LinkFault::Retired);
        }
        if number != self.next {
            return Err(LinkFault::NotNext { next: self.next });
        }
        if number == NUMBER_BOUND {
            return Err(LinkFault::NumbersSpent);
        }
        if stamp <= self.head {
            return Err(LinkFault::StampNotRising { head: self.head });
        }
        self.next = number + 1;
        self.head = stamp;
        self.retired = last;
        Ok(())
    }
}
