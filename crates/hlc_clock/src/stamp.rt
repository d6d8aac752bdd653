//! The stamp: a physical part and a counter in one word.
ghost use Rattle.std.specs.Prelude.{ℕ, ⊤, ◌≡◌, ◌+◌, ◌*◌, ◌/◌, ◌%◌, ◌^◌, ◌<◌, ◌≤◌, MatchResult, IfOk, Some, nat_eq};
ghost use Rattle.std.specs.Cmp.{partial_order_from_own_ties, partial_equiv_from_equiv, Rules.comparing, Rules.hashing};
ghost use Rattle.std.specs.{Fmt.styled_text, Fmt.InlineText.inline_text, Ordering.nat_cmp, Ordering.as_partial_cmp};
ghost use Rattle.std.proofs.{Common.rules, lemmas.Cmp.nat_cmp_total, lemmas.Cmp.nat_eq_equiv};
ghost use Rattle.hlc_clock.specs.declared.stamp.TheConstants.{READING_BOUND, COUNTER_BOUND};
ghost use Rattle.hlc_clock.specs.Stamp.{physical, counter, stamp_text};
ghost use Rattle.std.specs.Hash as fed;

use hlc_values::NoMemory;
use std::cmp::Ordering;
use std::error::Error;
use std::fmt::{self, InlineText, Write};
use std::hash::{Hash, Hasher};
use std::marker::Model;

/// The exclusive upper bound of readings and of the physical parts of stamps.
pub const READING_BOUND: u64 = 281_474_976_710_656;

/// The exclusive upper bound of the counters of stamps.
pub const COUNTER_BOUND: u64 = 65536;

/// The bounds are 2^48 for the physical part and 2^16 for the counter.
pub fn stamps_have_48_and_16_bits()
    ensures reading { READING_BOUND ≡ 2 ^ 48 }
    ensures counter { COUNTER_BOUND ≡ 2 ^ 16 }
{}

/// A reading, or the physical part of a stamp, is 2^48 or more.
#[derive(Clone, Copy, PartialEq, Eq, Debug)]
pub struct ReadingTooLarge;

impl fmt::Display for ReadingTooLarge {
    ghost use Rattle.std.specs.Prelude.{Some, codes};

    ghost output = { λ _. Some (codes "the physical part is 2^48 or more") };

    fn fmt<W: fmt::Write>(&self, f: &mut fmt::Formatter<W>) -> fmt::Result {
        f.write_str("the physical part is 2^48 or more")
    }
}

impl Error for ReadingTooLarge {}

/// A stamp of a hybrid logical clock, in the compact form of Kulkarni et al. 2014.
///
/// The physical part `l` has 48 bits, in the unit of the readings; the counter `c` has 16. Both are
/// in one word, `l * 65536 + c`, so stamps are ordered by their words. In contracts a stamp is that
/// word. It is printed `l.c`, both in decimal; width, fill, alignment and precision are those of a
/// `str` of that text.
#[repr(C)]
#[derive(Copy, Debug)]
pub struct Stamp {
    bits: u64,
}

impl Model for Stamp {
    ghost Value = { ℕ };

    ghost view = { λ stamp. stamp.bits };

    ghost inverse = { λ word. record { bits = word } };
}

impl Stamp {
    /// The stamp 0.0, which is below the stamp of every event.
    pub const ZERO: Stamp = Stamp { bits: 0 };

    /// Returns the stamp with these parts. A physical part of more than 48 bits is refused.
    pub fn new(l: u64, c: u16) -> Result<Stamp, ReadingTooLarge>
        ensures { MatchResult result
            (λ stamp. (l < READING_BOUND) × (stamp ≡ COUNTER_BOUND * l + c))
            (λ _. READING_BOUND ≤ l) }
    {
        if l >= READING_BOUND {
            return Err(ReadingTooLarge);
        }
        Ok(Stamp {
            bits: l * COUNTER_BOUND + c as u64,
        })
    }

    /// Returns the stamp with this word. Every word is the word of a stamp.
    pub fn from_bits(bits: u64) -> Stamp
        ensures { result ≡ bits }
    {
        Stamp { bits }
    }

    /// Returns the stamp's word.
    pub fn bits(self) -> u64
        ensures value { result ≡ self }
        ensures range { self < 2 ^ 64 }
    {
        self.bits
    }

    /// Returns the physical part, which is below 2^48.
    pub fn l(self) -> u64
        ensures { result ≡ physical self }
    {
        self.bits / COUNTER_BOUND
    }

    /// Returns the counter.
    pub fn c(self) -> u16
        ensures { result ≡ counter self }
    {
        (self.bits % COUNTER_BOUND) as u16
    }
}

impl Default for Stamp {
    ghost is_default = { λ stamp. stamp ≡ 0 };

    fn default() -> Stamp {
        Stamp::ZERO
    }
}

impl Clone for Stamp {
    ghost is_clone = { λ stamp copy. copy ≡ stamp };

    ghost is_infallible = { λ _. ⊤ };

    fn clone(&self) -> Result<Stamp, NoMemory> {
        Ok(*self)
    }
}

impl PartialEq for Stamp {
    ghost eq = { nat_eq };

    ghost laws = { partial_equiv_from_equiv nat_eq_equiv };

    fn eq(&self, other: &Stamp) -> bool {
        self.bits == other.bits
    }
}

impl Eq for Stamp {
    ghost laws = { nat_eq_equiv };
}

impl PartialOrd for Stamp {
    ghost partial_cmp = { as_partial_cmp nat_cmp };

    ghost laws = { partial_order_from_own_ties (Prim.search (comparing, rules)) (Prim.search (comparing, rules)) };

    fn partial_cmp(&self, other: &Stamp) -> Option<Ordering> {
        Some(self.cmp(other))
    }
}

impl Ord for Stamp {
    ghost cmp = { nat_cmp };

    ghost total = { nat_cmp_total };

    ghost matches_partial_cmp = { Prim.search (comparing, rules) };

    ghost matches_eq = { Prim.search (comparing, rules) };

    fn cmp(&self, other: &Stamp) -> Ordering {
        self.bits.cmp(&other.bits)
    }
}

impl Hash for Stamp {
    ghost hash_input = { fed.u64 };

    ghost respects_eq = { Prim.search (hashing, rules) };

    fn hash<H: Hasher>(&self, state: &mut H) {
        self.bits.hash(state);
    }
}

impl fmt::Display for Stamp {
    ghost output = { λ stamp. Some (stamp_text stamp) };

    ghost styled_output = { λ stamp spec. Some (styled_text spec (stamp_text stamp)) };

    fn fmt<W: fmt::Write>(&self, f: &mut fmt::Formatter<W>) -> fmt::Result {
        let text = text_of(*self)?;
        f.pad(text.as_str())
    }
}

/// Writes the text of a stamp in place. It has at most 21 bytes.
fn text_of(stamp: Stamp) -> Result<InlineText<21>, fmt::Error>
    ensures { IfOk result (λ text. inline_text text ≡ stamp_text stamp) }
{
    let l = stamp.l();
    let c = stamp.c();
    let mut text = InlineText::<21>::new();
    write!(text, "{l}.{c}")?;
    Ok(text)
}
