//! Lent flags.
ghost use Rattle.std.specs.Prelude.{◌≡◌, ◌≤◌, ◌<◌, ◌-◌, ◌*◌, ◌/◌, length, take, drop, slice_index_or, false, count_by};
ghost use Rattle.std.specs.Prelude.{not, ◌+◌, ◌^◌, ◌++◌, replicate, true};
ghost use Rattle.std.specs.List.{list_all};
ghost use Rattle.hlc_table_flags.specs.Bits.{bit_in, bits_in};

use std::marker::Model;

/// Lent flags, a byte or a bit for each, or a run without memory. In contracts they are the list of them.
#[derive(Drop)]
pub struct Flags<'a> {
    form: Form<'a>,
}

/// Where the flags are.
#[derive(Drop)]
enum Form<'a> {
    Bytes(&'a [bool]),
    /// The bits from a position on, up to another.
    Bits(&'a [u64], usize, usize),
    /// A number of set flags, then a number of unset ones.
    Run(usize, usize),
}

impl<'a> Model for Flags<'a> {
    ghost use Rattle.std.specs.Prelude.{Bool, List};
    ghost use Rattle.hlc_table_flags.specs.Forms.{flags_in, IsInWords};

    ghost Value = { List Bool };

    ghost view = { λ flags. flags_in flags.form };

    ghost invariant = { λ flags. IsInWords flags.form };
}

impl<'a> Flags<'a> {
    /// Returns these flags.
    pub fn of(flags: &'a [bool]) -> Flags<'a>
        ensures { result ≡ flags.now }
    {
        Flags {
            form: Form::Bytes(flags),
        }
    }

    /// Returns `set` flags that are set, and then `unset` flags that are not. It needs no memory.
    pub fn run(set: usize, unset: usize) -> Flags<'a>
        requires { set + unset < 2 ^ 64 }
        ensures { result ≡ replicate set true ++ replicate unset false }
    {
        Flags {
            form: Form::Run(set, unset),
        }
    }

    /// Returns the bits of some words from a position on, up to another.
    pub(crate) fn of_bits(words: &'a [u64], from: usize, to: usize) -> Flags<'a>
        requires order { from ≤ to }
        requires inside { to ≤ 64 * length words.now }
        ensures { result ≡ bits_in words.now from (to - from) }
    {
        Flags {
            form: Form::Bits(words, from, to),
        }
    }

    /// Returns their number.
    pub fn len(&self) -> usize
        ensures { result ≡ length self.now }
    {
        match self.form {
            Form::Bytes(flags) => flags.len(),
            Form::Bits(_, from, to) => to - from,
            Form::Run(set, unset) => set + unset,
        }
    }

    /// Returns whether the flag at a position is set.
    pub fn is_set(&self, at: usize) -> bool
        requires { at < length self.now }
        ensures { result ≡ slice_index_or self.now at false }
    {
        match self.form {
            Form::Bytes(flags) => flags[at],
            Form::Bits(words, from, _) => bit_of(words, from + at),
            Form::Run(set, _) => at < set,
        }
    }

    /// Returns whether every flag is set.
    pub fn are_set(&self) -> bool
        ensures { result ≡ list_all (λ flag. flag) self.now }
    {
        for at in 0..self.len() {
            if !self.is_set(at) {
                return false;
            }
        }
        true
    }

    /// Returns how many flags are not set.
    pub fn count_unset(&self) -> usize
        ensures { result ≡ count_by not self.now }
    {
        let mut count = 0;
        for at in 0..self.len() {
            if !self.is_set(at) {
                count += 1;
            }
        }
        count
    }

    /// Returns the first `count` flags, and the others.
    pub fn split_at(self, count: usize) -> (Flags<'a>, Flags<'a>)
        requires { count ≤ length self }
        ensures many { length result.0 ≡ count }
        ensures first { result.0 ≡ take count self.entry }
        ensures others { result.1 ≡ drop count self.entry }
    {
        let Flags { form } = self;
        match form {
            Form::Bytes(flags) => {
                let (first, others) = flags.split_at(count);
                (Flags::of(first), Flags::of(others))
            }
            Form::Bits(words, from, to) => {
                let middle = from + count;
                (
                    Flags::of_bits(words, from, middle),
                    Flags::of_bits(words, middle, to),
                )
            }
            Form::Run(set, unset) => {
                let first = set.min(count);
                let others = count - first;
                (
                    Flags::run(first, others),
                    Flags::run(set - first, unset - others),
                )
            }
        }
    }
}

/// Returns the bit at a position of some words.
fn bit_of(words: &[u64], at: usize) -> bool
    requires { at / 64 < length words.now }
    ensures { result ≡ bit_in words.now at }
{
    (words[at / 64] >> (at % 64)) & 1 == 1
}
