//! A list of flags.
ghost use Rattle.std.specs.Prelude.{◌≡◌, ◌+◌, ◌++◌, ◌∷◌, ◌<◌, [], length, slice_set, true, OnOk, OnErr};

use crate::flags::Flags;
use hlc_values::NoMemory;
use std::alloc::Global;
use std::marker::Model;

/// The number of flags in a word.
const WORD: usize = 64;

/// A list of flags, one bit for each. In contracts it is the list of them.
#[derive(Debug, Drop)]
pub struct FlagList {
    words: Vec<u64>,
    len: usize,
}

impl Model for FlagList {
    ghost use Rattle.std.specs.Prelude.{◌≡◌, ◌+◌, ◌/◌, Bool, List, length};
    ghost use Rattle.hlc_table_flags.specs.Bits.{bits_in, NoneFrom};

    ghost Value = { List Bool };

    ghost view = { λ list. bits_in list.words.items 0 list.len };

    ghost invariant = { λ list. (length list.words.items ≡ (list.len + 63) / 64)
        × NoneFrom list.words.items list.len };
}

impl FlagList {
    /// Returns a list without flags. It allocates nothing.
    pub fn new(alloc: Global) -> FlagList
        ensures { result ≡ [] }
    {
        FlagList {
            words: Vec::new(alloc),
            len: 0,
        }
    }

    /// Returns their number.
    pub fn len(&self) -> usize
        ensures { result ≡ length self.now }
    {
        self.len
    }

    /// Returns the flags, lent.
    pub fn flags(&self) -> Flags<'_>
        ensures { result ≡ self.now }
    {
        Flags::of_bits(self.words.as_slice(), 0, self.len)
    }

    /// Reserves memory for more flags.
    pub fn reserve(&mut self, more: usize) -> Result<(), NoMemory>
        ensures { self.new ≡ self.old }
    {
        self.words.reserve(more / WORD + 1)
    }

    /// Appends a flag.
    pub fn push(&mut self, flag: bool) -> Result<(), NoMemory>
        ensures ok { OnOk result (self.new ≡ self.old ++ flag ∷ []) }
        ensures unchanged { OnErr result (self.new ≡ self.old) }
    {
        let len = self.len.checked_add(1).ok_or(NoMemory)?;
        if self.len % WORD == 0 {
            self.words.push(0)?;
        }
        self.len = len;
        if flag {
            self.set(len - 1);
        }
        Ok(())
    }

    /// Sets the flag at a position.
    pub fn set(&mut self, at: usize)
        requires { at < length self.old }
        ensures { self.new ≡ slice_set self.old at true }
    {
        self.set_after(at, 0);
    }

    /// Sets the flag that is `place` positions after another one.
    pub fn set_after(&mut self, from: usize, place: usize)
        requires { from + place < length self.old }
        ensures { self.new ≡ slice_set self.old (from + place) true }
    {
        let words = &mut self.words;
        let at = from + place;
        words[at / WORD] |= 1 << (at % WORD);
    }

    /// Appends the flags of another list. If this list is empty, the other one is moved in its place, and not copied.
    pub fn append(&mut self, other: FlagList) -> Result<(), NoMemory>
        ensures { OnOk result (self.new ≡ self.old ++ other) }
    {
        if self.len == 0 {
            *self = other;
            return Ok(());
        }
        let flags = other.flags();
        for at in 0..flags.len() {
            self.push(flags.is_set(at))?;
        }
        Ok(())
    }
}
