//! A leaf: some entries of the map in the order of their keys, with the heads of the keys side by side.
ghost use Rattle.std.specs.Prelude.{◌≡◌, ◌++◌, ◌+◌, ◌-◌, ◌≤◌, ◌<◌, [], List, length, slice_index_or, All, OnErr, IfOk};
ghost use Rattle.std.specs.Prelude.{IfErr, OnOk, take, drop, slice_get, Some, map, filter};
ghost use Rattle.std.specs.{List.insert, Borrow.Lends, Borrow.sem};
ghost use Rattle.hlc_table_index.specs.{Head.head_of, Head.AreBytes, contracts.leaf.Leaf.the_row};
ghost use Rattle.hlc_table_index.specs.Entries.{keys_in, IsSlot, IsBelowAt, with_value};

use crate::head::{compare_alike, head_of, place_of_head};
use hlc_bytes::Bytes;
use hlc_values::{Filled, NoMemory};
use std::alloc::{AllocFailed, Global};
use std::cmp::Ordering;
use std::marker::Model;

/// The maximum number of entries of a leaf.
pub(crate) const MAX_ENTRIES: usize = 128;

/// Some entries in the order of their keys. In contracts it is the list of them.
#[derive(Debug, Drop)]
pub(crate) struct Leaf<V> {
    heads: Vec<u128>,
    entries: Vec<(Bytes, V)>,
}

impl<V> Model for Leaf<V> {
    ghost use Rattle.std.specs.Prelude.{◌≡◌, List, ℕ, All, map};
    ghost use Rattle.hlc_table_index.specs.Head.{head_of, AreBytes};
    ghost use Rattle.hlc_table_index.specs.Entries.{keys_in};
    ghost use Rattle.std.specs.Coded.{coded_list, coded×, coded_ℕ};

    ghost Value = { List (List ℕ × V) };

    ghost coded = { coded_list (coded× (coded_list coded_ℕ) V.code) };

    ghost view = { λ leaf. leaf.entries.items };

    ghost invariant = { λ leaf. (leaf.heads.items ≡ map head_of (keys_in leaf.entries.items))
        × All AreBytes (keys_in leaf.entries.items) };
}

impl<V> Leaf<V> {
    /// Returns a leaf without entries.
    pub(crate) fn new(alloc: Global) -> Leaf<V>
        ensures { result ≡ [] }
    {
        Leaf {
            heads: Vec::new(alloc),
            entries: Vec::new(alloc),
        }
    }

    /// Returns the number of entries.
    pub(crate) fn len(&self) -> usize
        ensures { result ≡ length self.now }
    {
        self.entries.len()
    }

    /// Returns the entries.
    pub(crate) fn entries(&self) -> &[(Bytes, V)]
        ensures { result.now ≡ self.now }
    {
        self.entries.as_slice()
    }

    /// Returns the key at a slot.
    pub(crate) fn key(&self, slot: usize) -> &[u8]
        requires { slot < length self.now }
        ensures { result.now ≡ slice_index_or (keys_in self.now) slot [] }
    {
        let entry = &self.entries[slot];
        entry.0.as_slice()
    }

    /// Returns the slot of a key, or the slot where it belongs, and whether it is there. Heads
    /// decide; if they are equal, whole keys do.
    pub(crate) fn find(&self, key: &[u8], head: u128) -> (usize, bool)
        requires head { head ≡ head_of key.now }
        requires bytes { AreBytes key.now }
        ensures { IsSlot (keys_in self.now) key.now result.0 result.1 }
    {
        let (first, is_alike) = place_of_head(self.heads.as_slice(), head);
        if !is_alike {
            return (first, false);
        }
        match compare_alike(self.key(first), key) {
            Ordering::Equal => (first, true),
            Ordering::Greater => (first, false),
            Ordering::Less => self.find_from(first + 1, key),
        }
    }

    /// Returns the same, searching from a slot on by whole keys.
    fn find_from(&self, from: usize, key: &[u8]) -> (usize, bool)
        requires inside { from ≤ length self.now }
        requires below { IsBelowAt (keys_in self.now) from key.now }
        ensures { IsSlot (keys_in self.now) key.now result.0 result.1 }
    {
        let mut low = from;
        let mut high = self.len();
        while low < high {
            let middle = low + (high - low) / 2;
            match self.key(middle).cmp(key) {
                Ordering::Less => low = middle + 1,
                Ordering::Equal => return (middle, true),
                Ordering::Greater => high = middle,
            }
        }
        (low, false)
    }

    /// Returns a leaf without entries that has the capacity for a full one.
    pub(crate) fn with_room(alloc: Global) -> Result<Leaf<V>, NoMemory>
        ensures { IfOk result (λ leaf. leaf ≡ []) }
    {
        let heads = Vec::with_capacity(alloc, MAX_ENTRIES)?;
        let entries = Vec::with_capacity(alloc, MAX_ENTRIES)?;
        Ok(Leaf { heads, entries })
    }

    /// Inserts an entry at a slot. If memory runs out, the error returns the entry, and nothing is
    /// changed.
    pub(crate) fn insert(
        &mut self,
        slot: usize,
        entry: (Bytes, V),
        head: u128,
    ) -> Result<(), AllocFailed<(Bytes, V)>>
        requires inside { slot ≤ length self.old }
        requires head { head ≡ head_of entry.0 }
        requires bytes { AreBytes entry.0 }
        ensures ok { OnOk result (self.new ≡ insert self.old slot entry) }
        ensures unchanged { OnErr result (self.new ≡ self.old) }
        ensures value_returned { IfErr result (λ failed. failed.value ≡ entry) }
    {
        let Ok(()) = self.heads.reserve(1) else {
            return Err(AllocFailed { value: entry });
        };
        match self.entries.insert(slot, entry) {
            Err(failed) => Err(failed),
            Ok(()) => match self.heads.insert(slot, head) {
                Ok(()) => Ok(()),
                Err(_) => unreachable!(),
            },
        }
    }

    /// Moves the entries from a slot on into a leaf of their own, which it returns. If memory runs out, nothing is
    /// changed.
    pub(crate) fn split_off(&mut self, alloc: Global, slot: usize) -> Result<Leaf<V>, NoMemory>
        requires { slot ≤ length self.old }
        ensures ok { OnOk result (self.new ≡ take slot self.old) }
        ensures back { IfOk result (λ back. back ≡ drop slot self.old) }
        ensures unchanged { OnErr result (self.new ≡ self.old) }
    {
        let mut heads = Vec::with_capacity(alloc, MAX_ENTRIES)?;
        heads.extend_from_slice(&self.heads[slot..])?;
        let entries = self.entries.split_off(slot)?;
        self.heads.truncate(slot);
        Ok(Leaf { heads, entries })
    }

    /// Returns the value at a slot.
    pub(crate) fn value(&self, slot: usize) -> &V
        requires { slot < length self.now }
        ensures { slice_get self.now slot ≡ Some (slice_index_or (keys_in self.now) slot [], result.now) }
    {
        let entry = &self.entries[slot];
        &entry.1
    }

    /// Returns the head of the key at a slot.
    pub(crate) fn head(&self, slot: usize) -> u128
        requires { slot < length self.now }
        ensures value { result ≡ head_of (slice_index_or (keys_in self.now) slot []) }
        ensures bytes { All AreBytes (keys_in self.now) }
    {
        self.heads[slot]
    }

    /// Lends the value at a slot for a change.
    pub(crate) fn value_mut(&mut self, slot: usize) -> &mut V
        requires { slot < length self.old }
        ensures* lends { sem 𝓛 (Lends (the_row V.row) V.row self.entry result
            (with_value self.old slot)) }
        ensures value { slice_get self.old slot
            ≡ Some (slice_index_or (keys_in self.old) slot [], result.now) }
    {
        let entry = &mut self.entries[slot];
        &mut entry.1
    }
}

impl<V: Drop> Leaf<V> {
    /// Removes the entry at a slot. It needs no memory.
    pub(crate) fn remove(&mut self, slot: usize)
        requires { slot < length self.old }
        ensures { self.new ≡ take slot self.old ++ drop (slot + 1) self.old }
    {
        self.heads.remove(slot);
        self.entries.remove(slot);
    }
}

impl<V: Drop + Filled> Leaf<V> {
    /// Removes the entries whose value is not filled. It needs no memory.
    pub(crate) fn keep_filled(&mut self)
        ensures { self.new ≡ filter (λ e. V.is_filled e.1) self.old }
    {
        let kept = move_filled(self.heads.as_mut_slice(), self.entries.as_mut_slice());
        self.heads.truncate(kept);
        self.entries.truncate(kept);
    }
}

/// Moves the entries whose value is filled to the front, in their order, and their heads with them. Returns their
/// number.
fn move_filled<V: Filled>(heads: &mut [u128], entries: &mut [(Bytes, V)]) -> usize
    requires { heads.old ≡ map head_of (keys_in entries.old) }
    ensures few { result ≤ length entries.new }
    ensures heads { heads.new ≡ map head_of (keys_in entries.new) }
    ensures front { take result entries.new ≡ filter (λ e. V.is_filled e.1) entries.old }
{
    let mut kept = 0;
    for i in 0..entries.len() {
        if entries[i].1.is_filled() {
            heads.swap(kept, i);
            entries.swap(kept, i);
            kept += 1;
        }
    }
    kept
}
