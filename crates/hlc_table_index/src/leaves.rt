//! Leaves side by side, and the heads of their first keys.
ghost use Rattle.std.specs.Prelude.{◌≡◌, ◌-◌, ◌+◌, ◌++◌, ◌∷◌, ◌≤◌, ◌<◌, [], List, length, slice_index_or, All, IsTrue};
ghost use Rattle.std.specs.Prelude.{OnErr, IfErr, OnOk, take, drop, slice_set, map, filter, slice_get, Some};
ghost use Rattle.std.specs.{List.insert, Borrow.Lends, Borrow.sem};
ghost use Rattle.hlc_table_index.specs.{Head.head_of, Head.AreBytes, contracts.leaves.Leaves.the_row};
ghost use Rattle.hlc_table_index.specs.Entries.{keys_in, first_keys, IsUptoAt, IsAboveAt, entries_in, entries_with};
ghost use Rattle.hlc_table_index.specs.Entries.{with_value_in, entries_before, entries_from};

use crate::head::{compare_alike, place_of_head};
use crate::leaf::{Leaf, MAX_ENTRIES};
use hlc_bytes::Bytes;
use hlc_values::{Filled, NoMemory};
use std::alloc::{AllocFailed, Global};
use std::cmp::Ordering;
use std::marker::Model;

/// A full leaf is split into two at this slot.
const HALF: usize = MAX_ENTRIES / 2;

/// Leaves side by side, none of them empty. In contracts it is the list of them.
#[derive(Debug, Drop)]
pub(crate) struct Leaves<V> {
    alloc: Global,
    tops: Vec<u128>,
    leaves: Vec<Leaf<V>>,
}

impl<V> Model for Leaves<V> {
    ghost use Rattle.std.specs.Prelude.{◌≡◌, ◌<◌, List, ℕ, All, map, length};
    ghost use Rattle.hlc_table_index.specs.Head.{head_of, AreBytes};
    ghost use Rattle.hlc_table_index.specs.Entries.{first_keys, first_key};
    ghost use Rattle.std.specs.Coded.{coded_list, coded×, coded_ℕ};

    ghost Value = { List (List (List ℕ × V)) };

    ghost coded = { coded_list (coded_list (coded× (coded_list coded_ℕ) V.code)) };

    ghost view = { λ all. all.leaves.items };

    ghost invariant = { λ all. (all.tops.items ≡ map head_of (first_keys all.leaves.items))
        × All AreBytes (first_keys all.leaves.items) × All (λ leaf. 0 < length leaf) all.leaves.items };
}

impl<V: Drop> Leaves<V> {
    /// Returns a list of no leaves.
    pub(crate) fn new(alloc: Global) -> Leaves<V>
        ensures { result ≡ [] }
    {
        Leaves {
            alloc,
            tops: Vec::new(alloc),
            leaves: Vec::new(alloc),
        }
    }

    /// Returns the number of leaves.
    pub(crate) fn len(&self) -> usize
        ensures { result ≡ length self.now }
    {
        self.leaves.len()
    }

    /// Returns a leaf. It has an entry.
    pub(crate) fn leaf(&self, at: usize) -> &Leaf<V>
        requires { at < length self.now }
        ensures value { result.now ≡ slice_index_or self.now at [] }
        ensures filled { 0 < length result.now }
    {
        let _ = &self.tops;
        &self.leaves[at]
    }

    /// Returns the number of leaves at the front that begin at or below a key.
    pub(crate) fn count_upto(&self, key: &[u8], head: u128) -> usize
        requires head { head ≡ head_of key.now }
        requires bytes { AreBytes key.now }
        ensures inside { result ≤ length self.now }
        ensures upto { IsUptoAt (first_keys self.now) result key.now }
        ensures above { IsAboveAt (first_keys self.now) result key.now }
        ensures filled { All (λ leaf. 0 < length leaf) self.now }
    {
        let (place, is_alike) = place_of_head(self.tops.as_slice(), head);
        if !is_alike {
            return place;
        }
        self.count_alike(place, key, head)
    }

    /// Returns the same if a leaf begins with the head of the key, and all leaves before it with a
    /// lower one.
    fn count_alike(&self, place: usize, key: &[u8], head: u128) -> usize
        requires inside { place < length self.now }
        requires alike { head_of (slice_index_or (first_keys self.now) place []) ≡ head }
        requires upto { IsUptoAt (first_keys self.now) place key.now }
        requires head { head ≡ head_of key.now }
        requires bytes { AreBytes key.now }
        ensures inside { result ≤ length self.now }
        ensures upto { IsUptoAt (first_keys self.now) result key.now }
        ensures above { IsAboveAt (first_keys self.now) result key.now }
    {
        let count = self.len();
        if place + 1 < count && !self.is_above(place + 1, key, head) {
            return self.count_from(place, key);
        }
        match compare_alike(self.first_key(place), key) {
            Ordering::Greater => place,
            _ => place + 1,
        }
    }

    /// Returns whether the head of a key shows that a leaf begins above the key.
    fn is_above(&self, at: usize, key: &[u8], head: u128) -> bool
        requires inside { at < length self.now }
        requires head { head ≡ head_of key.now }
        requires bytes { AreBytes key.now }
        ensures { IsTrue result → IsAboveAt (first_keys self.now) at key.now }
    {
        self.tops[at] > head
    }

    /// Returns the first key of a leaf.
    fn first_key(&self, at: usize) -> &[u8]
        requires { at < length self.now }
        ensures key { result.now ≡ slice_index_or (first_keys self.now) at [] }
        ensures bytes { AreBytes result.now }
    {
        let _ = &self.tops;
        self.leaves[at].key(0)
    }

    /// Returns the same, searching from a leaf on by whole keys.
    fn count_from(&self, from: usize, key: &[u8]) -> usize
        requires inside { from ≤ length self.now }
        requires upto { IsUptoAt (first_keys self.now) from key.now }
        ensures inside { result ≤ length self.now }
        ensures upto { IsUptoAt (first_keys self.now) result key.now }
        ensures above { IsAboveAt (first_keys self.now) result key.now }
    {
        let mut low = from;
        let mut high = self.len();
        while low < high {
            let middle = low + (high - low) / 2;
            if self.first_key(middle).cmp(key) == Ordering::Greater {
                high = middle;
            } else {
                low = middle + 1;
            }
        }
        low
    }

    /// Returns whether a slot is the end of all entries and its leaf is full.
    pub(crate) fn is_full_end(&self, at: usize, slot: usize) -> bool
        requires { at < length self.now }
        ensures last { IsTrue result → length self.now ≡ at + 1 }
        ensures end { IsTrue result → slot ≡ length (slice_index_or self.now at []) }
    {
        let last = self.len() - 1;
        at == last && slot >= MAX_ENTRIES && slot == self.leaf(at).len()
    }

    /// Inserts an entry into a leaf. If memory runs out, the error returns the entry, and nothing
    /// is changed.
    pub(crate) fn insert(
        &mut self,
        at: usize,
        slot: usize,
        entry: (Bytes, V),
        head: u128,
    ) -> Result<(), AllocFailed<(Bytes, V)>>
        requires leaf { at < length self.old }
        requires inside { slot ≤ length (slice_index_or self.old at []) }
        requires head { head ≡ head_of entry.0 }
        requires bytes { AreBytes entry.0 }
        ensures ok { OnOk result (self.new
            ≡ slice_set self.old at (insert (slice_index_or self.old at []) slot entry)) }
        ensures unchanged { OnErr result (self.new ≡ self.old) }
        ensures value_returned { IfErr result (λ failed. failed.value ≡ entry) }
    {
        self.leaves[at].insert(slot, entry, head)?;
        if slot == 0 {
            self.tops[at] = head;
        }
        Ok(())
    }

    /// Adds a leaf with one entry at the end. If memory runs out, the error returns the entry, and nothing is changed.
    pub(crate) fn push(
        &mut self,
        entry: (Bytes, V),
        head: u128,
    ) -> Result<(), AllocFailed<(Bytes, V)>>
        requires head { head ≡ head_of entry.0 }
        requires bytes { AreBytes entry.0 }
        ensures ok { OnOk result (self.new ≡ self.old ++ (entry ∷ []) ∷ []) }
        ensures unchanged { OnErr result (self.new ≡ self.old) }
        ensures value_returned { IfErr result (λ failed. failed.value ≡ entry) }
    {
        let Ok(()) = self.tops.reserve(1) else {
            return Err(AllocFailed { value: entry });
        };
        let Ok(()) = self.leaves.reserve(1) else {
            return Err(AllocFailed { value: entry });
        };
        let Ok(mut leaf) = Leaf::with_room(self.alloc) else {
            return Err(AllocFailed { value: entry });
        };
        leaf.insert(0, entry, head)?;
        self.tops.push_reserved(head);
        self.leaves.push_reserved(leaf);
        Ok(())
    }

    /// Splits a leaf into two at a slot. If memory runs out, nothing is changed.
    pub(crate) fn split(&mut self, at: usize, slot: usize) -> Result<(), NoMemory>
        requires leaf { at < length self.old }
        requires front { 0 < slot }
        requires back { slot < length (slice_index_or self.old at []) }
        ensures ok { OnOk result (self.new ≡ insert
            (slice_set self.old at (take slot (slice_index_or self.old at []))) (at + 1)
            (drop slot (slice_index_or self.old at []))) }
        ensures unchanged { OnErr result (self.new ≡ self.old) }
    {
        self.tops.reserve(1)?;
        self.leaves.reserve(1)?;
        let head = self.leaves[at].head(slot);
        let back = self.leaves[at].split_off(self.alloc, slot)?;
        let Ok(()) = self.tops.insert(at + 1, head) else {
            unreachable!()
        };
        let Ok(()) = self.leaves.insert(at + 1, back) else {
            unreachable!()
        };
        Ok(())
    }

    /// Inserts an entry into a leaf, which is split into two if it is full. If memory runs out, the error returns the
    /// entry, and the entries do not change.
    pub(crate) fn put(
        &mut self,
        at: usize,
        slot: usize,
        entry: (Bytes, V),
        head: u128,
    ) -> Result<(), AllocFailed<(Bytes, V)>>
        requires leaf { at < length self.old }
        requires inside { slot ≤ length (slice_index_or self.old at []) }
        requires head { head ≡ head_of entry.0 }
        requires bytes { AreBytes entry.0 }
        ensures ok { OnOk result (entries_in self.new ≡ entries_with self.old at slot entry) }
        ensures unchanged { OnErr result (entries_in self.new ≡ entries_in self.old) }
        ensures value_returned { IfErr result (λ failed. failed.value ≡ entry) }
    {
        // Reading the list bounds the number of leaves.
        let _known = self.len();
        if self.leaf(at).len() < MAX_ENTRIES {
            return self.insert(at, slot, entry, head);
        }
        let Ok(()) = self.split(at, HALF) else {
            return Err(AllocFailed { value: entry });
        };
        if slot <= HALF {
            self.insert(at, slot, entry, head)
        } else {
            self.insert(at + 1, slot - HALF, entry, head)
        }
    }

    /// Lends the value at a slot of a leaf for a change.
    pub(crate) fn value_mut(&mut self, at: usize, slot: usize) -> &mut V
        requires leaf { at < length self.old }
        requires inside { slot < length (slice_index_or self.old at []) }
        ensures* lends { sem 𝓛 (Lends (the_row V.row) V.row self.entry result
            (with_value_in self.old at slot)) }
        ensures value { slice_get (slice_index_or self.old at []) slot
            ≡ Some (slice_index_or (keys_in (slice_index_or self.old at [])) slot [], result.now) }
    {
        let leaf = &mut self.leaves[at];
        leaf.value_mut(slot)
    }

    /// Removes the entry at a slot of a leaf, and the leaf if that is left without entries. It needs no memory.
    pub(crate) fn remove(&mut self, at: usize, slot: usize)
        requires leaf { at < length self.old }
        requires inside { slot < length (slice_index_or self.old at []) }
        ensures { entries_in self.new ≡ entries_before self.old at slot ++ entries_from self.old at (slot + 1) }
    {
        self.leaves[at].remove(slot);
        if self.leaves[at].len() == 0 {
            self.tops.remove(at);
            self.leaves.remove(at);
        } else if slot == 0 {
            self.tops[at] = self.leaves[at].head(0);
        }
    }
}

impl<V: Drop + Filled> Leaves<V> {
    /// Removes the entries whose value is not filled, and the leaves that are left without entries. It needs no memory.
    pub(crate) fn keep_filled(&mut self)
        ensures { entries_in self.new ≡ filter (λ e. V.is_filled e.1) (entries_in self.old) }
    {
        let kept = move_filled(self.tops.as_mut_slice(), self.leaves.as_mut_slice());
        self.tops.truncate(kept);
        self.leaves.truncate(kept);
    }
}

/// Removes the entries whose value is not filled, and moves the leaves that still have an entry to the front, in their
/// order, with the heads of their first keys. Returns their number.
fn move_filled<V: Drop + Filled>(tops: &mut [u128], leaves: &mut [Leaf<V>]) -> usize
    requires { length tops.old ≡ length leaves.old }
    ensures few { result ≤ length leaves.new }
    ensures tops { take result tops.new ≡ map head_of (first_keys (take result leaves.new)) }
    ensures bytes { All AreBytes (first_keys (take result leaves.new)) }
    ensures filled { All (λ leaf. 0 < length leaf) (take result leaves.new) }
    ensures entries { entries_in (take result leaves.new)
        ≡ filter (λ e. V.is_filled e.1) (entries_in leaves.old) }
{
    let mut kept = 0;
    for i in 0..leaves.len() {
        leaves[i].keep_filled();
        if leaves[i].len() > 0 {
            tops[kept] = leaves[i].head(0);
            leaves.swap(kept, i);
            kept += 1;
        }
    }
    kept
}
