//! The map.
ghost use Rattle.std.specs.Prelude.{◌≡◌, ◌≢◌, ◌-◌, ◌+◌, ◌<◌, ◌≤◌, ◌++◌, [], ℕ, IsTrue, None, Some, length, slice_get};
ghost use Rattle.std.specs.Prelude.{slice_index_or, All, filter, OnOk, OnErr, IfOk, IfErr, option_copied};
ghost use Rattle.std.specs.{Map.lookup, BTreeMap.insert_entry, declared.cmp.Ordering.TheVariants.Less};
ghost use Rattle.std.specs.{Borrow.Lends, Borrow.sem, List.Sorted.IsStrictlySortedBy};
ghost use Rattle.hlc_table_index.specs.contracts.index.Index.{the_row};
ghost use Rattle.hlc_table_index.specs.Entries.{key_cmp, is_key, keys_in, entries_in, with_value_in, IsEntryAt, IsGap};
ghost use Rattle.hlc_table_index.specs.Entries.{IsPlace, entries_before, entries_from};

use crate::head::head_of;
use crate::leaves::Leaves;
use hlc_bytes::Bytes;
use hlc_values::Filled;
use std::alloc::{AllocFailed, Global};
use std::cmp::Ordering;
use std::marker::Model;

/// A map from keys to values. In contracts it is its leaves, the list of the entries of each. One after another these
/// are the entries of the map, whose keys ascend byte by byte.
#[derive(Debug, Drop)]
pub struct Index<V> {
    leaves: Leaves<V>,
}

impl<V> Model for Index<V> {
    ghost use Rattle.std.specs.Prelude.{List, ℕ};
    ghost use Rattle.std.specs.List.Sorted.{IsStrictlySortedBy};
    ghost use Rattle.hlc_table_index.specs.Entries.{keys_in, entries_in, key_cmp};
    ghost use Rattle.std.specs.Coded.{coded_list, coded×, coded_ℕ};

    ghost Value = { List (List (List ℕ × V)) };

    ghost coded = { coded_list (coded_list (coded× (coded_list coded_ℕ) V.code)) };

    ghost view = { λ index. index.leaves };

    ghost invariant = { λ index. IsStrictlySortedBy key_cmp (keys_in (entries_in index.leaves)) };
}

impl<V: Drop> Index<V> {
    /// Returns a map without entries.
    pub fn new(alloc: Global) -> Index<V>
        ensures { result ≡ [] }
    {
        Index {
            leaves: Leaves::new(alloc),
        }
    }

    /// Returns the number of leaves. No leaf is empty.
    pub fn leaves(&self) -> usize
        ensures count { result ≡ length self.now }
        ensures ascend { IsStrictlySortedBy key_cmp (keys_in (entries_in self.now)) }
    {
        self.leaves.len()
    }

    /// Returns the entries of a leaf.
    pub fn leaf(&self, at: usize) -> &[(Bytes, V)]
        requires { at < length self.now }
        ensures { result.now ≡ slice_index_or self.now at [] }
    {
        self.leaves.leaf(at).entries()
    }

    /// Returns the value of a key, or none. It needs no memory.
    pub fn get(&self, key: &[u8]) -> Option<&V>
        ensures value { option_copied result ≡ lookup (is_key key.now) (entries_in self.now) }
        ensures ascend { IsStrictlySortedBy key_cmp (keys_in (entries_in self.now)) }
    {
        let head = head_of(key);
        let count = self.leaves.count_upto(key, head);
        if count == 0 {
            return None;
        }
        let leaf = self.leaves.leaf(count - 1);
        let (slot, is_there) = leaf.find(key, head);
        if is_there {
            Some(leaf.value(slot))
        } else {
            None
        }
    }

    /// Returns the leaf and the slot of a key, or as an error those where it belongs. It needs no memory.
    pub fn locate(&self, key: &[u8]) -> Result<(usize, usize), (usize, usize)>
        ensures found { IfOk result (λ place. IsEntryAt self.now key.now place.0 place.1) }
        ensures absent { IfErr result (λ _. lookup (is_key key.now) (entries_in self.now) ≡ None) }
        ensures gap { IfErr result (λ place. IsGap self.now key.now place.0 place.1) }
        ensures ascend { IsStrictlySortedBy key_cmp (keys_in (entries_in self.now)) }
    {
        let head = head_of(key);
        let count = self.leaves.count_upto(key, head);
        if count == 0 {
            return Err((0, 0));
        }
        let (slot, is_there) = self.leaves.leaf(count - 1).find(key, head);
        if is_there {
            Ok((count - 1, slot))
        } else {
            Err((count - 1, slot))
        }
    }

    /// Returns what `locate` returns. It is made for keys that ascend: it compares the key with the greatest one first.
    pub fn locate_last(&self, key: &[u8]) -> Result<(usize, usize), (usize, usize)>
        ensures found { IfOk result (λ place. IsEntryAt self.now key.now place.0 place.1) }
        ensures absent { IfErr result (λ _. lookup (is_key key.now) (entries_in self.now) ≡ None) }
        ensures gap { IfErr result (λ place. IsGap self.now key.now place.0 place.1) }
        ensures ascend { IsStrictlySortedBy key_cmp (keys_in (entries_in self.now)) }
    {
        let count = self.leaves.len();
        if count == 0 {
            return Err((0, 0));
        }
        let leaf = self.leaves.leaf(count - 1);
        let len = leaf.len();
        match leaf.key(len - 1).cmp(key) {
            Ordering::Less => Err((count - 1, len)),
            Ordering::Equal => Ok((count - 1, len - 1)),
            Ordering::Greater => self.locate(key),
        }
    }

    /// Returns what `locate` returns. It compares the key with the one at a place first, and looks it up only if they
    /// differ: so whoever guesses where a key is saves the search.
    pub fn locate_near(
        &self,
        key: &[u8],
        place: (usize, usize),
    ) -> Result<(usize, usize), (usize, usize)>
        ensures found { IfOk result (λ place. IsEntryAt self.now key.now place.0 place.1) }
        ensures absent { IfErr result (λ _. lookup (is_key key.now) (entries_in self.now) ≡ None) }
        ensures gap { IfErr result (λ place. IsGap self.now key.now place.0 place.1) }
        ensures ascend { IsStrictlySortedBy key_cmp (keys_in (entries_in self.now)) }
    {
        if self.is_at(place.0, place.1, key) {
            return Ok(place);
        }
        self.locate(key)
    }

    /// Returns whether a key is at a slot of a leaf.
    fn is_at(&self, at: usize, slot: usize, key: &[u8]) -> bool
        ensures is { IsTrue result → IsEntryAt self.now key.now at slot }
        ensures ascend { IsStrictlySortedBy key_cmp (keys_in (entries_in self.now)) }
    {
        let _ = &self.leaves;
        if at >= self.leaves.len() {
            return false;
        }
        let leaf = self.leaves.leaf(at);
        slot < leaf.len() && leaf.key(slot) == key
    }

    /// Returns the leaf and the slot of a key, or none. It needs no memory.
    pub fn find(&self, key: &[u8]) -> Option<(usize, usize)>
        ensures place { IsPlace self.now key.now result }
        ensures ascend { IsStrictlySortedBy key_cmp (keys_in (entries_in self.now)) }
    {
        match self.locate(key) {
            Ok(place) => Some(place),
            Err(_) => None,
        }
    }

    /// Returns the leaf and the slot of the first entry whose key is not below a key, or the end of its leaf if all
    /// entries of that leaf are below it. It needs no memory.
    pub fn seek(&self, key: &[u8]) -> (usize, usize)
        ensures inside { result.1 ≤ length (slice_index_or self.now result.0 []) }
        ensures whole { entries_in self.now
            ≡ entries_before self.now result.0 result.1 ++ entries_from self.now result.0 result.1 }
        ensures front { All (λ e. key_cmp e.0 key.now ≡ Less)
            (entries_before self.now result.0 result.1) }
        ensures back { All (λ e. key_cmp e.0 key.now ≢ Less)
            (entries_from self.now result.0 result.1) }
        ensures ascend { IsStrictlySortedBy key_cmp (keys_in (entries_in self.now)) }
    {
        let head = head_of(key);
        let count = self.leaves.count_upto(key, head);
        if count == 0 {
            return (0, 0);
        }
        let (slot, _) = self.leaves.leaf(count - 1).find(key, head);
        (count - 1, slot)
    }

    /// Adds an entry at the place that `locate` returned for its key. If memory runs out, the error returns the entry,
    /// and nothing is changed.
    pub fn insert_at(
        &mut self,
        at: usize,
        slot: usize,
        key: Bytes,
        value: V,
    ) -> Result<(), AllocFailed<(Bytes, V)>>
        requires { IsGap self.old key at slot }
        ensures ok { OnOk result
            (entries_in self.new ≡ insert_entry key_cmp (entries_in self.old) key value) }
        ensures unchanged { OnErr result (entries_in self.new ≡ entries_in self.old) }
        ensures value_returned { IfErr result (λ failed. failed.value ≡ (key, value)) }
    {
        let head = head_of(key.as_slice());
        let entry = (key, value);
        if self.leaves.len() == 0 {
            return self.leaves.push(entry, head);
        }
        if self.leaves.is_full_end(at, slot) {
            return self.leaves.push(entry, head);
        }
        self.leaves.put(at, slot, entry, head)
    }

    /// Lends the value of an entry for a change. The leaf and the slot must exist.
    pub fn value_mut(&mut self, at: usize, slot: usize) -> &mut V
        requires leaf { at < length self.old }
        requires inside { slot < length (slice_index_or self.old at []) }
        ensures* lends { sem 𝓛 (Lends (the_row V.row) V.row self.entry result
            (with_value_in self.old at slot)) }
        ensures value { slice_get (slice_index_or self.old at []) slot
            ≡ Some (slice_index_or (keys_in (slice_index_or self.old at [])) slot [], result.now) }
        ensures ascend { IsStrictlySortedBy key_cmp (keys_in (entries_in self.old)) }
    {
        self.leaves.value_mut(at, slot)
    }

    /// Removes the entry at a slot of a leaf, and the leaf if that is left without entries. It needs no memory.
    pub fn remove(&mut self, at: usize, slot: usize)
        requires leaf { at < length self.old }
        requires inside { slot < length (slice_index_or self.old at []) }
        ensures { entries_in self.new ≡ entries_before self.old at slot ++ entries_from self.old at (slot + 1) }
    {
        self.leaves.remove(at, slot);
    }
}

impl<V: Drop + Filled> Index<V> {
    /// Removes the entries whose value is not filled. It needs no memory. A leaf that is left without entries is
    /// removed too.
    pub fn keep_filled(&mut self)
        ensures { entries_in self.new ≡ filter (λ e. V.is_filled e.1) (entries_in self.old) }
    {
        self.leaves.keep_filled();
    }
}
