//! A few rows of one key in one block of memory.
ghost use Rattle.std.specs.Prelude.{◌≡◌, ◌+◌, ◌<◌, ◌≤◌, ◌++◌, ◌∷◌, [], length, take, drop, slice_get, Some};
ghost use Rattle.std.specs.List.{items_where_true};

use crate::flags::move_flagged;
use crate::lanes::{Lanes, item_at};
use crate::lists::Lists;
use crate::single::Single;
use hlc_rows::ValueOrMark;
use hlc_table_flags::Flags;
use std::marker::Model;
use std::mem::replace;

/// At most `N` rows of one key in arrival order, in one block without an index. A place without a row has a deletion
/// mark. In contracts it is the list of their cells.
#[derive(Debug, Drop)]
pub(crate) struct Few<const N: usize> {
    len: u8,
    nodes: [u16; N],
    stamps: [u64; N],
    values: [ValueOrMark; N],
}

impl<const N: usize> Model for Few<N> {
    ghost use Rattle.std.specs.Prelude.{◌≡◌, ◌≤◌, List, length, take};
    ghost use Rattle.hlc_table_column.specs.Cells.{Cell, cells_of};

    ghost Value = { List Cell };

    ghost view = { λ few. cells_of (take few.len few.stamps) (take few.len few.nodes)
        (take few.len few.values) };

    ghost invariant = { λ few. (few.len ≤ N) × (N ≤ 255) × (length few.stamps ≡ N)
        × (length few.nodes ≡ N) × (length few.values ≡ N) };
}

impl<const N: usize> Few<N> {
    /// Returns a block without a row.
    pub(crate) fn new() -> Few<N>
        requires { N ≤ 255 }
        ensures { result ≡ [] }
    {
        Few {
            len: 0,
            nodes: [0; N],
            stamps: [0; N],
            values: Default::default(),
        }
    }

    /// Returns the rows, lent.
    pub(crate) fn lanes(&self) -> Lanes<'_>
        ensures rows { result ≡ self.now }
        ensures few { length self.now ≤ N }
    {
        let len = self.len as usize;
        Lanes::new(
            &self.stamps[..len],
            &self.nodes[..len],
            &self.values[..len],
            &[],
        )
    }

    /// Returns the number of rows.
    pub(crate) fn len(&self) -> usize
        ensures count { result ≡ length self.now }
        ensures few { result ≤ N }
    {
        self.lanes().len()
    }

    /// Reads the first stamp and whether the first and the last place have a value, which lie in all of the block's
    /// lines of memory but those between. Where they lie does not depend on what the block has, so no such read waits
    /// for another. The number has no meaning, as with `Rows::fetched`.
    #[inline]
    pub(crate) fn fetched(&self) -> u64 {
        let stamp = self.stamps.first().copied().unwrap_or(0);
        let first = self.values.first().map_or(0, is_value);
        let last = self.values.last().map_or(0, is_value);
        stamp.wrapping_add(first).wrapping_add(last)
    }

    /// Appends a row, for which there must be room.
    pub(crate) fn push(&mut self, row: Single)
        requires { length self.old < N }
        ensures { self.new ≡ self.old ++ row ∷ [] }
    {
        let Single { node, stamp, value } = row;
        let len = self.len as usize;
        self.nodes[len] = node;
        self.stamps[len] = stamp;
        self.values[len] = value;
        self.len += 1;
    }

    /// Returns the only row.
    pub(crate) fn into_row(self) -> Single
        requires { length self ≡ 1 }
        ensures { self.entry ≡ result ∷ [] }
    {
        let mut from = self;
        from.take_row(0)
    }

    /// Moves the rows to the end of a block for four with room for them.
    pub(crate) fn pour(self, to: &mut Few<4>)
        requires { N + length to.old ≤ 4 }
        ensures rows { to.new ≡ to.old ++ self.entry }
        ensures few { length self.entry ≤ N }
    {
        let mut from = self;
        for place in 0..from.len() {
            to.push(from.take_row(place));
        }
    }

    /// Moves the rows to the end of lists with room for them.
    pub(crate) fn pour_in_lists(self, to: &mut Lists<0>)
        requires { N + length to.old.cells ≤ to.old.room }
        ensures rows { to.new ≡ record { cells = to.old.cells ++ self.entry; room = to.old.room } }
        ensures few { length self.entry ≤ N }
    {
        let mut from = self;
        for place in 0..from.len() {
            to.push_reserved(from.take_row(place));
        }
    }

    /// Takes the row at a position, and leaves a deletion mark in place of its value.
    fn take_row(&mut self, place: usize) -> Single
        requires { place < length self.old }
        ensures row { slice_get self.old place ≡ Some result }
        ensures after { drop (place + 1) self.new ≡ drop (place + 1) self.old }
        ensures long { length self.new ≡ length self.old }
    {
        Single {
            node: item_at(&self.nodes, place),
            stamp: item_at(&self.stamps, place),
            value: take_value(&mut self.values, place),
        }
    }

    /// Keeps only the flagged rows, in their order.
    pub(crate) fn keep(&mut self, keep: &Flags<'_>)
        requires { length keep.now ≡ length self.old }
        ensures { self.new ≡ items_where_true keep.now self.old }
    {
        move_flagged(&mut self.nodes, keep);
        move_flagged(&mut self.stamps, keep);
        let kept = move_flagged(&mut self.values, keep);
        set_marks(&mut self.values, kept);
        self.len = kept as u8;
    }
}

/// Returns 1 for a value and 0 for a deletion mark.
#[inline]
fn is_value(value: &ValueOrMark) -> u64 {
    value.as_slice().is_some() as u64
}

/// Takes the value at a position, and leaves a deletion mark in its place.
fn take_value(values: &mut [ValueOrMark], place: usize) -> ValueOrMark
    requires { place < length values.old }
    ensures value { slice_get values.old place ≡ Some result }
    ensures after { drop (place + 1) values.new ≡ drop (place + 1) values.old }
    ensures long { length values.new ≡ length values.old }
{
    replace(&mut values[place], ValueOrMark::default())
}

/// Sets the values from a position on to deletion marks, which frees their memory.
fn set_marks(values: &mut [ValueOrMark], from: usize)
    ensures front { take from values.new ≡ take from values.old }
    ensures long { length values.new ≡ length values.old }
{
    for place in from..values.len() {
        values[place] = ValueOrMark::default();
    }
}
