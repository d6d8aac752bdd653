//! The rows of one key in lists that grow.
ghost use Rattle.std.specs.Prelude.{◌≡◌, ◌+◌, ◌/◌, ◌≤◌, ◌<◌, ◌⊎◌, ◌++◌, ◌∷◌, [], length, max, nat_lt, IsOk, IfOk, OnOk};
ghost use Rattle.std.specs.Prelude.{OnErr};
ghost use Rattle.std.specs.List.{items_where_true};
ghost use Rattle.smallvec.specs.SmallVec.{HasRoomFor};

use crate::flags::keep_flagged;
use crate::lanes::{Lanes, item_at};
use crate::single::Single;
use hlc_rows::ValueOrMark;
use hlc_table_flags::Flags;
use hlc_table_order::{extend_index, index_again};
use hlc_values::NoMemory;
use smallvec::SmallVec;
use std::alloc::Global;
use std::default::MadeWith;
use std::marker::Model;

/// The rows of one key in arrival order, in lists side by side, the first `N` in place. From 17 rows on there is an
/// index of the first of them by stamp and node, which needs four bytes for each row. In contracts it is the list of
/// their cells, with the number of rows that fit without more memory.
#[derive(Debug, Drop)]
pub(crate) struct Lists<const N: usize> {
    stamps: SmallVec<u64, N>,
    nodes: SmallVec<u16, N>,
    values: SmallVec<ValueOrMark, N>,
    order: Vec<u32>,
}

impl<const N: usize> Model for Lists<N> {
    ghost use Rattle.std.specs.Prelude.{min};
    ghost use Rattle.hlc_table_column.specs.Cells.{CellsWithRoom, cells_of, AreBeside};
    ghost use Rattle.hlc_table_order.specs.Order.{IsIndex};

    ghost Value = { CellsWithRoom };

    ghost view = { λ l. record {
      cells = cells_of l.stamps.items l.nodes.items l.values.items;
      room = min l.stamps.capacity (min l.nodes.capacity l.values.capacity);
    } };

    ghost invariant = { λ l. AreBeside l.stamps.items l.nodes.items l.values.items
        × IsIndex l.stamps.items l.nodes.items l.order.items };
}

impl<const N: usize> Lists<N> {
    /// Returns lists without a row, which need no memory.
    pub(crate) fn new(alloc: Global) -> Lists<N>
        ensures { result ≡ record { cells = []; room = N } }
    {
        Lists {
            stamps: SmallVec::new(alloc),
            nodes: SmallVec::new(alloc),
            values: SmallVec::new(alloc),
            order: Vec::new(alloc),
        }
    }

    /// Returns lists without a row, with room for this many.
    pub(crate) fn with_room(alloc: Global, count: usize) -> Result<Lists<N>, NoMemory>
        ensures cells { IfOk result (λ lists. lists.cells ≡ []) }
        ensures room { IfOk result (λ lists. count ≤ lists.room) }
    {
        Ok(Lists {
            stamps: SmallVec::with_capacity(alloc, count)?,
            nodes: SmallVec::with_capacity(alloc, count)?,
            values: SmallVec::with_capacity(alloc, count)?,
            order: Vec::new(alloc),
        })
    }

    /// Returns the number of rows.
    pub(crate) fn len(&self) -> usize
        ensures { result ≡ length self.now.cells }
    {
        self.stamps.len()
    }

    /// Returns the rows, lent.
    pub(crate) fn lanes(&self) -> Lanes<'_>
        ensures { result ≡ self.now.cells }
    {
        Lanes::new(
            self.stamps.as_slice(),
            self.nodes.as_slice(),
            self.values.as_slice(),
            self.order.as_slice(),
        )
    }

    /// Returns whether one more row fits without more memory.
    pub(crate) fn has_room(&self) -> bool
        ensures { result ≡ nat_lt (length self.now.cells) self.now.room }
    {
        let nodes_or_values = self.nodes.capacity().min(self.values.capacity());
        self.len() < self.stamps.capacity().min(nodes_or_values)
    }

    /// Makes room for one more row. If memory runs out, the rows stay as they were.
    pub(crate) fn reserve(&mut self) -> Result<(), NoMemory>
        ensures cells { self.new.cells ≡ self.old.cells }
        ensures ok { OnOk result (length self.new.cells < self.new.room) }
        ensures room { self.old.room ≤ self.new.room }
        ensures succeeds { length self.old.cells < self.old.room → IsOk result }
    {
        make_room(&mut self.stamps)?;
        make_room(&mut self.nodes)?;
        make_room(&mut self.values)?;
        Ok(())
    }

    /// Appends a row, for which there must be room. If memory for the index runs out, the index stays as it was, and
    /// reads scan more rows until a later row extends it.
    pub(crate) fn push_reserved(&mut self, row: Single)
        requires { length self.old.cells < self.old.room }
        ensures { self.new ≡ record { cells = self.old.cells ++ row ∷ []; room = self.old.room } }
    {
        let Single { node, stamp, value } = row;
        self.stamps.push_reserved(stamp);
        self.nodes.push_reserved(node);
        self.values.push_reserved(value);
        extend_index(
            &mut self.order,
            self.stamps.as_slice(),
            self.nodes.as_slice(),
        );
    }

    /// Keeps only the flagged rows, in their order. It needs no memory, and sorts the index if a row was dropped.
    pub(crate) fn keep(&mut self, keep: &Flags<'_>)
        requires { length keep.now ≡ length self.old.cells }
        ensures { self.new ≡ record {
          cells = items_where_true keep.now self.old.cells;
          room = self.old.room;
        } }
    {
        let count = self.stamps.len();
        keep_flagged(&mut self.stamps, keep);
        keep_flagged(&mut self.nodes, keep);
        keep_flagged(&mut self.values, keep);
        if self.stamps.len() < count {
            index_again(
                &mut self.order,
                self.stamps.as_slice(),
                self.nodes.as_slice(),
            );
        }
    }

    /// Gives back what is not used of the lists: of a list that is at most half full, and of the index. Up to `N` rows
    /// move back in place.
    pub(crate) fn shrink(&mut self)
        ensures cells { self.new.cells ≡ self.old.cells }
        ensures room { N ≤ self.old.room → N ≤ self.new.room }
    {
        shrink(&mut self.stamps);
        shrink(&mut self.nodes);
        shrink(&mut self.values);
        self.order.shrink_to_fit();
    }

    /// Returns the only row.
    pub(crate) fn into_row(self) -> Single
        requires { length self.cells ≡ 1 }
        ensures { self.entry.cells ≡ result ∷ [] }
    {
        let Lists {
            stamps,
            nodes,
            values,
            order: _,
        } = self;
        let mut values = values;
        let Some(value) = values.pop() else {
            unreachable!()
        };
        let stamp = item_at(stamps.as_slice(), 0);
        let node = item_at(nodes.as_slice(), 0);
        Single { node, stamp, value }
    }
}

/// Makes room for one more item. If there is none, it reserves room for half as many more, and at least four: with
/// twice as many, a third of the memory of the lists would stay unused.
fn make_room<T: MadeWith<Global> + Drop, const N: usize>(
    items: &mut SmallVec<T, N>,
) -> Result<(), NoMemory>
    ensures items { items.new.items ≡ items.old.items }
    ensures ok { OnOk result (HasRoomFor items.new 1) }
    ensures capacity { items.old.capacity ≤ items.new.capacity }
    ensures growth { OnOk result (HasRoomFor items.old 1
        ⊎ (length items.old.items + max 4 (length items.old.items / 2) ≤ items.new.capacity)) }
    ensures succeeds { HasRoomFor items.old 1 → IsOk result }
    ensures unchanged { OnErr result (items.new ≡ items.old) }
{
    let count = items.len();
    if count < items.capacity() {
        return Ok(());
    }
    items.reserve_exact(4.max(count / 2))
}

/// Gives back the places that are not used if they are half of all or more. Up to `N` items move back in place.
fn shrink<T: MadeWith<Global> + Drop, const N: usize>(items: &mut SmallVec<T, N>)
    ensures items { items.new.items ≡ items.old.items }
    ensures capacity { N ≤ items.old.capacity → N ≤ items.new.capacity }
{
    let count = items.len();
    if count <= items.capacity() / 2 {
        let _never_fails = items.grow(count.max(N));
    }
}
