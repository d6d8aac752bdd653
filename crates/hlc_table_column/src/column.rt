//! The rows of one key, the first four in place.
ghost use Rattle.std.specs.Prelude.{◌≡◌, ◌<◌, ◌++◌, ◌∷◌, [], ℕ, List, length, option_copied, IsOk, OnOk, OnErr, IfErr};
ghost use Rattle.std.specs.Prelude.{IfSome};
ghost use Rattle.hlc_rows.specs.Rows.{newest, answer};
ghost use Rattle.std.specs.List.{items_where_true};
ghost use Rattle.hlc_table_column.specs.Rows.{rows_of, at_place};

use crate::lanes::Lanes;
use crate::lists::Lists;
use crate::single::Single;
use hlc_clock::Stamp;
use hlc_rows::Bytes;
use hlc_table_flags::Flags;
use std::alloc::{AllocFailed, Global};
use std::marker::Model;

/// The rows of one key in arrival order, the first four in place. From 17 rows on there is an index of the first of
/// them by stamp and node, which needs four bytes for each row.
#[derive(Debug, Drop)]
pub struct Column {
    lists: Lists<4>,
}

impl Model for Column {
    ghost use Rattle.std.specs.Prelude.{List, ◌≤◌};
    ghost use Rattle.hlc_table_column.specs.Cells.{Cell};

    ghost Value = { List Cell };

    ghost view = { λ column. column.lists.cells };

    ghost invariant = { λ column. 4 ≤ column.lists.room };
}

impl Column {
    /// Returns a column without rows. It allocates nothing.
    pub fn new(alloc: Global) -> Column
        ensures { result ≡ [] }
    {
        Column {
            lists: Lists::new(alloc),
        }
    }

    /// Returns a column of one row, which needs no memory.
    pub fn of_row(alloc: Global, stamp: Stamp, node: u16, value: Option<Bytes>) -> Column
        ensures { result ≡ record { stamp = stamp; node = node; value = value } ∷ [] }
    {
        let mut lists = Lists::new(alloc);
        lists.push_reserved(Single::new(stamp, node, value));
        Column { lists }
    }

    /// Returns the rows, lent.
    pub fn lanes(&self) -> Lanes<'_>
        ensures { result ≡ self.now }
    {
        self.lists.lanes()
    }

    /// Returns the number of rows.
    pub fn len(&self) -> usize
        ensures { result ≡ length self.now }
    {
        self.lanes().len()
    }

    /// Appends a row. It needs no memory below four rows; if memory runs out, the error returns the value. If only
    /// memory for the index runs out, the push succeeds: the index stays as it was, and reads scan more rows until a
    /// later row extends it.
    pub fn push(
        &mut self,
        stamp: Stamp,
        node: u16,
        value: Option<Bytes>,
    ) -> Result<(), AllocFailed<Option<Bytes>>>
        ensures ok { OnOk result (self.new
            ≡ self.old ++ record { stamp = stamp; node = node; value = value } ∷ []) }
        ensures few { length self.old < 4 → IsOk result }
        ensures unchanged { OnErr result (self.new ≡ self.old) }
        ensures value_returned { IfErr result (λ failed. failed.value ≡ value) }
    {
        if self.lists.reserve().is_err() {
            return Err(AllocFailed { value });
        }
        self.lists.push_reserved(Single::new(stamp, node, value));
        Ok(())
    }

    /// Returns the position of the row that a reader at the bound sees, as `Lanes::newest` does.
    pub fn newest(&self, bound: Stamp) -> Option<usize>
        ensures within { IfSome result (λ i. i < length self.now) }
        ensures newest { (key : List ℕ)
            → at_place (rows_of key self.now) result ≡ newest (rows_of key self.now) key bound }
    {
        self.lanes().newest(bound)
    }

    /// Returns the value that a reader at the bound sees, or None for a deletion mark or if there
    /// is no row.
    pub fn answer(&self, bound: Stamp) -> Option<&[u8]>
        ensures { (key : List ℕ) → option_copied result ≡ answer (rows_of key self.now) key bound }
    {
        self.lanes().answer(bound)
    }

    /// Keeps only the flagged rows, in their order. It needs no memory: up to four rows move back in place, lists that
    /// are at most half full give back the rest, and the index is sorted if a row was dropped.
    pub fn keep(&mut self, keep: &[bool])
        requires { length keep.now ≡ length self.old }
        ensures { self.new ≡ items_where_true keep.now self.old }
    {
        self.lists.keep(&Flags::of(keep));
        self.lists.shrink();
    }
}
