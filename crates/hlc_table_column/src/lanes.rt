//! The rows of one key, lent.
ghost use Rattle.std.specs.Prelude.{◌≡◌, ◌≤◌, ◌<◌, ℕ, List, length, option_copied, slice_get, Some, None, IfOk, IfSome};
ghost use Rattle.std.specs.Prelude.{map, filter, nat_le, sum_by};
ghost use Rattle.hlc_rows.specs.Rows.{newest, answer};
ghost use Rattle.hlc_table_column.specs.Cells.{Cell, value_bytes, cell_bytes, AreBeside, cells_of};
ghost use Rattle.hlc_table_order.specs.Order.{IsIndex};
ghost use Rattle.hlc_table_column.specs.Rows.{rows_of, at_place};

use hlc_clock::Stamp;
use hlc_lanes::count_at;
use hlc_rows::{Bytes, Row, ValueOrMark};
use hlc_table_order::{count_from, count_indexed, newest_from, newest_of_first};
use hlc_table_sizes::length_of;
use hlc_values::NoMemory;
use std::alloc::Global;
use std::marker::Model;

/// The rows of one key, lent: their stamps, nodes and values side by side in arrival order, wherever they are stored,
/// and an index of the first of them by stamp and node, which may be empty. In contracts it is the list of their
/// cells.
#[derive(Debug, Drop)]
pub struct Lanes<'a> {
    stamps: &'a [u64],
    nodes: &'a [u16],
    values: &'a [ValueOrMark],
    order: &'a [u32],
}

impl<'a> Model for Lanes<'a> {
    ghost use Rattle.std.specs.Prelude.{List};
    ghost use Rattle.hlc_table_column.specs.Cells.{Cell, cells_of, AreBeside};
    ghost use Rattle.hlc_table_order.specs.Order.{IsIndex};

    ghost Value = { List Cell };

    ghost view = { λ l. cells_of l.stamps.now l.nodes.now l.values.now };

    ghost invariant = { λ l. AreBeside l.stamps.now l.nodes.now l.values.now
        × IsIndex l.stamps.now l.nodes.now l.order.now };
}

impl<'a> Lanes<'a> {
    /// Returns the rows of these lists, which are side by side, with an index of the first of them.
    pub(crate) fn new(
        stamps: &'a [u64],
        nodes: &'a [u16],
        values: &'a [ValueOrMark],
        order: &'a [u32],
    ) -> Lanes<'a>
        requires beside { AreBeside stamps.now nodes.now values.now }
        requires index { IsIndex stamps.now nodes.now order.now }
        ensures { result ≡ cells_of stamps.now nodes.now values.now }
    {
        Lanes {
            stamps,
            nodes,
            values,
            order,
        }
    }

    /// Returns the number of rows.
    pub fn len(&self) -> usize
        ensures { result ≡ length self.now }
    {
        self.stamps.len()
    }

    /// Returns the number of rows, by the lengths of all four lists. If the rows of several keys are lent and asked for
    /// it in turn, the processor fetches what they are stored in from memory side by side.
    pub fn fetched_len(&self) -> usize
        ensures { result ≡ length self.now }
    {
        let beside = self.nodes.len().min(self.values.len());
        self.stamps.len().min(beside).max(self.order.len())
    }

    /// Reads the last stamp, position of the index and value, with the value's first and last byte, for a caller that
    /// goes through many keys and then reads the newest row of each: none of these reads waits for those of another
    /// key. The number that it returns has no meaning. It only keeps the compiler from leaving the reads out.
    #[inline]
    pub fn fetched(&self) -> u64 {
        let last = self.order.last().copied().unwrap_or(0);
        let stamp = self.stamps.last().copied().unwrap_or(0);
        let value = self.values.last().map_or(0, fetched_value);
        stamp
            .wrapping_add(value)
            .wrapping_add(self.nodes.len() as u64)
            .wrapping_add(last as u64)
    }

    /// Returns the position of the row that a reader at the bound sees: the greatest by stamp and node at or below it.
    /// It costs one look at the index if its last row is at or below the bound, and otherwise a binary search; and a
    /// pass over the rows after the index: at most 64 and one for each 256 rows of the index, unless memory for the
    /// index ran out.
    pub fn newest(&self, bound: Stamp) -> Option<usize>
        ensures within { IfSome result (λ i. i < length self.now) }
        ensures newest { (key : List ℕ)
            → at_place (rows_of key self.now) result ≡ newest (rows_of key self.now) key bound }
    {
        self.newest_on(bound, self.order.len()).0
    }

    /// Returns the position of the newest row, as `newest` does, and where to continue for a later bound: for ascending
    /// bounds, if each call continues where the one before stopped, the index is walked once in all. A wrong position
    /// to continue from costs time, and changes no answer.
    pub fn newest_on(&self, bound: Stamp, from: usize) -> (Option<usize>, usize)
        ensures within { IfSome result.0 (λ i. i < length self.now) }
        ensures newest { (key : List ℕ)
            → at_place (rows_of key self.now) result.0 ≡ newest (rows_of key self.now) key bound }
    {
        let bound = bound.bits();
        let count = count_from(self.stamps, self.nodes, self.order, bound, from);
        let first = newest_of_first(self.stamps, self.nodes, self.order, bound, count);
        let after = self.order.len();
        (
            newest_from(self.stamps, self.nodes, after, bound, first),
            count,
        )
    }

    /// Returns the value of the row at a position, or None for a deletion mark or if there is no
    /// row.
    pub fn value_at(&self, place: usize) -> Option<&'a [u8]>
        ensures value { (cell : Cell) → slice_get self.now place ≡ Some cell
            → option_copied result ≡ cell.value }
        ensures absent { length self.now ≤ place → option_copied result ≡ None }
    {
        let Some(value) = self.values.get(place) else {
            return None;
        };
        value.as_slice()
    }

    /// Returns the stamp and the node of the row at a position.
    pub fn version_at(&self, place: usize) -> (Stamp, u16)
        requires { place < length self.now }
        ensures { (cell : Cell) → slice_get self.now place ≡ Some cell → result ≡ (cell.stamp, cell.node) }
    {
        let stamp = Stamp::from_bits(item_at(self.stamps, place));
        (stamp, item_at(self.nodes, place))
    }

    /// Returns the value that a reader at the bound sees, or None for a deletion mark or if there
    /// is no row.
    pub fn answer(&self, bound: Stamp) -> Option<&'a [u8]>
        ensures { (key : List ℕ) → option_copied result ≡ answer (rows_of key self.now) key bound }
    {
        let Some(place) = self.newest(bound) else {
            return None;
        };
        self.value_at(place)
    }

    /// Returns what `answer` returns, by a pass over all rows, without the index. Of a few rows it is faster.
    pub(crate) fn answer_of_few(&self, bound: Stamp) -> Option<&'a [u8]>
        ensures { (key : List ℕ) → option_copied result ≡ answer (rows_of key self.now) key bound }
    {
        let Some(place) = newest_from(self.stamps, self.nodes, 0, bound.bits(), None) else {
            return None;
        };
        self.value_at(place)
    }

    /// Returns the value of the row at a position that `newest` or `newest_on` returned, if there
    /// is one.
    pub fn value_of(&self, place: Option<usize>) -> Option<&'a [u8]>
        ensures { (key : List ℕ) (bound : ℕ) → IfSome place (λ i. i < length self.now)
            → at_place (rows_of key self.now) place ≡ newest (rows_of key self.now) key bound
            → option_copied result ≡ answer (rows_of key self.now) key bound }
    {
        match place {
            Some(i) => self.value_at(i),
            None => None,
        }
    }

    /// Returns how many rows are at or below the bound: a binary search of the index, and a pass over the rows after
    /// it.
    pub fn count_at(&self, bound: Stamp) -> usize
        ensures { (key : List ℕ)
            → result ≡ length (filter (λ row. nat_le row.stamp bound) (rows_of key self.now)) }
    {
        let bound = bound.bits();
        let first = count_indexed(self.stamps, self.nodes, self.order, bound);
        first + count_at(&self.stamps[self.order.len()..], bound)
    }

    /// Returns a copy of the row at a position, with its key.
    pub fn row_at(&self, alloc: Global, key: &[u8], place: usize) -> Result<Row, NoMemory>
        requires { place < length self.now }
        ensures { IfOk result (λ row. slice_get (rows_of key.now self.now) place ≡ Some row) }
    {
        let value = copy_of(alloc, self.value_at(place))?;
        let key = Bytes::from_slice(alloc, key)?;
        Ok(Row {
            key,
            stamp: Stamp::from_bits(item_at(self.stamps, place)),
            node: item_at(self.nodes, place),
            value,
        })
    }

    /// Returns the bytes of the values of all rows. A deletion mark has none.
    pub fn value_bytes(&self) -> u128
        ensures { result ≡ sum_by cell_bytes self.now }
    {
        bytes_in(self.values)
    }

    /// Returns the stamps of the rows.
    pub fn stamps(&self) -> &'a [u64]
        ensures { result.now ≡ map (λ (cell : Cell). cell.stamp) self.now }
    {
        self.stamps
    }
}

/// Reads the first and the last byte of a value, as `fetched` does.
#[inline]
pub(crate) fn fetched_value(value: &ValueOrMark) -> u64 {
    let Some(bytes) = value.as_slice() else {
        return 0;
    };
    let first = bytes.first().copied().unwrap_or(0);
    let last = bytes.last().copied().unwrap_or(0);
    first as u64 + last as u64
}

/// Copies a value, if there is one.
pub fn copy_of(alloc: Global, value: Option<&[u8]>) -> Result<Option<Bytes>, NoMemory>
    ensures { IfOk result (λ copy. copy ≡ option_copied value.entry) }
{
    match value {
        None => Ok(None),
        Some(bytes) => {
            let bytes = Bytes::from_slice(alloc, bytes)?;
            Ok(Some(bytes))
        }
    }
}

/// Returns the item at a position.
pub(crate) fn item_at<T: Copy>(items: &[T], place: usize) -> T
    requires { place < length items.now }
    ensures { slice_get items.now place ≡ Some result }
{
    items[place]
}

/// Returns the bytes of some values.
fn bytes_in(values: &[ValueOrMark]) -> u128
    ensures { result ≡ sum_by value_bytes values.now }
{
    let mut bytes = 0u128;
    for value in values {
        bytes += length_of(value.as_slice()) as u128;
    }
    bytes
}
