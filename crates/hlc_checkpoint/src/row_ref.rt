//! The rows of a column, lent in order.
ghost use Rattle.std.specs.Prelude.{◌≡◌, ◌++◌, ◌<◌, IsTrue, OnOk, Some, length, slice_get, option_copied};
ghost use Rattle.std.specs.List.Sorted.{IsPermutation};
ghost use Rattle.hlc_rows.specs.Rows.{IsRowSet};
ghost use Rattle.hlc_table_column.specs.Rows.{rows_of, rows_in_one};
ghost use Rattle.hlc_witness.specs.Certificate.{RowsAscend, row_cmp};
ghost use Rattle.hlc_checkpoint.specs.Lent.{IsListOf};

use hlc_clock::Stamp;
use hlc_columns::{Keyed, Lanes};
use hlc_rows::Row;
use std::alloc::AllocError;
use std::cmp::Ordering;
use std::marker::Model;

/// A row whose key and value are lent, so making one needs no memory. In contracts it is the row.
#[derive(Debug, Drop)]
pub struct RowRef<'a> {
    key: &'a [u8],
    stamp: Stamp,
    node: u16,
    value: Option<&'a [u8]>,
}

impl<'a> Model for RowRef<'a> {
    ghost use Rattle.std.specs.Prelude.{option_copied};
    ghost use Rattle.hlc_rows.specs.declared.row.Row.{Row as ARow};

    ghost Value = { ARow };

    ghost view = { λ row. record {
      key = row.key.now;
      stamp = row.stamp;
      node = row.node;
      value = option_copied row.value;
    } };
}

impl<'a> RowRef<'a> {
    /// Lends a row.
    pub fn of(row: &'a Row) -> RowRef<'a>
        ensures { result ≡ row.now }
    {
        RowRef {
            key: row.key.as_slice(),
            stamp: row.stamp,
            node: row.node,
            value: row.value(),
        }
    }

    /// Lends the row at a position of a column with this key.
    pub fn at(key: &'a [u8], column: &Lanes<'a>, place: usize) -> RowRef<'a>
        requires { place < length column.now }
        ensures { slice_get (rows_of key.now column.now) place ≡ Some result }
    {
        let (stamp, node) = column.version_at(place);
        RowRef {
            key,
            stamp,
            node,
            value: column.value_at(place),
        }
    }

    /// Returns the key.
    pub fn key(&self) -> &'a [u8]
        ensures { result.now ≡ self.now.key }
    {
        self.key
    }

    /// Returns the stamp.
    pub fn stamp(&self) -> Stamp
        ensures { result ≡ self.now.stamp }
    {
        self.stamp
    }

    /// Returns the node that wrote it.
    pub fn node(&self) -> u16
        ensures { result ≡ self.now.node }
    {
        self.node
    }

    /// Returns the value, or none for a deletion mark.
    pub fn value(&self) -> Option<&'a [u8]>
        ensures { option_copied result ≡ self.now.value }
    {
        self.value
    }
}

/// Makes a list the rows of a column, by stamp and node, in place of what is in it. The only error is out of memory;
/// what is in the list is then not specified. It sorts the rows only if they did not arrive in this order.
pub fn list_column<'a>(rows: &mut Vec<RowRef<'a>>, one: &Keyed<'a>) -> Result<(), AllocError>
    requires { IsRowSet (rows_in_one one.now) }
    ensures { OnOk result (IsListOf one.now rows.new.items) }
{
    rows.clear();
    add_rows(rows, one.key(), &one.column())?;
    put_in_order(rows);
    Ok(())
}

/// Adds the rows of a column, in the order of arrival.
fn add_rows<'a>(
    rows: &mut Vec<RowRef<'a>>,
    key: &'a [u8],
    column: &Lanes<'a>,
) -> Result<(), AllocError>
    ensures { OnOk result (rows.new.items ≡ rows.old.items ++ rows_of key.now column.now) }
{
    for place in 0..column.len() {
        rows.push(RowRef::at(key, column, place))?;
    }
    Ok(())
}

/// Sorts rows by key, stamp and node, unless they ascend.
fn put_in_order(rows: &mut Vec<RowRef<'_>>)
    requires { IsRowSet rows.old.items }
    ensures same { IsPermutation rows.old.items rows.new.items }
    ensures ascend { RowsAscend rows.new.items }
{
    if do_ascend(rows.as_slice()) {
        return;
    }
    rows.sort_unstable_by(|a, b| order(a, b));
}

/// Returns whether each row is above the one before it, by key, stamp and node.
fn do_ascend(rows: &[RowRef<'_>]) -> bool
    ensures { IsTrue result → RowsAscend rows.now }
{
    for i in 1..rows.len() {
        if !order(&rows[i - 1], &rows[i]).is_lt() {
            return false;
        }
    }
    true
}

/// Compares two rows by key, byte by byte, then by stamp, and then by node.
fn order(a: &RowRef<'_>, b: &RowRef<'_>) -> Ordering
    ensures { result ≡ row_cmp a.now b.now }
{
    let by_key = a.key.cmp(b.key);
    let by_stamp = a.stamp.cmp(&b.stamp);
    by_key.then(by_stamp.then(a.node.cmp(&b.node)))
}
