//! The stored rows up to a stamp, or above it, in the order in which certificates list them.
ghost use Rattle.std.specs.{Prelude.◌≡◌, Prelude.◌++◌, Prelude.IfOk, Prelude.OnOk, List.Sorted.IsPermutation};
ghost use Rattle.hlc_rows.specs.Rows.{IsRowSet};
ghost use Rattle.hlc_witness.specs.Certificate.{RowsAscend};
ghost use Rattle.hlc_table_column.specs.Rows.{rows_of, rows_in};
ghost use Rattle.hlc_columns.specs.Table.{columns_in};
ghost use Rattle.hlc_checkpoint.specs.Sorted.{AreRowsTo, AreRowsAbove, is_on, rows_on};

use hlc_clock::Stamp;
use hlc_columns::{Columns, Lanes, Table};
use hlc_rows::Row;
use hlc_values::NoMemory;
use hlc_witness::row_order;
use std::alloc::Global;

/// The rows on one side of a stamp, or all of them.
#[derive(Drop)]
enum Side {
    All,
    /// Those at or below it.
    UpTo(Stamp),
    /// Those above it.
    Above(Stamp),
}

/// Returns copies of the rows at or below a stamp, by key, stamp and node. It goes through all rows, and sorts the
/// copies. It needs memory for them, and 16 bytes for each leaf of the index.
pub fn sorted_rows_to(alloc: Global, table: &Table, bound: Stamp) -> Result<Vec<Row>, NoMemory>
    ensures { IfOk result (λ listed. AreRowsTo table.now bound listed.items) }
{
    let leaves = table.leaves()?;
    let mut listed = copies_on(alloc, leaves.as_slice(), &Side::UpTo(bound))?;
    sort(&mut listed);
    Ok(listed)
}

/// Returns copies of the rows above a stamp, by key, stamp and node, as `sorted_rows_to` returns those up to it.
pub fn sorted_rows_above(alloc: Global, table: &Table, bound: Stamp) -> Result<Vec<Row>, NoMemory>
    ensures { IfOk result (λ listed. AreRowsAbove table.now bound listed.items) }
{
    let leaves = table.leaves()?;
    let mut listed = copies_on(alloc, leaves.as_slice(), &Side::Above(bound))?;
    sort(&mut listed);
    Ok(listed)
}

/// Returns copies of all rows, by key, stamp and node, as `sorted_rows_to` returns those up to a stamp.
pub fn sorted_rows(alloc: Global, table: &Table) -> Result<Vec<Row>, NoMemory>
    ensures same { IfOk result (λ listed. IsPermutation table.now listed.items) }
    ensures ascend { IfOk result (λ listed. RowsAscend listed.items) }
{
    let leaves = table.leaves()?;
    let mut listed = copies_on(alloc, leaves.as_slice(), &Side::All)?;
    sort(&mut listed);
    Ok(listed)
}

/// Returns whether a stamp, as a word, is on a side.
fn is_on(side: &Side, stamp: u64) -> bool
    ensures { result ≡ is_on side.now stamp }
{
    match side {
        Side::All => true,
        Side::UpTo(bound) => stamp <= bound.bits(),
        Side::Above(bound) => stamp > bound.bits(),
    }
}

/// Returns copies of the rows of some leaves on a side of a stamp, in their order.
fn copies_on(alloc: Global, leaves: &[Columns], side: &Side) -> Result<Vec<Row>, NoMemory>
    ensures { IfOk result
        (λ copies. copies.items ≡ rows_on side.now (rows_in (columns_in leaves.now))) }
{
    let mut copies = Vec::new(alloc);
    for leaf in leaves {
        copy_leaf(alloc, &mut copies, leaf, side)?;
    }
    Ok(copies)
}

/// Adds copies of the rows of a leaf on a side of a stamp, in their order.
fn copy_leaf(
    alloc: Global,
    copies: &mut Vec<Row>,
    leaf: &Columns,
    side: &Side,
) -> Result<(), NoMemory>
    ensures { OnOk result (copies.new.items ≡ copies.old.items ++ rows_on side.now (rows_in leaf.now)) }
{
    for place in 0..leaf.len() {
        let one = leaf.at(place);
        copy_column(alloc, copies, one.key(), one.column(), side)?;
    }
    Ok(())
}

/// Adds copies of the rows of a column on a side of a stamp, in their order.
fn copy_column(
    alloc: Global,
    copies: &mut Vec<Row>,
    key: &[u8],
    column: Lanes<'_>,
    side: &Side,
) -> Result<(), NoMemory>
    ensures { OnOk result (copies.new.items
        ≡ copies.old.items ++ rows_on side.now (rows_of key.now column.entry)) }
{
    let stamps = column.stamps();
    for place in 0..column.len() {
        if is_on(side, stamps[place]) {
            let row = column.row_at(alloc, key, place)?;
            copies.push(row)?;
        }
    }
    Ok(())
}

/// Sorts rows by key, stamp and node.
pub fn sort(rows: &mut Vec<Row>)
    requires { IsRowSet rows.old.items }
    ensures same { IsPermutation rows.old.items rows.new.items }
    ensures ascend { RowsAscend rows.new.items }
{
    rows.sort_unstable_by(|a, b| row_order(a, b));
}
