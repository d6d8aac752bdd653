//! The table of a store, made from a checkpoint's rows.
ghost use Rattle.std.specs.Prelude.{◌++◌, ◌∷◌, [], IfOk, OnOk, IsPermutation};
ghost use Rattle.hlc_columns.specs.Table.{HasNoVersion};
ghost use Rattle.hlc_witness.specs.Certificate.{RowsAscend};

use hlc_columns::Table;
use hlc_rows::Row;
use hlc_values::NoMemory;
use std::alloc::Global;

/// Makes a table of copies of some rows, which ascend by key, stamp and node. A key is looked up for its first row
/// only. It may run out of memory.
pub fn table_of(alloc: Global, rows: &[Row]) -> Result<Table, NoMemory>
    requires { RowsAscend rows.now }
    ensures { IfOk result (λ table. IsPermutation rows.now table) }
{
    let mut table = Table::new(alloc);
    for row in rows {
        let value = row.value.clone()?;
        table.insert_ascending(row.key.as_slice(), row.stamp, row.node, value)?;
    }
    Ok(table)
}

/// Makes a table of some rows, which ascend by key, stamp and node. Their values are moved. If memory runs out, the
/// rows are lost.
pub fn table_of_moved(alloc: Global, rows: Vec<Row>) -> Result<Table, NoMemory>
    requires { RowsAscend rows.items }
    ensures { IfOk result (λ table. IsPermutation rows.items table) }
{
    let mut table = Table::new(alloc);
    for row in rows {
        add_row(&mut table, row)?;
    }
    Ok(table)
}

/// Adds a row, whose value is moved.
fn add_row(table: &mut Table, row: Row) -> Result<(), NoMemory>
    requires { HasNoVersion table.old row }
    ensures { OnOk result (IsPermutation (table.old ++ row ∷ []) table.new) }
{
    let Row {
        key,
        stamp,
        node,
        value,
    } = row;
    table.insert_ascending(key.as_slice(), stamp, node, value)
}
