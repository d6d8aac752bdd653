//! Adding rows to the columns of an index.
ghost use Rattle.std.specs.Prelude.{◌≡◌, ◌<◌, [], ℕ, List, None, length, slice_index_or, OnOk, OnErr, IfOk, IfErr};
ghost use Rattle.std.specs.Map.{lookup};
ghost use Rattle.hlc_table_index.specs.Entries.{is_key, entries_in, IsEntryAt, IsGap};
ghost use Rattle.hlc_columns.specs.{Parts.new_row, Table.indexed_rows, Table.AreFilled, Table.InsertedLast};
ghost use Rattle.hlc_table_column.specs.Cells.{value_bytes};
ghost use Rattle.hlc_columns.specs.Sizes.{sizes_of, with_row, with_key, Fit};

use hlc_clock::Stamp;
use hlc_rows::{Bytes, value_slice};
use hlc_table_column::Rows;
use hlc_table_index::Index;
use hlc_table_sizes::{Sizes, length_of};
use hlc_values::NoMemory;
use std::alloc::Global;

/// A row that borrows its key.
#[derive(Drop)]
pub(crate) struct NewRow<'a> {
    pub(crate) key: &'a [u8],
    pub(crate) stamp: Stamp,
    pub(crate) node: u16,
    pub(crate) value: Option<Bytes>,
}

/// Appends a row to its key's column, or to a new column at the place where the key belongs, as `Index::locate` returns
/// them; only then is the key copied. It is refused if memory runs out, or at 2^128 - 1 rows: then no row changes.
pub(crate) fn put_row(
    columns: &mut Index<Rows>,
    sizes: &mut Sizes,
    alloc: Global,
    place: Result<(usize, usize), (usize, usize)>,
    row: NewRow<'_>,
) -> Result<(), NoMemory>
    requires found { IfOk place (λ at. IsEntryAt columns.old row.key.now at.0 at.1) }
    requires absent { IfErr place (λ _. lookup (is_key row.key.now) (entries_in columns.old) ≡ None) }
    requires gap { IfErr place (λ at. IsGap columns.old row.key.now at.0 at.1) }
    requires filled { AreFilled columns.old }
    requires sizes { sizes.old ≡ sizes_of (entries_in columns.old) }
    requires fit { Fit sizes.old }
    ensures ok { OnOk result (InsertedLast (indexed_rows columns.old) (new_row row.entry)
        (indexed_rows columns.new)) }
    ensures unchanged { OnErr result (indexed_rows columns.new ≡ indexed_rows columns.old) }
    ensures filled { AreFilled columns.new }
    ensures sizes { sizes.new ≡ sizes_of (entries_in columns.new) }
    ensures fit { Fit sizes.new }
{
    let Some(more) = sizes.with_row(length_of(value_slice(&row.value))) else {
        return Err(NoMemory);
    };
    match place {
        Ok((at, slot)) => {
            push_at(columns, alloc, at, slot, row.stamp, row.node, row.value)?;
            *sizes = more;
        }
        Err((at, slot)) => {
            let Some(all) = more.with_key(row.key.len()) else {
                return Err(NoMemory);
            };
            add_column(columns, alloc, at, slot, row)?;
            *sizes = all;
        }
    }
    Ok(())
}

/// Appends a row to the column at a position.
fn push_at(
    columns: &mut Index<Rows>,
    alloc: Global,
    at: usize,
    slot: usize,
    stamp: Stamp,
    node: u16,
    value: Option<Bytes>,
) -> Result<(), NoMemory>
    requires leaf { at < length columns.old }
    requires inside { slot < length (slice_index_or columns.old at []) }
    requires filled { AreFilled columns.old }
    ensures ok { (key : List ℕ) → IsEntryAt columns.old key at slot
        → OnOk result (InsertedLast (indexed_rows columns.old)
        (record { key = key; stamp = stamp; node = node; value = value }) (indexed_rows columns.new)) }
    ensures unchanged { OnErr result (indexed_rows columns.new ≡ indexed_rows columns.old) }
    ensures filled { AreFilled columns.new }
    ensures sizes { OnOk result (sizes_of (entries_in columns.new)
        ≡ with_row (sizes_of (entries_in columns.old)) (value_bytes value)) }
    ensures same { OnErr result (entries_in columns.new ≡ entries_in columns.old) }
{
    let column = columns.value_mut(at, slot);
    column.push(alloc, stamp, node, value)
}

/// Adds a column of one row, whose key is new, at the place where the key belongs.
fn add_column(
    columns: &mut Index<Rows>,
    alloc: Global,
    at: usize,
    slot: usize,
    row: NewRow<'_>,
) -> Result<(), NoMemory>
    requires new { lookup (is_key row.key.now) (entries_in columns.old) ≡ None }
    requires gap { IsGap columns.old row.key.now at slot }
    requires filled { AreFilled columns.old }
    ensures ok { OnOk result (InsertedLast (indexed_rows columns.old) (new_row row.entry)
        (indexed_rows columns.new)) }
    ensures unchanged { OnErr result (indexed_rows columns.new ≡ indexed_rows columns.old) }
    ensures filled { AreFilled columns.new }
    ensures sizes { OnOk result (sizes_of (entries_in columns.new)
        ≡ with_key (with_row (sizes_of (entries_in columns.old)) (value_bytes row.entry.value))
        (length row.entry.key.now)) }
    ensures same { OnErr result (entries_in columns.new ≡ entries_in columns.old) }
{
    let key = Bytes::from_slice(alloc, row.key)?;
    let column = Rows::of_row(row.stamp, row.node, row.value);
    columns.insert_at(at, slot, key, column)?;
    Ok(())
}
