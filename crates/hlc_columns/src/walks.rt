//! Walks over the columns of an index.
ghost use Rattle.std.specs.Prelude.{◌≡◌, ◌<◌, ◌^◌, IfOk, length, map, filter, nat_le};
ghost use Rattle.std.specs.List.Sorted.{IsStrictlySortedBy};
ghost use Rattle.hlc_table_index.specs.Entries.{entries_in, keys_in, key_cmp};
ghost use Rattle.hlc_columns.specs.Table.{indexed_rows};

use crate::answers::Walk;
use hlc_clock::Stamp;
use hlc_table_column::Rows;
use hlc_table_index::Index;
use hlc_values::NoMemory;
use std::alloc::Global;

/// Returns the keys.
pub(crate) fn list_keys(alloc: Global, columns: &Index<Rows>) -> Result<Vec<&[u8]>, NoMemory>
    ensures list { IfOk result
        (λ keys. map (λ key. key.now) keys.items ≡ keys_in (entries_in columns.now)) }
    ensures ascend { IsStrictlySortedBy key_cmp (keys_in (entries_in columns.now)) }
{
    let mut keys = Vec::new(alloc);
    let mut walk = Walk::from_slot(columns, 0, 0, None);
    while let Some(entry) = walk.next() {
        keys.push(entry.0.as_slice())?;
    }
    Ok(keys)
}

/// Returns how many rows are at or below the bound.
pub(crate) fn count_rows_at(columns: &Index<Rows>, bound: Stamp) -> u128
    requires { length (indexed_rows columns.now) < 2 ^ 128 }
    ensures { result ≡ length (filter (λ row. nat_le row.stamp bound) (indexed_rows columns.now)) }
{
    let mut walk = Walk::from_slot(columns, 0, 0, None);
    let mut total: u128 = 0;
    while let Some(entry) = walk.next() {
        total += entry.1.lanes().count_at(bound) as u128;
    }
    total
}
