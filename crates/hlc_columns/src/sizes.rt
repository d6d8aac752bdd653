//! The sizes of a column.
ghost use Rattle.std.specs.Prelude.{◌≡◌, ◌<◌, ◌∷◌, [], length, slice_index_or};
ghost use Rattle.hlc_columns.specs.{Sizes.sizes_of, Table.key_at, Table.cells_at};

use hlc_table_column::{Lanes, Rows};
use hlc_table_index::Index;
use hlc_table_sizes::Sizes;

/// Returns the sizes of a column with its key.
fn sizes_of_column(key: &[u8], column: Lanes<'_>) -> Sizes
    ensures { result ≡ sizes_of ((key.now, column.entry) ∷ []) }
{
    Sizes {
        rows: column.len() as u128,
        keys: 1,
        key_bytes: key.len() as u128,
        value_bytes: column.value_bytes(),
    }
}

/// Returns the sizes of the column at a position.
pub(crate) fn sizes_at(columns: &Index<Rows>, at: usize, slot: usize) -> Sizes
    requires leaf { at < length columns.now }
    requires inside { slot < length (slice_index_or columns.now at []) }
    ensures { result ≡ sizes_of ((key_at columns.now at slot, cells_at columns.now at slot) ∷ []) }
{
    let entry = &columns.leaf(at)[slot];
    sizes_of_column(entry.0.as_slice(), entry.1.lanes())
}
