//! Dropping rows of one key.
ghost use Rattle.std.specs.Prelude.{◌≡◌, ◌+◌, ◌<◌, ◌++◌, [], length, slice_index_or};
ghost use Rattle.std.specs.List.{items_where_true};
ghost use Rattle.hlc_table_index.specs.Entries.{entries_in, entries_before, entries_from};
ghost use Rattle.hlc_columns.specs.{Sizes.sizes_of, Sizes.Fit, Table.cells_at, Table.key_at, Table.if_filled};

use crate::dropping::keep_cells;
use crate::sizes::sizes_at;
use hlc_table_column::Rows;
use hlc_table_flags::Flags;
use hlc_table_index::Index;
use hlc_table_sizes::Sizes;

/// Keeps only the flagged rows of the column at a position, in their order. The column is removed if it is left without
/// rows. It needs no memory.
pub(crate) fn keep_column(
    columns: &mut Index<Rows>,
    sizes: &mut Sizes,
    at: usize,
    slot: usize,
    flags: &Flags<'_>,
)
    requires leaf { at < length columns.old }
    requires inside { slot < length (slice_index_or columns.old at []) }
    requires many { length flags.now ≡ length (cells_at columns.old at slot) }
    requires sizes { sizes.old ≡ sizes_of (entries_in columns.old) }
    requires fit { Fit sizes.old }
    ensures entries { entries_in columns.new ≡ entries_before columns.old at slot
        ++ (if_filled (key_at columns.old at slot, items_where_true flags.now (cells_at columns.old at slot))
        ++ entries_from columns.old at (slot + 1)) }
    ensures sizes { sizes.new ≡ sizes_of (entries_in columns.new) }
    ensures fit { Fit sizes.new }
{
    let before = sizes_at(columns, at, slot);
    keep_cells(columns, at, slot, flags);
    let after = sizes_at(columns, at, slot);
    let others = sizes.minus(before);
    if after.rows == 0 {
        columns.remove(at, slot);
        *sizes = others;
    } else {
        *sizes = others.plus(after);
    }
}
