//! Dropping rows from the columns of an index.
ghost use Rattle.std.specs.Prelude.{◌≡◌, ◌≤◌, ◌<◌, [], length, take, drop, slice_set, slice_index_or};
ghost use Rattle.std.specs.List.{items_where_true};
ghost use Rattle.hlc_table_index.specs.Entries.{entries_in, with_value_in};
ghost use Rattle.hlc_columns.specs.Table.{indexed_rows, table_rows, kept_in, cells_at, key_at, if_filled, AreFilled};
ghost use Rattle.hlc_columns.specs.Sizes.{sizes_of, filled_sizes, Fit};

use crate::sizes::sizes_at;
use hlc_table_column::Rows;
use hlc_table_flags::Flags;
use hlc_table_index::Index;
use hlc_table_sizes::Sizes;

/// Keeps only the flagged rows, in their order, and reads no column that keeps them all. A key without rows is removed.
/// It needs no memory.
pub(crate) fn keep_rows(columns: &mut Index<Rows>, sizes: &mut Sizes, flags: Flags<'_>)
    requires many { length flags ≡ length (indexed_rows columns.old) }
    requires sizes { sizes.old ≡ filled_sizes columns.old }
    requires fit { Fit sizes.old }
    ensures rows { indexed_rows columns.new
        ≡ items_where_true flags.entry (indexed_rows columns.old) }
    ensures filled { AreFilled columns.new }
    ensures sizes { sizes.new ≡ sizes_of (entries_in columns.new) }
    ensures fit { Fit sizes.new }
{
    let mut left = flags;
    for at in 0..columns.leaves() {
        left = keep_in_leaf(columns, sizes, at, left);
    }
    columns.keep_filled();
}

/// Keeps only the rows of a leaf that the first flags select, and returns the flags of the later rows.
fn keep_in_leaf<'a>(
    columns: &mut Index<Rows>,
    sizes: &mut Sizes,
    at: usize,
    flags: Flags<'a>,
) -> Flags<'a>
    requires leaf { at < length columns.old }
    requires many { length (table_rows (slice_index_or columns.old at [])) ≤ length flags }
    requires sizes { sizes.old ≡ filled_sizes columns.old }
    requires fit { Fit sizes.old }
    ensures kept { columns.new
        ≡ slice_set columns.old at (kept_in flags.entry (slice_index_or columns.old at [])) }
    ensures left { result ≡ drop (length (table_rows (slice_index_or columns.old at []))) flags.entry }
    ensures sizes { sizes.new ≡ filled_sizes columns.new }
    ensures fit { Fit sizes.new }
{
    let mut left = flags;
    for slot in 0..columns.leaf(at).len() {
        left = keep_at(columns, sizes, at, slot, left);
    }
    left
}

/// Keeps only the rows of a column that the first flags select, and returns the flags of the later rows.
fn keep_at<'a>(
    columns: &mut Index<Rows>,
    sizes: &mut Sizes,
    at: usize,
    slot: usize,
    flags: Flags<'a>,
) -> Flags<'a>
    requires leaf { at < length columns.old }
    requires inside { slot < length (slice_index_or columns.old at []) }
    requires many { length (cells_at columns.old at slot) ≤ length flags }
    requires sizes { sizes.old ≡ filled_sizes columns.old }
    requires fit { Fit sizes.old }
    ensures kept { columns.new ≡ with_value_in columns.old at slot (items_where_true
        (take (length (cells_at columns.old at slot)) flags.entry) (cells_at columns.old at slot)) }
    ensures left { result ≡ drop (length (cells_at columns.old at slot)) flags.entry }
    ensures sizes { sizes.new ≡ filled_sizes columns.new }
    ensures fit { Fit sizes.new }
{
    let (first, left) = flags.split_at(columns.leaf(at)[slot].1.len());
    if first.are_set() {
        return left;
    }
    drop_at(columns, sizes, at, slot, &first);
    left
}

/// Keeps only the flagged rows of a column.
fn drop_at(columns: &mut Index<Rows>, sizes: &mut Sizes, at: usize, slot: usize, flags: &Flags<'_>)
    requires leaf { at < length columns.old }
    requires inside { slot < length (slice_index_or columns.old at []) }
    requires many { length flags.now ≡ length (cells_at columns.old at slot) }
    requires sizes { sizes.old ≡ filled_sizes columns.old }
    requires fit { Fit sizes.old }
    ensures kept { columns.new ≡ with_value_in columns.old at slot
        (items_where_true flags.now (cells_at columns.old at slot)) }
    ensures sizes { sizes.new ≡ filled_sizes columns.new }
    ensures fit { Fit sizes.new }
{
    let before = filled_sizes_at(columns, at, slot);
    keep_cells(columns, at, slot, flags);
    let after = filled_sizes_at(columns, at, slot);
    *sizes = sizes.minus(before).plus(after);
}

/// Keeps only the flagged rows of a column, which may be left without rows.
pub(crate) fn keep_cells(columns: &mut Index<Rows>, at: usize, slot: usize, flags: &Flags<'_>)
    requires leaf { at < length columns.old }
    requires inside { slot < length (slice_index_or columns.old at []) }
    requires many { length flags.now ≡ length (cells_at columns.old at slot) }
    ensures { columns.new ≡ with_value_in columns.old at slot
        (items_where_true flags.now (cells_at columns.old at slot)) }
{
    columns.value_mut(at, slot).keep(flags);
}

/// Returns the sizes of the column at a position, or of none if it is left without rows.
fn filled_sizes_at(columns: &Index<Rows>, at: usize, slot: usize) -> Sizes
    requires leaf { at < length columns.now }
    requires inside { slot < length (slice_index_or columns.now at []) }
    ensures { result ≡ sizes_of (if_filled (key_at columns.now at slot, cells_at columns.now at slot)) }
{
    let sizes = sizes_at(columns, at, slot);
    if sizes.rows == 0 {
        return Sizes::none();
    }
    sizes
}
