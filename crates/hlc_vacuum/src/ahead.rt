//! Columns fetched from memory before they are read.
ghost use Rattle.std.specs.Prelude.{◌≤◌, ◌<◌, length};
ghost use Rattle.hlc_table_column.specs.Rows.{rows_in};

use hlc_columns::{Columns, Keyed};

/// This many columns are fetched together.
const AHEAD: usize = 64;

/// Returns the number of rows of the next 64 columns at every 64th position, and 0 at the others. None of these reads
/// waits for the one before it, so a walk through those columns does not wait for memory at each.
pub(crate) fn rows_ahead(columns: &[Keyed], from: usize) -> usize
    requires { from < length columns.now }
    ensures { result ≤ length (rows_in columns.now) }
{
    if from % AHEAD != 0 {
        return 0;
    }
    let mut rows = 0usize;
    for i in from..columns.len().min(from.saturating_add(AHEAD)) {
        rows = rows.saturating_add(columns[i].column().fetched_len());
    }
    rows
}

/// Returns the number of rows of the columns of a leaf, which it fetches in the same way, with the newest row of each.
pub(crate) fn rows_of_leaf(leaf: &Columns) -> usize
    ensures { result ≤ length (rows_in leaf.now) }
{
    let mut rows = 0usize;
    let mut sum = 0u64;
    for place in 0..leaf.len() {
        let column = leaf.at(place).column();
        rows = rows.saturating_add(column.fetched_len());
        sum = sum.wrapping_add(column.fetched());
    }
    // The sum has no meaning, but without this test the compiler could leave the reads out.
    if sum == u64::MAX { 0 } else { rows }
}
