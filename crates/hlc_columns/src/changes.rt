//! The keys whose answers at two bounds differ, one after another, without a list of them.
ghost use Rattle.std.specs.Prelude.{◌≡◌, ◌≢◌, ℕ, List, MatchOption, option_copied};
ghost use Rattle.std.specs.Iterator.{YieldsFirstBy, item_count};
ghost use Rattle.hlc_rows.specs.Rows.{answer};
ghost use Rattle.hlc_table_column.specs.Rows.{rows_of};
ghost use Rattle.hlc_columns.specs.{Table.indexed_rows, Answers.entries_left, Answers.IsBetween};
ghost use Rattle.hlc_columns.specs.Differences.{AreDifferences, differences_in, difference_read, is_same};

use crate::answers::Walk;
use hlc_clock::Stamp;
use hlc_table_column::{Lanes, Rows};
use hlc_table_index::Index;
use std::marker::Model;

/// Returns whether two answers are the same.
fn is_same(before: Option<&[u8]>, after: Option<&[u8]>) -> bool
    ensures { result ≡ is_same (option_copied before.entry) (option_copied after.entry) }
{
    match (before, after) {
        (None, None) => true,
        (Some(before), Some(after)) => before == after,
        _ => false,
    }
}

/// Returns the answer of a column at the second bound, if that at the first is another. If both are one row, it does
/// not read their values.
fn difference(column: Lanes<'_>, from: Stamp, to: Stamp) -> Option<Option<&[u8]>>
    ensures { (key : List ℕ)
        → let before = answer (rows_of key column.entry) key from in
        let after = answer (rows_of key column.entry) key to in
        MatchOption result (before ≡ after)
        (λ value. (option_copied value ≡ after) × (before ≢ after)) }
{
    let before = column.newest(from);
    let after = column.newest(to);
    if before == after {
        return None;
    }
    let value = column.value_of(after);
    if is_same(column.value_of(before), value) {
        None
    } else {
        Some(value)
    }
}

/// Returns the next key of a walk whose answers differ, with the second. It reads each column once at each bound.
fn next_change<'a>(
    walk: &mut Walk<'a>,
    from: Stamp,
    to: Stamp,
) -> Option<(&'a [u8], Option<&'a [u8]>)>
    ensures { YieldsFirstBy difference_read (λ walk. differences_in (entries_left walk) from to)
        walk.old result walk.new }
{
    while let Some(entry) = walk.next() {
        if let Some(value) = difference(entry.1.lanes(), from, to) {
            return Some((entry.0.as_slice(), value));
        }
    }
    None
}

/// The keys of a range whose answers at two bounds differ, in byte order, each with its value at the second bound, or
/// none if it has none there. It goes through the columns on demand, leaf by leaf. In contracts it is the list of the
/// remaining differences.
#[derive(Debug, Drop)]
pub struct Changes<'a> {
    walk: Walk<'a>,
    from: Stamp,
    to: Stamp,
}

impl<'a> Model for Changes<'a> {
    ghost use Rattle.std.specs.Prelude.{List};
    ghost use Rattle.hlc_columns.specs.Answers.{entries_left};
    ghost use Rattle.hlc_columns.specs.Differences.{Difference, differences_in};

    ghost Value = { List Difference };

    ghost view = { λ all. differences_in (entries_left all.walk) all.from all.to };
}

impl<'a> Iterator for Changes<'a> {
    type Item = (&'a [u8], Option<&'a [u8]>);

    ghost next_gives = { YieldsFirstBy difference_read (λ differences. differences) };

    ghost remaining = { item_count (λ differences. differences) };

    fn next(&mut self) -> Option<(&'a [u8], Option<&'a [u8]>)> {
        next_change(&mut self.walk, self.from, self.to)
    }
}

/// Returns the differences of the keys that are not below one key, and below another, if there is one.
pub(crate) fn changes_between<'a>(
    columns: &'a Index<Rows>,
    from: Stamp,
    to: Stamp,
    first: &[u8],
    end: Option<&'a [u8]>,
) -> Changes<'a>
    ensures { AreDifferences (indexed_rows columns.now) from to
        (IsBetween first.now (option_copied end.entry)) result }
{
    Changes {
        walk: Walk::between(columns, first, end),
        from,
        to,
    }
}
