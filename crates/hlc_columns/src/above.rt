//! The columns of the keys above a key.
ghost use Rattle.std.specs.Prelude.{◌≡◌, IfOk, take, ℕ, List};
ghost use Rattle.std.specs.List.Sorted.{IsStrictlySortedBy};
ghost use Rattle.hlc_table_index.specs.Entries.{entries_in, keys_in, key_cmp};
ghost use Rattle.hlc_table_column.specs.Cells.{Cell};
ghost use Rattle.hlc_columns.specs.{Table.keyed, Answers.entries_left, Answers.AreAbove};

use crate::answers::Walk;
use crate::keyed::Keyed;
use hlc_table_column::Rows;
use hlc_table_index::Index;
use hlc_values::NoMemory;
use std::alloc::Global;

/// Returns the first columns whose keys are above a key, at most this many, each with its key.
pub(crate) fn columns_above<'a>(
    alloc: Global,
    columns: &'a Index<Rows>,
    key: &[u8],
    limit: usize,
) -> Result<Vec<Keyed<'a>>, NoMemory>
    ensures list { IfOk result (λ list. (above : List (List ℕ × List Cell))
        × AreAbove (entries_in columns.now) key.now above × (list.items ≡ keyed (take limit above))) }
    ensures ascend { IsStrictlySortedBy key_cmp (keys_in (entries_in columns.now)) }
{
    let mut walk = walk_above(columns, key);
    take_columns(alloc, &mut walk, limit)
}

/// Returns a walk over the columns whose keys are above a key.
fn walk_above<'a>(columns: &'a Index<Rows>, key: &[u8]) -> Walk<'a>
    ensures above { AreAbove (entries_in columns.now) key.now (entries_left result) }
    ensures ascend { IsStrictlySortedBy key_cmp (keys_in (entries_in columns.now)) }
{
    let (at, slot) = columns.seek(key);
    let mut walk = Walk::from_slot(columns, at, slot, None);
    if walk.is_at(key) {
        walk.next();
    }
    walk
}

/// Returns the next columns of a walk, at most this many.
fn take_columns<'a>(
    alloc: Global,
    walk: &mut Walk<'a>,
    limit: usize,
) -> Result<Vec<Keyed<'a>>, NoMemory>
    ensures { IfOk result (λ list. list.items ≡ keyed (take limit (entries_left walk.old))) }
{
    let mut list = Vec::new(alloc);
    for _ in 0..limit {
        let Some(next) = walk.next() else {
            return Ok(list);
        };
        list.push(Keyed::new(next.0.as_slice(), &next.1))?;
    }
    Ok(list)
}
