//! The columns of an index, leaf by leaf.
ghost use Rattle.std.specs.Prelude.{◌≡◌, ◌<◌, Some, IfOk, length, map, slice_get};
ghost use Rattle.std.specs.List.Sorted.{IsStrictlySortedBy};
ghost use Rattle.hlc_table_index.specs.Entries.{entries_in, keys_in, key_cmp};
ghost use Rattle.hlc_columns.specs.Table.{keyed};

use crate::keyed::Keyed;
use hlc_rows::Bytes;
use hlc_table_column::Rows;
use hlc_table_index::Index;
use hlc_values::NoMemory;
use std::alloc::Global;
use std::marker::Model;

/// The columns of a leaf of the index, in byte order of their keys. In contracts it is the list of them, each with its
/// key.
#[derive(Debug, Drop)]
pub struct Columns<'a> {
    entries: &'a [(Bytes, Rows)],
}

impl<'a> Model for Columns<'a> {
    ghost use Rattle.std.specs.Prelude.{List};
    ghost use Rattle.hlc_table_column.specs.Rows.{KeyCells};
    ghost use Rattle.hlc_columns.specs.Table.{keyed};

    ghost Value = { List KeyCells };

    ghost view = { λ columns. keyed columns.entries.now };
}

impl<'a> Columns<'a> {
    /// Returns the columns of a leaf.
    pub(crate) fn new(entries: &'a [(Bytes, Rows)]) -> Columns<'a>
        ensures { result ≡ keyed entries.now }
    {
        Columns { entries }
    }

    /// Returns the number of columns.
    pub fn len(&self) -> usize
        ensures { result ≡ length self.now }
    {
        self.entries.len()
    }

    /// Returns the column at a position, with its key.
    pub fn at(&self, place: usize) -> Keyed<'a>
        requires { place < length self.now }
        ensures { slice_get self.now place ≡ Some result }
    {
        entry_at(self.entries, place)
    }
}

/// Returns the entry at a position, with its key.
fn entry_at<'a>(entries: &'a [(Bytes, Rows)], place: usize) -> Keyed<'a>
    requires { place < length entries.now }
    ensures { slice_get (keyed entries.now) place ≡ Some result }
{
    let entry = &entries[place];
    Keyed::new(entry.0.as_slice(), &entry.1)
}

/// Returns the columns, leaf by leaf.
pub(crate) fn list_leaves(
    alloc: Global,
    columns: &Index<Rows>,
) -> Result<Vec<Columns<'_>>, NoMemory>
    ensures list { IfOk result (λ list. list.items ≡ map keyed columns.now) }
    ensures ascend { IsStrictlySortedBy key_cmp (keys_in (entries_in columns.now)) }
{
    let mut list = Vec::new(alloc);
    for at in 0..columns.leaves() {
        list.push(Columns::new(columns.leaf(at)))?;
    }
    Ok(list)
}
