//! Whether stores have only the keys that a division gives them.
ghost use Rattle.std.specs.Prelude.{◌≡◌, ◌↔◌, IfOk, IfErr, IsTrue, MatchOption};
ghost use Rattle.hlc_table_column.specs.Rows.{rows_in};
ghost use Rattle.hlc_columns.specs.Table.{columns_in};
ghost use Rattle.hlc_routing.specs.{Faults.placing_code, Placing.ArePlaced, Placing.AreAllPlaced, Placing.IsFirstOther};
ghost use Rattle.hlc_routing.specs.{Placing.IsOther, Placing.IsOtherAt, Placing.IsOtherOf, Placing.IsRefusedPlacing};

use crate::division::Division;
use crate::ranges::Ranges;
use hlc_checkpoint::Leaves;
use hlc_columns::{Columns, Keyed};
use hlc_core::Core;
use hlc_node::Bytes;
use hlc_values::NoMemory;
use std::alloc::Global;
use std::error::Error;
use std::fmt;

/// Why stores are not those of a division.
#[derive(Debug, Drop)]
pub enum PlacingFault {
    /// They are more or fewer than it divides the keys over.
    Number,
    /// This store has a row of this key, which belongs to another one.
    Key(usize, Bytes),
    /// Memory runs out.
    NoMemory,
}

impl PlacingFault {
    /// Returns the number of this refusal in outputs: 123, 121 or 15.
    pub fn code(&self) -> u32
        ensures { result ≡ placing_code self.now }
    {
        match self {
            PlacingFault::Number => 123,
            PlacingFault::Key(_, _) => 121,
            PlacingFault::NoMemory => 15,
        }
    }
}

impl fmt::Display for PlacingFault {
    ghost use Rattle.std.specs.Prelude.{Some};
    ghost use Rattle.hlc_routing.specs.Faults.{placing_text};

    ghost output = { λ fault. Some (placing_text fault) };

    fn fmt<W: fmt::Write>(&self, f: &mut fmt::Formatter<W>) -> fmt::Result {
        f.write_str(match self {
            PlacingFault::Number => "the division has more or fewer stores",
            PlacingFault::Key(_, _) => "a store has a key that belongs to another store",
            PlacingFault::NoMemory => "out of memory",
        })
    }
}

impl Error for PlacingFault {}

impl Ranges {
    /// Takes the stores of a division as `of` does, after a look at the keys of each. So stores that were restored, and
    /// divided otherwise before, are not taken with keys where no read looks for them. It goes through all keys, and
    /// reads no rows.
    ///
    /// Refused, in this order: more or fewer stores than the division has; a store has a row of another one's key, the
    /// first such store and its first such key. Out of memory where it meets it. The stores of a refusal are dropped.
    pub fn checked(
        alloc: Global,
        division: Division,
        stores: Vec<Core>,
    ) -> Result<Ranges, PlacingFault>
        ensures ok { IfOk result (λ ranges. (ranges ≡ record { division = division; stores = stores.items })
            × AreAllPlaced division stores.items) }
        ensures err { IfErr result (IsRefusedPlacing division stores.items) }
    {
        if stores.len() != division.stores() {
            return Err(PlacingFault::Number);
        }
        for store in 0..stores.len() {
            match first_other(alloc, &division, store, &stores[store]) {
                Ok(None) => {}
                Ok(Some(key)) => return Err(PlacingFault::Key(store, key)),
                Err(_) => return Err(PlacingFault::NoMemory),
            }
        }
        match Ranges::of(division, stores) {
            Some(ranges) => Ok(ranges),
            None => Err(PlacingFault::Number),
        }
    }
}

/// Returns a copy of the first key of a store, in byte order, that belongs to another one.
fn first_other(
    alloc: Global,
    division: &Division,
    store: usize,
    core: &Core,
) -> Result<Option<Bytes>, NoMemory>
    ensures { IfOk result (λ found. MatchOption found (ArePlaced division.now store core.now.rows)
        (λ key. IsFirstOther division.now store core.now.rows key)) }
{
    let leaves = core.lent().leaves()?;
    match other_of(division, store, &leaves) {
        None => Ok(None),
        Some((at, place)) => Ok(Some(Bytes::from_slice(alloc, leaves.at(at).at(place).key())?)),
    }
}

/// Returns the first leaf that has a column with rows and the key of another store, and the place of that column.
fn other_of(division: &Division, store: usize, leaves: &Leaves<'_>) -> Option<(usize, usize)>
    ensures { MatchOption result (ArePlaced division.now store (rows_in (columns_in leaves.now)))
        (IsOtherOf division.now store leaves.now) }
{
    for at in 0..leaves.len() {
        match other_in(division, store, leaves.at(at)) {
            None => {}
            Some(place) => return Some((at, place)),
        }
    }
    None
}

/// Returns the first place in a leaf of a column that has rows, and the key of another store.
fn other_in(division: &Division, store: usize, leaf: &Columns<'_>) -> Option<usize>
    ensures { MatchOption result (ArePlaced division.now store (rows_in leaf.now))
        (IsOtherAt division.now store leaf.now) }
{
    for place in 0..leaf.len() {
        if is_other(division, store, &leaf.at(place)) {
            return Some(place);
        }
    }
    None
}

/// Returns whether a column has rows, and the key of another store.
fn is_other(division: &Division, store: usize, column: &Keyed<'_>) -> bool
    ensures { IsTrue result ↔ IsOther division.now store column.now }
{
    column.column().len() > 0 && division.store_of(column.key()) != store
}
