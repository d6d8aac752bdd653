//! What a certificate shows.
ghost use Rattle.std.specs.Prelude.{◌≡◌};

use std::marker::Model;

/// Some rows are the fewest and the cheapest. In contracts it is their number and their cost. Only
/// `check` makes one.
#[derive(Clone, Copy, PartialEq, Eq, Debug)]
pub struct Shown {
    rows: u64,
    cost: u128,
}

impl Model for Shown {
    ghost use Rattle.hlc_witness.specs.Shown.{ShownView};

    ghost Value = { ShownView };

    ghost view = { λ shown. record { rows = shown.rows; cost = shown.cost } };

    ghost inverse = { λ least. record { rows = least.rows; cost = least.cost } };
}

impl Shown {
    /// Returns the result for this number of rows and this cost.
    pub(crate) fn of(rows: u64, cost: u128) -> Shown
        ensures { result ≡ record { rows = rows; cost = cost } }
    {
        Shown { rows, cost }
    }

    /// Returns the number of rows, which is the fewest.
    pub fn count(&self) -> u64
        ensures { result ≡ self.now.rows }
    {
        self.rows
    }

    /// Returns their cost in bytes, which is the least.
    pub fn cost(&self) -> u128
        ensures { result ≡ self.now.cost }
    {
        self.cost
    }
}
