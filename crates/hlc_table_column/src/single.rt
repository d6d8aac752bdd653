//! One row without its key.
ghost use Rattle.std.specs.Prelude.{◌≡◌};

use hlc_clock::Stamp;
use hlc_rows::{Bytes, ValueOrMark};
use std::marker::Model;

/// One row without its key. In contracts it is its cell.
#[derive(Debug, Drop)]
pub(crate) struct Single {
    pub(crate) node: u16,
    pub(crate) stamp: u64,
    pub(crate) value: ValueOrMark,
}

impl Model for Single {
    ghost use Rattle.hlc_table_column.specs.Cells.{Cell};

    ghost Value = { Cell };

    ghost view = { λ one. record { stamp = one.stamp; node = one.node; value = one.value } };
}

impl Single {
    /// Returns the row of this stamp, node and value, or deletion mark if there is no value.
    pub(crate) fn new(stamp: Stamp, node: u16, value: Option<Bytes>) -> Single
        ensures { result ≡ record { stamp = stamp; node = node; value = value } }
    {
        Single {
            node,
            stamp: stamp.bits(),
            value: ValueOrMark::new(value),
        }
    }
}
