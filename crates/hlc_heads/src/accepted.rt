//! The receipt of an accepted item.
ghost use Rattle.std.specs.Prelude.{◌≡◌};

use hlc_clock::Stamp;
use std::marker::Model;

/// An accepted item: its node and its stamp, which is or was the node's head. Only `Heads::raise` and `Heads::retire`
/// make one.
#[derive(Clone, Copy, PartialEq, Eq, Debug)]
pub struct Accepted {
    node: u16,
    stamp: Stamp,
    retires: bool,
}

impl Model for Accepted {
    ghost use Rattle.hlc_heads.specs.Heads.{AcceptedView};

    ghost Value = { AcceptedView };

    ghost view = { λ accepted. record
        { node = accepted.node; stamp = accepted.stamp; retires = accepted.retires } };

    ghost inverse = { λ acceptance. record
        { node = acceptance.node; stamp = acceptance.stamp; retires = acceptance.retires } };
}

impl Accepted {
    /// Returns the receipt of an accepted item with this node and stamp.
    pub(crate) fn new(node: u16, stamp: Stamp, retires: bool) -> Accepted
        ensures { result ≡ record { node = node; stamp = stamp; retires = retires } }
    {
        Accepted {
            node,
            stamp,
            retires,
        }
    }

    /// Returns the node that issued the item.
    pub fn node(&self) -> u16
        ensures { result ≡ self.now.node }
    {
        self.node
    }

    /// Returns the item's stamp.
    pub fn stamp(&self) -> Stamp
        ensures { result ≡ self.now.stamp }
    {
        self.stamp
    }

    /// Returns whether it was the node's last item.
    pub fn retires(&self) -> bool
        ensures { result ≡ self.now.retires }
    {
        self.retires
    }
}
