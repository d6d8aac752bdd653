//! The content of a link, and the rule of its channel.
ghost use Rattle.std.specs.Prelude.{⊤};

use crossbeam_channel::protocol::{Join, Lesson, Outcome, Protocol, Split};
use hlc_node::Item;
use std::collections::LinkedList;

/// What a link carries: items, and then the end.
#[derive(Clone, PartialEq, Eq, Debug, Drop)]
pub enum Parcel {
    /// An item of the node.
    Item(Item),
    /// The end: no further item follows.
    End,
}

/// What the owner of a pass may do, and what it has put and taken. It appears in the rule alone: no
/// value of it is made.
pub struct Hand {
    /// Whether it may put.
    pub puts: bool,
    /// The items that it put, the first of them first.
    pub put: LinkedList<Item>,
    /// Whether it put the end.
    pub end_put: bool,
    /// Whether it may take.
    pub takes: bool,
    /// The items that it took, the first of them first.
    pub taken: LinkedList<Item>,
    /// Whether it took the end.
    pub end_taken: bool,
}

/// The rule of a link: it is true between any two steps.
pub struct InOrder;

impl Protocol<Parcel, Hand> for InOrder {
    ghost use Rattle.hlc_link.specs.Link.{both, IsInOrder};

    ghost holds = { IsInOrder };

    ghost first = { both };
}

/// The first pass is split into two: the sender's and the receiver's.
pub struct Ends;

impl Split<Hand> for Ends {
    ghost use Rattle.hlc_link.specs.Link.{sender_of, receiver_of};

    ghost left = { sender_of };

    ghost right = { receiver_of };
}

/// The two parts are joined into one pass again.
impl Join<Hand> for Ends {
    ghost use Rattle.hlc_link.specs.Link.{joined, nobody};

    ghost both = { joined };

    ghost spent = { nobody };
}

/// A pass that may do nothing is split off.
pub struct Spare;

impl Split<Hand> for Spare {
    ghost use Rattle.hlc_link.specs.Link.{nobody};

    ghost left = { λ hand. hand };

    ghost right = { λ hand. nobody };
}

/// What the pass of both the sender and the receiver knows: the content of the link.
pub struct Carried;

impl Lesson<Parcel, Hand> for Carried {
    ghost use Rattle.hlc_link.specs.Link.{Carries};

    ghost fact = { λ hand parcels. Carries parcels hand hand };
}

/// A step of the sender: one parcel is put at the back.
pub struct Puts;

impl Outcome<Parcel, Hand> for Puts {
    ghost use Rattle.std.specs.Prelude.{◌≡◌};
    ghost use Rattle.hlc_link.specs.Link.{after_put};

    ghost then = { λ before parcel after. after ≡ after_put before parcel };
}

impl Lesson<Parcel, Hand> for Puts {
    ghost fact = { λ hand parcels. ⊤ };
}

/// A step of the receiver: the parcel at the front is taken.
pub struct Takes;

impl Outcome<Parcel, Hand> for Takes {
    ghost use Rattle.std.specs.Prelude.{◌≡◌};
    ghost use Rattle.hlc_link.specs.Link.{after_take};

    ghost then = { λ before parcel after. after ≡ after_take before parcel };
}

impl Lesson<Parcel, Hand> for Takes {
    ghost fact = { λ hand parcels. ⊤ };
}
