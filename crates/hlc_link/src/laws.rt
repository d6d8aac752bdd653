//! What is true of a link between any two steps.
ghost use Rattle.std.specs.Prelude.{ℕ, List};
ghost use Rattle.hlc_link.specs.declared.rule.{Hand.Hand, Parcel.Parcel as AParcel};
ghost use Rattle.hlc_link.specs.Link.{IsSender, IsReceiver, IsInOrder, Carries};

/// Between any two steps of any thread: the items put are the items taken followed by the items in
/// transit, an end comes last, and the receiver has ended only if the sender has and nothing is in
/// transit.
pub fn link_carries()
    ensures { (in_transit : List AParcel) (hands : List Hand) (s r : ℕ) (sender receiver : Hand)
        → IsInOrder in_transit hands
        → IsSender hands s sender → IsReceiver hands r receiver → Carries in_transit sender receiver }
{}
