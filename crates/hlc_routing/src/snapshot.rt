//! A snapshot of all stores.
ghost use Rattle.std.specs.Prelude.{◌≡◌};

use hlc_clock::Stamp;
use std::marker::Model;

/// A snapshot that was opened in all stores at one stamp. It has an id in each store.
#[derive(Debug, Drop)]
pub struct RangesSnapshot {
    stamp: Stamp,
    ids: Vec<u64>,
}

impl Model for RangesSnapshot {
    ghost use Rattle.hlc_routing.specs.All.{SnapshotView};

    ghost Value = { SnapshotView };

    ghost view = { λ snapshot. record { stamp = snapshot.stamp; ids = snapshot.ids.items } };
}

impl RangesSnapshot {
    /// Returns the snapshot with this stamp and these ids, that of the first store first.
    pub(crate) fn new(stamp: Stamp, ids: Vec<u64>) -> RangesSnapshot
        ensures { result ≡ record { stamp = stamp; ids = ids.items } }
    {
        RangesSnapshot { stamp, ids }
    }

    /// Returns its stamp.
    pub fn stamp(&self) -> Stamp
        ensures { result ≡ self.now.stamp }
    {
        self.stamp
    }

    /// Returns its ids, that of the first store first.
    pub fn ids(&self) -> &[u64]
        ensures { result.now ≡ self.now.ids }
    {
        self.ids.as_slice()
    }
}
