//! Where a snapshot of all stores is open.
ghost use Rattle.std.specs.Prelude.{◌↔◌, List, IsTrue, MatchOption};
ghost use Rattle.hlc_ranges.specs.Run.{Layout, Turn};
ghost use Rattle.hlc_routing.specs.{Ranges.Represents, All.IsIdAt, All.IsOpenAt, All.IsOpenAll};

use crate::ranges::Ranges;
use crate::snapshot::RangesSnapshot;

impl Ranges {
    /// Returns whether a snapshot is open in each store, at its stamp.
    pub(crate) fn is_open_all(&self, snapshot: &RangesSnapshot) -> bool
        ensures { (layout : Layout) (run : List Turn) → Represents layout self.now run
            → IsTrue result ↔ IsOpenAll layout snapshot.now run }
    {
        let stores = self.stores().len();
        if snapshot.ids().len() != stores {
            return false;
        }
        for store in 0..stores {
            if self.id_in(snapshot, store).is_none() {
                return false;
            }
        }
        true
    }

    /// Returns the id of a snapshot in a store, or none if it is not open there at its stamp.
    pub(crate) fn id_in(&self, snapshot: &RangesSnapshot, store: usize) -> Option<u64>
        ensures { (layout : Layout) (run : List Turn) → Represents layout self.now run
            → MatchOption result (IsOpenAt layout snapshot.now run store → ⊥) (IsIdAt layout snapshot.now run store) }
    {
        let Some(id) = snapshot.ids().get(store) else {
            return None;
        };
        let Some(core) = self.stores().get(store) else {
            return None;
        };
        let Some(stamp) = core.stamp_of(*id) else {
            return None;
        };
        if stamp != snapshot.stamp() {
            return None;
        }
        Some(*id)
    }
}
