//! The listing of all stores in a snapshot.
ghost use Rattle.std.specs.Prelude.{◌≡◌, List, [], map, IfOk, IfErr, OnOk, Some, option_copied, IsPermutation};
ghost use Rattle.std.specs.{List.Sorted.IsStrictlySortedBy, Cmp.Lexicographic.slice_cmp, Ordering.nat_cmp};
ghost use Rattle.hlc_columns.specs.Answers.{AreAnswers, IsBetween};
ghost use Rattle.hlc_events.specs.declared.fault.CoreFault.TheVariants.{NoMemory as no_memory};
ghost use Rattle.hlc_ranges.specs.Run.{Layout, Turn, issued_writes};
ghost use Rattle.hlc_routing.specs.{Ranges.Represents, All.IsOpenAll, declared.fault.RangesFault.TheVariants.Store};
ghost use Rattle.hlc_routing.specs.Listing.{IsListingBetween, IsRefusedListing, HaveKeysApart, ArePairsOf, of_pair};

use crate::fault::RangesFault;
use crate::ranges::Ranges;
use crate::snapshot::RangesSnapshot;
use hlc_core::{CoreFault, Listing, Pair, ReadView};
use hlc_node::Bytes;
use hlc_ranges::{cuts_are_consistent, keys_stay_in_their_store};
use hlc_values::NoMemory;
use std::alloc::Global;

impl Ranges {
    /// Returns the keys that have a value in a snapshot of all stores, in byte order over all of them, with that value:
    /// the newest write of all that were issued at or below its stamp. Of these keys those that are not below `from`,
    /// and below `to`, if there is one.
    ///
    /// It goes through the keys of the range in each store, and sorts what it found.
    ///
    /// Refused, in this order: the snapshot is not open in each store, at its stamp; out of memory.
    pub fn list_at(
        &self,
        alloc: Global,
        snapshot: &RangesSnapshot,
        from: &[u8],
        to: Option<&[u8]>,
    ) -> Result<Listing, RangesFault>
        ensures ok { (layout : Layout) (run : List Turn) → Represents layout self.now run
            → IfOk result (IsListingBetween (issued_writes layout run)
            snapshot.now.stamp from.now (option_copied to.entry)) }
        ensures open { (layout : Layout) (run : List Turn) → Represents layout self.now run
            → OnOk result (IsOpenAll layout snapshot.now run) }
        ensures err { (layout : Layout) (run : List Turn) → Represents layout self.now run
            → IfErr result (IsRefusedListing layout snapshot.now run) }
    {
        // The law of every cut, for the contract alone.
        cuts_are_consistent();
        if !self.is_open_all(snapshot) {
            return Err(RangesFault::Store(CoreFault::NoSnapshot));
        }
        let mut pairs = Vec::new(alloc);
        self.gather(alloc, snapshot, from, to, &mut pairs)?;
        sort(&mut pairs);
        Ok(Listing::from_vec(pairs))
    }

    /// Appends the pairs of one store after another.
    fn gather(
        &self,
        alloc: Global,
        snapshot: &RangesSnapshot,
        from: &[u8],
        to: Option<&[u8]>,
        pairs: &mut Vec<Pair>,
    ) -> Result<(), RangesFault>
        requires { pairs.old.items ≡ [] }
        ensures ok { (layout : Layout) (run : List Turn) → Represents layout self.now run
            → IsOpenAll layout snapshot.now run → OnOk result (ArePairsOf layout run
            snapshot.now.stamp from.now (option_copied to.entry) layout.stores pairs.new.items) }
        ensures err { (layout : Layout) (run : List Turn) → Represents layout self.now run
            → IsOpenAll layout snapshot.now run → IfErr result (λ fault. fault ≡ Store no_memory) }
    {
        // The law of the keys of each store, for the contract alone.
        keys_stay_in_their_store();
        let stores = self.stores().len();
        for store in 0..stores {
            let Some(id) = snapshot.ids().get(store) else {
                return Err(RangesFault::Store(CoreFault::NoSnapshot));
            };
            let Some(view) = self.stores()[store].at(*id) else {
                return Err(RangesFault::Store(CoreFault::NoSnapshot));
            };
            let mut more = listed(alloc, &view, from, to)?;
            pairs.append(&mut more)?;
        }
        Ok(())
    }
}

/// Returns copies of the pairs of a view, of the keys of a range.
fn listed<'a>(
    alloc: Global,
    view: &ReadView<'a>,
    from: &[u8],
    to: Option<&'a [u8]>,
) -> Result<Vec<Pair>, NoMemory>
    ensures { IfOk result (λ pairs. AreAnswers view.now.rows view.now.stamp
        (IsBetween from.now (option_copied to.entry)) (map of_pair pairs.items)) }
{
    let mut pairs = Vec::new(alloc);
    for (key, value) in view.range(from, to) {
        let key = Bytes::from_slice(alloc, key)?;
        let value = Bytes::from_slice(alloc, value)?;
        pairs.push(Pair { key, value })?;
    }
    Ok(pairs)
}

/// Sorts pairs by key. They ascend, if no two have one key.
fn sort(pairs: &mut Vec<Pair>)
    ensures same { IsPermutation pairs.old.items pairs.new.items }
    ensures ascend { HaveKeysApart pairs.old.items
        → IsStrictlySortedBy (slice_cmp nat_cmp) (map (λ pair. pair.key) pairs.new.items) }
{
    pairs.sort_unstable_by(|a, b| a.key.as_slice().cmp(b.key.as_slice()));
}
