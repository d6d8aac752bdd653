//! The registry of open snapshots.
ghost use Rattle.std.specs.Prelude.{◌≡◌, ℕ, ◌+◌, ◌<◌, ◌≤◌, ◌==◌, [], ◌∷◌, ◌↔◌, IsTrue, length, if◌then◌else◌, All};
ghost use Rattle.std.specs.Prelude.{IfOk, IfErr, IfSome, OnErr, AllPairs, List, ◌-◌, nat_lt, false};
ghost use Rattle.hlc_snapshot.specs.RegistryView.{IsRegister, IsRefusal, closed, opened_at, room_refusal, ids_rise};
ghost use Rattle.hlc_snapshot.specs.RegistryView.{stamp_in, stamps, stamps_to};
ghost use Rattle.hlc_clock.specs.Points.{ArePoints};
ghost use Rattle.hlc_snapshot.specs.declared.snapshot.Snapshot.{Snapshot as ASnapshot};
ghost use Rattle.std.specs.List.Sorted.{IsPartitionPoint};

use crate::fault::{NoSnapshot, SnapshotFault};
use crate::snapshot::Snapshot;
use hlc_clock::Stamp;
use hlc_values::NoMemory;
use std::alloc::Global;
use std::marker::Model;

/// The maximum number of open snapshots.
pub const MAX_OPEN_SNAPSHOTS: usize = 1024;

/// The open snapshots of a table. In contracts they are in the order in which they were opened,
/// with the last id that was assigned.
#[derive(Debug, Drop)]
pub struct Registry {
    snapshots: Vec<Snapshot>,
    last_id: u64,
}

impl Model for Registry {
    ghost use Rattle.hlc_snapshot.specs.RegistryView.{RegistryView, IsRegister};

    ghost Value = { RegistryView };

    ghost view = { λ registry.
        record { snapshots = registry.snapshots.items; last_id = registry.last_id } };

    ghost invariant = { λ registry.
        IsRegister (record { snapshots = registry.snapshots.items; last_id = registry.last_id }) };
}

impl Registry {
    /// Returns a registry in which no snapshot was ever opened.
    pub fn new(alloc: Global) -> Registry
        ensures { result ≡ record { snapshots = []; last_id = 0 } }
    {
        Registry {
            snapshots: Vec::new(alloc),
            last_id: 0,
        }
    }

    /// Returns a registry of these open snapshots, the oldest first, and of this last id. It needs no memory.
    pub fn resuming(snapshots: Vec<Snapshot>, last_id: u64) -> Registry
        requires { IsRegister (record { snapshots = snapshots.items; last_id = last_id }) }
        ensures { result ≡ record { snapshots = snapshots.items; last_id = last_id } }
    {
        Registry { snapshots, last_id }
    }

    /// Returns the open snapshots, the oldest first.
    pub fn snapshots(&self) -> &[Snapshot]
        ensures value { result.now ≡ self.now.snapshots }
        ensures register { IsRegister self.now }
    {
        self.snapshots.as_slice()
    }

    /// Returns the last id that was assigned, 0 if none. It is the greatest, and the number of snapshots ever opened.
    pub fn last_id(&self) -> u64
        ensures { result ≡ self.now.last_id }
    {
        self.last_id
    }

    /// Opens a snapshot at a stamp and returns its id. Ids are 1, 2, 3 and so on, and are never
    /// used again.
    ///
    /// Refused, in this order: 1,024 snapshots are open; no id is left; out of memory.
    pub fn open(&mut self, stamp: Stamp) -> Result<u64, SnapshotFault>
        ensures ok { IfOk result
            (λ id. (room_refusal (length self.old.snapshots) self.old.last_id ≡ None)
            × (id ≡ self.old.last_id + 1) × (self.new ≡ opened_at self.old stamp)) }
        ensures err { IfErr result
            (λ fault. IsRefusal (room_refusal (length self.old.snapshots) self.old.last_id) fault
            × (self.new ≡ self.old)) }

        // As a map: the id had no stamp and is above all others; now it has this one, and nothing
        // else changes.
        ensures fresh { IfOk result (λ id. stamp_in id self.old.snapshots ≡ None) }
        ensures above { IfOk result (λ id. All (λ snapshot. snapshot.id < id) self.old.snapshots) }
        ensures map { IfOk result (λ id. (other : ℕ) → stamp_in other self.new.snapshots
            ≡ (if other == id then Some stamp else stamp_in other self.old.snapshots)) }
        ensures register { IsRegister self.new }
    {
        if let Some(fault) = room_fault(self.snapshots.len(), self.last_id) {
            return Err(fault);
        }
        let id = self.last_id + 1;
        if self.snapshots.push(Snapshot { id, stamp }).is_err() {
            return Err(SnapshotFault::NoMemory);
        }
        self.last_id = id;
        Ok(id)
    }

    /// Returns the stamp of the open snapshot with this id, or none. It costs one look-up if no snapshot from the
    /// oldest open one to this one was closed, and otherwise a binary search of the ids.
    pub fn stamp_of(&self, id: u64) -> Option<Stamp>
        ensures value { result ≡ stamp_in id self.now.snapshots }
        ensures register { IsRegister self.now }
    {
        let snapshots = self.snapshots.as_slice();
        let stamp = stamp_at(snapshots, place_after_oldest(snapshots, id), id);
        if stamp.is_some() {
            return stamp;
        }
        match snapshots.get(count_below(snapshots, id)) {
            Some(snapshot) if snapshot.id == id => Some(snapshot.stamp),
            _ => None,
        }
    }

    /// Closes the snapshot with this id and returns its stamp. It needs no memory.
    pub fn close(&mut self, id: u64) -> Result<Stamp, NoSnapshot>
        ensures ok { IfOk result
            (λ stamp. (stamp_in id self.old.snapshots ≡ Some stamp)
            × (self.new ≡ closed id self.old)) }
        ensures err { OnErr result ((stamp_in id self.old.snapshots ≡ None)
            × (self.new ≡ self.old)) }

        // As a map: the id has no stamp any more; nothing else changes.
        ensures map { (other : ℕ)
            → stamp_in other self.new.snapshots
            ≡ (if other == id then None else stamp_in other self.old.snapshots) }
        ensures register { IsRegister self.new }
    {
        let Some(stamp) = self.stamp_of(id) else {
            return Err(NoSnapshot);
        };
        self.snapshots.retain(|snapshot| snapshot.id != id);
        Ok(stamp)
    }

    /// Closes all open snapshots. It needs no memory.
    pub fn clear(&mut self)
        ensures { self.new ≡ record { snapshots = []; last_id = self.old.last_id } }
    {
        self.snapshots.clear();
    }

    /// Returns the points of a vacuum to this stamp: the distinct stamps of the open snapshots at or below it, and the
    /// stamp itself, ascending, so that it is the last. It needs memory for them.
    pub fn points(&self, at: Stamp) -> Result<Vec<Stamp>, NoMemory>
        ensures points { IfOk result
            (λ points. ArePoints (stamps_to at self.now.snapshots) at points.items) }
        ensures all { All (λ snapshot. snapshot.stamp ≤ at) self.now.snapshots → IfOk result
            (λ points. ArePoints (stamps self.now.snapshots) at points.items) }
    {
        let mut points = self.stamps_to(at)?;
        points.push(at)?;
        points.sort_unstable();
        points.dedup();
        Ok(points)
    }

    /// Returns the stamps of the open snapshots at or below a bound.
    fn stamps_to(&self, bound: Stamp) -> Result<Vec<Stamp>, NoMemory>
        ensures { IfOk result (λ found. found.items ≡ stamps_to bound self.now.snapshots) }
    {
        let alloc = *self.snapshots.allocator();
        let found: Vec<Stamp> = self
            .snapshots
            .iter()
            .map(|snapshot| snapshot.stamp)
            .filter(|stamp| *stamp <= bound)
            .collect(alloc)?;
        Ok(found)
    }
}

/// Returns whether these may be the open snapshots of a registry with this last id.
pub fn is_register(snapshots: &[Snapshot], last_id: u64) -> bool
    ensures { IsTrue result
        ↔ IsRegister (record { snapshots = snapshots.now; last_id = last_id }) }
{
    if snapshots.len() > MAX_OPEN_SNAPSHOTS || last_id > u64::MAX - 1 {
        return false;
    }
    do_ids_rise(snapshots, last_id)
}

/// Returns the position of a snapshot, assuming that no snapshot from the oldest open one to this one was closed: ids
/// are assigned in order.
fn place_after_oldest(snapshots: &[Snapshot], id: u64) -> usize
    ensures { (oldest : ASnapshot) (newer : List ASnapshot) → snapshots.now ≡ oldest ∷ newer
        → result ≡ id - oldest.id }
{
    match snapshots.first() {
        Some(oldest) => id.saturating_sub(oldest.id) as usize,
        None => 0,
    }
}

/// Returns the stamp of the snapshot at a position, if it has this id.
fn stamp_at(snapshots: &[Snapshot], place: usize, id: u64) -> Option<Stamp>
    requires { AllPairs (λ older newer. older.id < newer.id) snapshots.now }
    ensures { IfSome result (λ stamp. stamp_in id snapshots.now ≡ Some stamp) }
{
    let snapshot = snapshots.get(place)?;
    if snapshot.id == id {
        Some(snapshot.stamp)
    } else {
        None
    }
}

/// Returns the number of snapshots with a lower id. They come first.
fn count_below(snapshots: &[Snapshot], id: u64) -> usize
    requires { AllPairs (λ older newer. older.id < newer.id) snapshots.now }
    ensures { IsPartitionPoint (λ snapshot. IsTrue (nat_lt snapshot.id id))
        (λ snapshot. nat_lt snapshot.id id ≡ false) snapshots.now result }
{
    snapshots.partition_point(|snapshot| snapshot.id < id)
}

/// Returns whether the ids ascend and are between 1 and `most`.
fn do_ids_rise(snapshots: &[Snapshot], most: u64) -> bool
    ensures { result ≡ ids_rise 0 most snapshots.now }
{
    let mut last = 0;
    for snapshot in snapshots {
        if snapshot.id <= last {
            return false;
        }
        last = snapshot.id;
    }
    last <= most
}

/// Returns the first reason that no snapshot can be opened, from the number of open snapshots and the last id; or none.
fn room_fault(open_now: usize, last_id: u64) -> Option<SnapshotFault>
    ensures { result ≡ room_refusal open_now last_id }
{
    if open_now >= MAX_OPEN_SNAPSHOTS {
        return Some(SnapshotFault::TooManySnapshots);
    }
    if last_id >= u64::MAX - 1 {
        return Some(SnapshotFault::NumbersSpent);
    }
    None
}
