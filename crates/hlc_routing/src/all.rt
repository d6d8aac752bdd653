//! Calls of all stores.
ghost use Rattle.std.specs.Prelude.{◌≡◌, ◌≤◌, ◌<◌, ◌↔◌, ℕ, List, [], Some, length, vec_capacity, IsTrue, IfOk, IfErr};
ghost use Rattle.std.specs.Prelude.{OnOk, OnErr, IsOkAnd, option_copied};
ghost use Rattle.hlc_rows.specs.Rows.{answer};
ghost use Rattle.hlc_core.specs.Past.{Vacuumed, stamp_of, writes};
ghost use Rattle.hlc_ranges.specs.{Run.Layout, Run.Turn, Run.issued_writes, Run.past_of, Cut.IsConsistent};
ghost use Rattle.hlc_routing.specs.{Ranges.Represents, Ranges.IsLeastFloor, Division.store_of};
ghost use Rattle.hlc_routing.specs.All.{IsOpenAll, OpensAll, ClosesAll, HaveStopped, AreVacuumed, AreVacuumedSome};
ghost use Rattle.hlc_routing.specs.All.{HaveJoined, HaveJoinedSome, vacuum_refusals, join_refusals, join_step};
ghost use Rattle.hlc_routing.specs.All.{AreJoins, HasOpenedTo, HasOpenedSome, AreCheckpoints, each_closed, closed_at};
ghost use Rattle.hlc_routing.specs.All.{AreOpenTo, AreOpenIn, IsOpenIn, IsOpenAt};

use crate::fault::RangesFault;
use crate::ranges::Ranges;
use crate::snapshot::RangesSnapshot;
use hlc_checkpoint::Checkpoint;
use hlc_clock::Stamp;
use hlc_core::{CoreFault, NoSnapshot};
use hlc_ranges::cuts_are_consistent;
use hlc_vacuum::Report;
use hlc_values::NoMemory;
use std::alloc::Global;

impl Ranges {
    /// Opens a snapshot of all stores at the cut: `open_at` the least floor.
    pub fn open_cut(&mut self, alloc: Global) -> Result<RangesSnapshot, RangesFault>
        ensures represents { (layout : Layout) (run : List Turn) → Represents layout self.old run
            → (stamp : ℕ) × IsLeastFloor self.old.stores stamp
            × OpensAll layout self.old self.new stamp run result }
        ensures division { self.new.division ≡ self.old.division }
    {
        let stamp = self.cut();
        self.open_at(alloc, stamp)
    }

    /// Opens a snapshot in each store at a stamp, from the horizon of each to its floor, so that the stamp is a cut.
    ///
    /// All stores open it or none has it open: where one refuses, those before it close it again; their ids are not
    /// assigned again. Refused: out of memory for the ids, first of all; or by the first store that refuses, for the
    /// reasons of `Core::open`.
    pub fn open_at(&mut self, alloc: Global, stamp: Stamp) -> Result<RangesSnapshot, RangesFault>
        ensures represents { (layout : Layout) (run : List Turn) → Represents layout self.old run
            → OpensAll layout self.old self.new stamp run result }
        ensures consistent { (layout : Layout) (run : List Turn) → Represents layout self.old run
            → OnOk result (IsConsistent layout run stamp) }
        ensures division { self.new.division ≡ self.old.division }
    {
        // The law of every cut, for the contract alone.
        cuts_are_consistent();
        let mut ids = match Vec::with_capacity(alloc, self.stores().len()) {
            Ok(ids) => ids,
            Err(_) => return Err(RangesFault::Store(CoreFault::NoMemory)),
        };
        match self.open_each(stamp, &mut ids) {
            Ok(()) => Ok(RangesSnapshot::new(stamp, ids)),
            Err(fault) => {
                self.close_each(ids.as_slice());
                Err(fault)
            }
        }
    }

    /// Closes a snapshot of all stores: in each store in which it is open. It needs no memory.
    ///
    /// Refused if it was not open in a store; then it is closed in the others.
    pub fn close_all(&mut self, snapshot: &RangesSnapshot) -> Result<(), NoSnapshot>
        ensures represents { (layout : Layout) (run : List Turn) → Represents layout self.old run
            → Represents layout self.new
            (each_closed layout snapshot.now.ids (length snapshot.now.ids) run) }
        ensures ok { (layout : Layout) (run : List Turn) → Represents layout self.old run
            → OnOk result (AreOpenIn layout run snapshot.now.ids) }
        ensures err { (layout : Layout) (run : List Turn) → Represents layout self.old run
            → OnErr result (AreOpenIn layout run snapshot.now.ids → ⊥) }
        ensures all { (layout : Layout) (run : List Turn) → Represents layout self.old run
            → IsOpenAll layout snapshot.now run → ClosesAll layout self.new snapshot.now run }
        ensures division { self.new.division ≡ self.old.division }
    {
        let many = self.stores().len();
        let open = self.close_each(snapshot.ids());
        if snapshot.ids().len() != many {
            return Err(NoSnapshot);
        }
        if open { Ok(()) } else { Err(NoSnapshot) }
    }

    /// Returns the value of a key, or none, in a snapshot of all stores: the newest write of all that were issued at or
    /// below its stamp. The key may be any bytes.
    ///
    /// Refused if the snapshot is not open in the key's store, at its stamp.
    pub fn read_at(
        &self,
        snapshot: &RangesSnapshot,
        key: &[u8],
    ) -> Result<Option<&[u8]>, NoSnapshot>
        ensures newest { (layout : Layout) (run : List Turn) → Represents layout self.now run
            → IsOpenAll layout snapshot.now run → IsOkAnd result
            (λ value. option_copied value ≡ answer (issued_writes layout run) key.now snapshot.now.stamp) }
        ensures ok { (layout : Layout) (run : List Turn) → Represents layout self.now run → IfOk result (λ value.
            IsOpenAt layout snapshot.now run (store_of self.now.division key.now)
            × (option_copied value ≡ answer
            (writes (past_of layout (store_of self.now.division key.now) run)) key.now snapshot.now.stamp)) }
        ensures err { (layout : Layout) (run : List Turn) → Represents layout self.now run
            → OnErr result (IsOpenAt layout snapshot.now run (store_of self.now.division key.now) → ⊥) }
    {
        let store = self.store_of(key);
        let Some(id) = self.id_in(snapshot, store) else {
            return Err(NoSnapshot);
        };
        self.read(id, key)
    }

    /// Vacuums all stores to a stamp, as `Core::vacuum_to` does, and returns the reports, that of the first store
    /// first.
    ///
    /// Refused: out of memory for the list, first of all; or by the first store that refuses. Then those before it are
    /// vacuumed: the call may be repeated.
    pub fn vacuum_to(&mut self, alloc: Global, at: Stamp) -> Result<Vec<Report>, RangesFault>
        ensures ok { (layout : Layout) (run : List Turn) → Represents layout self.old run
            → IfOk result (λ reports. AreVacuumed layout self.new at run reports.items) }
        ensures err { (layout : Layout) (run : List Turn) → Represents layout self.old run
            → IfErr result (AreVacuumedSome layout self.old self.new at run) }
        ensures division { self.new.division ≡ self.old.division }
    {
        let mut reports = match Vec::with_capacity(alloc, self.stores().len()) {
            Ok(reports) => reports,
            Err(_) => return Err(RangesFault::Store(CoreFault::NoMemory)),
        };
        match self.vacuum_each(at, &mut reports) {
            Ok(()) => Ok(reports),
            Err(fault) => Err(fault),
        }
    }

    /// Adds a node to all stores, for one more machine, and returns its number and its start in each, the first store
    /// first. It starts at the floor of each store, so no floor moves.
    ///
    /// Refused: out of memory for the list, first of all; or by the first store that refuses, for the reasons of
    /// `Core::join`. Then the numbers and starts in those before it are returned too, and hold back their floors:
    /// `join_in` lets the node join the others, or it retires there.
    pub fn join(
        &mut self,
        alloc: Global,
    ) -> Result<Vec<(u16, Stamp)>, (RangesFault, Vec<(u16, Stamp)>)>
        ensures ok { (layout : Layout) (run : List Turn) → Represents layout self.old run
            → IfOk result (λ made. HaveJoined layout self.new run made.items) }
        ensures err { (layout : Layout) (run : List Turn) → Represents layout self.old run
            → IfErr result (λ refused.
            HaveJoinedSome layout self.old self.new run refused.0 refused.1.items) }
        ensures division { self.new.division ≡ self.old.division }
    {
        let mut made = match Vec::with_capacity(alloc, self.stores().len()) {
            Ok(made) => made,
            Err(_) => return Err((RangesFault::Store(CoreFault::NoMemory), Vec::new(alloc))),
        };
        match self.join_each(&mut made) {
            Ok(()) => Ok(made),
            Err(fault) => Err((fault, made)),
        }
    }

    /// Makes a checkpoint of each store, the first store first: together they are one of all, at the cut. Refused only
    /// if memory runs out.
    pub fn checkpoints(&self, alloc: Global) -> Result<Vec<Checkpoint>, NoMemory>
        ensures kept { IfOk result (λ made. AreCheckpoints self.now.stores made.items) }
        ensures represents { (layout : Layout) (run : List Turn) → Represents layout self.now run
            → IfOk result (λ made. Represents layout
            (record { division = self.now.division; stores = made.items }) run) }
    {
        let mut made = Vec::with_capacity(alloc, self.stores().len())?;
        for core in self.stores() {
            made.push_reserved(core.checkpoint()?);
        }
        Ok(made)
    }

    /// Opens a snapshot in one store after another, up to the first that refuses, and appends their ids.
    fn open_each(&mut self, stamp: Stamp, ids: &mut Vec<u64>) -> Result<(), RangesFault>
        requires empty { ids.old.items ≡ [] }
        requires room { length self.old.stores ≤ vec_capacity ids.old }
        ensures ok { (layout : Layout) (run : List Turn) → Represents layout self.old run
            → OnOk result (HasOpenedTo layout self.new stamp run ids.new.items layout.stores) }
        ensures err { (layout : Layout) (run : List Turn) → Represents layout self.old run
            → IfErr result (HasOpenedSome layout self.new stamp run ids.new.items) }
        ensures division { self.new.division ≡ self.old.division }
    {
        let many = self.stores().len();
        for store in 0..many {
            match self.open(store, stamp) {
                Ok(id) => ids.push_reserved(id),
                Err(fault) => return Err(fault),
            }
        }
        Ok(())
    }

    /// Closes the snapshots with these ids, one in each of the first stores, where they are open, and returns whether
    /// all were.
    fn close_each(&mut self, ids: &[u64]) -> bool
        ensures represents { (layout : Layout) (run : List Turn) → Represents layout self.old run
            → Represents layout self.new (each_closed layout ids.now (length ids.now) run) }
        ensures open { (layout : Layout) (run : List Turn) → Represents layout self.old run
            → IsTrue result ↔ AreOpenTo layout run ids.now }
        ensures division { self.new.division ≡ self.old.division }
    {
        let mut open = true;
        for store in 0..ids.len() {
            if !self.close_open(store, ids[store]) {
                open = false;
            }
        }
        open
    }

    /// Closes the snapshot of one store with this id, if it is open there, and returns whether it was.
    fn close_open(&mut self, store: usize, id: u64) -> bool
        ensures represents { (layout : Layout) (run : List Turn) → Represents layout self.old run
            → Represents layout self.new (closed_at (stamp_of id (past_of layout store run)) store id run) }
        ensures open { (layout : Layout) (run : List Turn) → Represents layout self.old run
            → IsTrue result ↔ IsOpenIn layout run store id }
        ensures division { self.new.division ≡ self.old.division }
    {
        self.close(store, id).is_ok()
    }

    /// Vacuums one store after another, up to the first that refuses, and appends their reports.
    fn vacuum_each(&mut self, at: Stamp, reports: &mut Vec<Report>) -> Result<(), RangesFault>
        requires empty { reports.old.items ≡ [] }
        requires room { length self.old.stores ≤ vec_capacity reports.old }
        ensures ok { (layout : Layout) (run : List Turn) → Represents layout self.old run
            → OnOk result (AreVacuumed layout self.new at run reports.new.items) }
        ensures err { (layout : Layout) (run : List Turn) → Represents layout self.old run
            → IfErr result (HaveStopped layout self.new run (vacuum_refusals layout run at)
            (λ _. Vacuumed at)) }
        ensures division { self.new.division ≡ self.old.division }
    {
        let stores = self.stores().len();
        for store in 0..stores {
            match self.vacuum_in(store, at) {
                Ok(report) => reports.push_reserved(report),
                Err(fault) => return Err(fault),
            }
        }
        Ok(())
    }

    /// Lets a node join one store after another, up to the first that refuses, and appends its numbers and starts.
    fn join_each(&mut self, made: &mut Vec<(u16, Stamp)>) -> Result<(), RangesFault>
        requires empty { made.old.items ≡ [] }
        requires room { length self.old.stores ≤ vec_capacity made.old }
        ensures ok { (layout : Layout) (run : List Turn) → Represents layout self.old run
            → OnOk result (HaveJoined layout self.new run made.new.items) }
        ensures err { (layout : Layout) (run : List Turn) → Represents layout self.old run
            → IfErr result (λ fault. (stopped : HaveStopped layout self.new run
            (join_refusals layout run) (join_step layout run) fault)
            × AreJoins layout run made.new.items stopped.at) }
        ensures division { self.new.division ≡ self.old.division }
    {
        let stores = self.stores().len();
        for store in 0..stores {
            match self.join_in(store) {
                Ok(node) => made.push_reserved(node),
                Err(fault) => return Err(fault),
            }
        }
        Ok(())
    }
}
