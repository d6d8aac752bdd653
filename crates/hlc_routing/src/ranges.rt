//! Stores with one key space.
ghost use Rattle.std.specs.Prelude.{◌≡◌, ◌≢◌, ◌↔◌, ◌∷◌, ◌<◌, List, length, min, IsTrue, IfErr, OnOk, OnErr, IfOk, ℕ};
ghost use Rattle.std.specs.Prelude.{Some, IfSome, IfNone, IsOkAnd, IsErr, MatchOption, option_copied, slice_get};
ghost use Rattle.hlc_rows.specs.Rows.{answer};
ghost use Rattle.hlc_node.specs.Items.{retires};
ghost use Rattle.hlc_core.specs.Past.{Took, stamp_of, writes};
ghost use Rattle.hlc_ranges.specs.Run.{Layout, Turn, Stepped, IsIssuedStep, past_of, issued_writes};
ghost use Rattle.hlc_ranges.specs.Cut.{IsCut, IsConsistent};
ghost use Rattle.hlc_routing.specs.{Division.stores_of, Division.store_of, All.VacuumsIn, All.JoinsIn};
ghost use Rattle.hlc_routing.specs.Ranges.{Represents, IsLeastFloor, IsOfStore, IsRefusedFor, HasTaken, OpensIn};
ghost use Rattle.hlc_routing.specs.Ranges.{ClosesIn};

use crate::division::{Division, are_of_store};
use crate::fault::RangesFault;
use hlc_clock::Stamp;
use hlc_core::{Accepted, Core, CoreFault, NoSnapshot};
use hlc_node::{Body, Item};
use hlc_ranges::cuts_are_consistent;
use hlc_vacuum::Report;
use std::marker::Model;

/// Stores with one key space: each key belongs to one of them.
///
/// In contracts they represent a run: what took place in each store, and at the machines that write to them, in one
/// order. A machine has a node in each store, and one clock for all of them.
#[derive(Debug, Drop)]
pub struct Ranges {
    division: Division,
    stores: Vec<Core>,
}

impl Model for Ranges {
    ghost use Rattle.std.specs.Prelude.{◌≡◌, ◌<◌, length};
    ghost use Rattle.hlc_routing.specs.Division.{stores_of};
    ghost use Rattle.hlc_routing.specs.Ranges.{RangesView};

    ghost Value = { RangesView };

    ghost view = { λ ranges. record { division = ranges.division; stores = ranges.stores.items } };

    ghost invariant = { λ ranges. (length ranges.stores.items ≡ stores_of ranges.division)
        × (0 < length ranges.stores.items) };
}

impl Ranges {
    /// Takes the stores of a division, the first one first. Returns none if there are more or fewer than it divides the
    /// keys over.
    pub fn of(division: Division, stores: Vec<Core>) -> Option<Ranges>
        ensures ok { IfSome result (λ ranges. ranges ≡ record { division = division; stores = stores.items }) }
        ensures none { IfNone result (length stores.items ≢ stores_of division) }
    {
        if stores.len() != division.stores() {
            return None;
        }
        Some(Ranges { division, stores })
    }

    /// Returns how the keys are divided.
    pub fn division(&self) -> &Division
        ensures { result.now ≡ self.now.division }
    {
        &self.division
    }

    /// Returns the stores.
    pub fn stores(&self) -> &[Core]
        ensures value { result.now ≡ self.now.stores }
        ensures len { length result.now ≡ stores_of self.now.division }
    {
        self.stores.as_slice()
    }

    /// Returns the store of a key, which may be any bytes.
    pub fn store_of(&self, key: &[u8]) -> usize
        ensures value { result ≡ store_of self.now.division key.now }
        ensures inside { result < length self.now.stores }
    {
        self.division.store_of(key)
    }

    /// Returns the least floor of all stores, which is a consistent cut: each item that any machine issued at or below
    /// it was accepted by its store, and so was all that happened before; and a read there, of a key in its store,
    /// gives the newest of all writes. It goes through all stores.
    pub fn cut(&self) -> Stamp
        ensures least { IsLeastFloor self.now.stores result }
        ensures cut { (layout : Layout) (run : List Turn) → Represents layout self.now run → IsCut layout run result }
        ensures consistent { (layout : Layout) (run : List Turn) → Represents layout self.now run
            → IsConsistent layout run result }
    {
        // The law of every cut, for the contract alone.
        cuts_are_consistent();
        let mut least = self.stores[0].floor();
        for index in 1..self.stores.len() {
            let floor = self.stores[index].floor();
            let lower = lesser(least, floor);
            least = lower;
        }
        least
    }

    /// Lets a store accept the next item of one of its links.
    ///
    /// Refused, in this order: no such store; a write of another store's key, alone or in a batch; and for the reasons
    /// of `Core::accept`. A refusal changes nothing, and returns the item.
    pub fn accept(&mut self, store: usize, item: Item) -> Result<Accepted, (RangesFault, Item)>
        ensures represents { (layout : Layout) (run : List Turn) → Represents layout self.old run
            → IsIssuedStep store (Took item) run
            → OnOk result (Represents layout self.new (Stepped store (Took item) ∷ run)) }
        ensures ok { OnOk result ((store < length self.old.stores) × IsOfStore self.old.division store item.body) }
        ensures accepted { IfOk result (λ accepted. accepted ≡ record
            { node = item.node; stamp = item.stamp; retires = retires item.body }) }
        ensures takes { OnOk result (HasTaken self.old self.new store item) }
        ensures err { IfErr result (λ refused. IsRefusedFor self.old store item refused.0) }
        ensures item { IfErr result (λ refused. refused.1 ≡ item) }
        ensures unchanged { OnErr result (self.new ≡ self.old) }
        ensures division { self.new.division ≡ self.old.division }
    {
        let is_of_store = is_of_store(&self.division, store, &item.body);
        let Some(core) = self.stores.get_mut(store) else {
            return Err((RangesFault::NoStore, item));
        };
        if !is_of_store {
            return Err((RangesFault::WrongStore, item));
        }
        match core.accept(item) {
            Ok(accepted) => Ok(accepted),
            Err((fault, item)) => Err((RangesFault::Store(fault), item)),
        }
    }

    /// Opens a snapshot of one store at a stamp, and returns its id there. Opened at one cut in every store, they are
    /// together one of all.
    ///
    /// Refused: no such store; or for the reasons of `Core::open`. A refusal changes nothing.
    pub fn open(&mut self, store: usize, stamp: Stamp) -> Result<u64, RangesFault>
        ensures represents { (layout : Layout) (run : List Turn) → Represents layout self.old run
            → OpensIn layout self.old self.new store stamp run result }
        ensures unchanged { OnErr result (self.new ≡ self.old) }
        ensures division { self.new.division ≡ self.old.division }
    {
        let Some(core) = self.stores.get_mut(store) else {
            return Err(RangesFault::NoStore);
        };
        match core.open(stamp) {
            Ok(id) => Ok(id),
            Err(fault) => Err(RangesFault::Store(fault)),
        }
    }

    /// Closes an open snapshot of one store, and returns its stamp. It needs no memory.
    ///
    /// Refused: no such store; no such snapshot. A refusal changes nothing.
    pub fn close(&mut self, store: usize, id: u64) -> Result<Stamp, RangesFault>
        ensures represents { (layout : Layout) (run : List Turn) → Represents layout self.old run
            → ClosesIn layout self.old self.new store id run result }
        ensures unchanged { OnErr result (self.new ≡ self.old) }
        ensures division { self.new.division ≡ self.old.division }
    {
        let Some(core) = self.stores.get_mut(store) else {
            return Err(RangesFault::NoStore);
        };
        match core.close(id) {
            Ok(stamp) => Ok(stamp),
            Err(_) => Err(RangesFault::Store(CoreFault::NoSnapshot)),
        }
    }

    /// Vacuums one store to a stamp, as `Core::vacuum_to` does.
    ///
    /// Refused: no such store; or for the reasons of `Core::vacuum_to`. A refusal changes nothing.
    pub fn vacuum_in(&mut self, store: usize, at: Stamp) -> Result<Report, RangesFault>
        ensures represents { (layout : Layout) (run : List Turn) → Represents layout self.old run
            → VacuumsIn layout self.old self.new store at run result }
        ensures others { (other : ℕ) → other ≢ store
            → slice_get self.new.stores other ≡ slice_get self.old.stores other }
        ensures unchanged { OnErr result (self.new ≡ self.old) }
        ensures division { self.new.division ≡ self.old.division }
    {
        let Some(core) = self.stores.get_mut(store) else {
            return Err(RangesFault::NoStore);
        };
        match core.vacuum_to(at) {
            Ok(report) => Ok(report),
            Err(fault) => Err(RangesFault::Store(fault)),
        }
    }

    /// Adds a node to one store, as `Core::join` does, and returns its number there and its start, the store's floor.
    ///
    /// Refused: no such store; or for the reasons of `Core::join`. A refusal changes nothing.
    pub fn join_in(&mut self, store: usize) -> Result<(u16, Stamp), RangesFault>
        ensures represents { (layout : Layout) (run : List Turn) → Represents layout self.old run
            → JoinsIn layout self.old self.new store run result }
        ensures unchanged { OnErr result (self.new ≡ self.old) }
        ensures division { self.new.division ≡ self.old.division }
    {
        let Some(core) = self.stores.get_mut(store) else {
            return Err(RangesFault::NoStore);
        };
        match core.join() {
            Ok(made) => Ok(made),
            Err(fault) => Err(RangesFault::Store(fault)),
        }
    }

    /// Returns the value of a key, or none, in a snapshot that is open in its store: `id` is the snapshot's id there.
    /// At a cut it is the newest write of all stores, accepted or only issued. The key may be any bytes.
    ///
    /// Refused if the key's store has no such snapshot open.
    pub fn read(&self, id: u64, key: &[u8]) -> Result<Option<&[u8]>, NoSnapshot>
        ensures represents { (layout : Layout) (run : List Turn) → Represents layout self.now run
            → MatchOption (stamp_of id (past_of layout (store_of self.now.division key.now) run)) (IsErr result)
            (λ stamp. IsOkAnd result (λ value. option_copied value
            ≡ answer (writes (past_of layout (store_of self.now.division key.now) run)) key.now stamp)) }
        ensures newest { (layout : Layout) (run : List Turn) (stamp : ℕ) → Represents layout self.now run
            → IsCut layout run stamp
            → stamp_of id (past_of layout (store_of self.now.division key.now) run) ≡ Some stamp
            → IsOkAnd result (λ value. option_copied value ≡ answer (issued_writes layout run) key.now stamp) }
    {
        // The law of every cut, for the contract alone.
        cuts_are_consistent();
        let store = self.store_of(key);
        self.stores[store].read(id, key)
    }
}

/// Returns the lesser of the two stamps.
fn lesser(a: Stamp, b: Stamp) -> Stamp
    ensures { result ≡ min a b }
{
    if b < a { b } else { a }
}

/// Returns whether a body is no write, or one of a key of this store, or a batch of writes of its keys alone.
fn is_of_store(division: &Division, store: usize, body: &Body) -> bool
    ensures { IsTrue result ↔ IsOfStore division.now store body.now }
{
    match body {
        Body::Write { key, .. } => division.store_of(key.as_slice()) == store,
        Body::Batch(writes) => are_of_store(division, store, writes.as_slice()),
        Body::Report | Body::Retire => true,
    }
}
