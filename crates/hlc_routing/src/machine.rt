//! A writer to several stores.
ghost use Rattle.std.specs.Prelude.{◌≡◌, ◌<◌, ◌≤◌, ℕ, List, [], ◌∷◌, Some, None, Ok, Err, length, vec_capacity};
ghost use Rattle.std.specs.Prelude.{IfOk, IfErr, OnErr, OnOk, MatchResult, ◌≢◌};
ghost use Rattle.hlc_clock.specs.NextStamp.{expected_stamp};
ghost use Rattle.hlc_node.specs.declared.item.Body.TheVariants.{
  Write as a_write,
  Batch as a_batch,
  Report as a_report,
  Retire as a_retire,
};
ghost use Rattle.hlc_core.specs.Past.{floor};
ghost use Rattle.hlc_ranges.specs.Run.{Layout, Turn, Issued, Sent, Received, Observed, IsLegal, turn_at, past_of};
ghost use Rattle.hlc_routing.specs.Division.{store_of};
ghost use Rattle.hlc_routing.specs.Faults.{machine_code};
ghost use Rattle.hlc_routing.specs.Machine.{acting, moved, Issues, IsRefusedIssue, Reports, IsRefusedReport};
ghost use Rattle.hlc_routing.specs.Machine.{HaveOneStore, HaveNoStore, IsRefusedBatch};
ghost use Rattle.hlc_routing.specs.Machine.{IsMachineOf, GoesOn, IsDividedBy, issued_from};
ghost use Rattle.hlc_routing.specs.declared.machine.MachineFault.TheVariants.{NoMemory as no_memory};

use crate::division::{Division, are_of_store};
use hlc_clock::{Clock, ClockFault, Stamp};
use hlc_node::{BodyFault, Bytes, Item, NodeCore, NodeFault, Write};
use hlc_values::{Listed, NoMemory};
use std::alloc::Global;
use std::error::Error;
use std::fmt;
use std::marker::Model;

/// Why a machine refuses an event.
#[derive(Clone, Copy, PartialEq, Eq, Debug)]
pub enum MachineFault {
    /// The machine has no node in the store.
    NoStore,
    /// The keys of the batch belong to different stores.
    ManyStores,
    /// The node refuses the event.
    Node(NodeFault),
    /// Out of memory.
    NoMemory,
}

impl MachineFault {
    /// Returns the number of this refusal in outputs: 120, 122, 15, or that of the node's.
    pub fn code(self) -> u32
        ensures { result ≡ machine_code self }
    {
        match self {
            MachineFault::NoStore => 120,
            MachineFault::ManyStores => 122,
            MachineFault::Node(fault) => fault.code(),
            MachineFault::NoMemory => 15,
        }
    }
}

impl fmt::Display for MachineFault {
    ghost use Rattle.std.specs.Prelude.{Some};
    ghost use Rattle.hlc_routing.specs.Faults.{machine_text};

    ghost output = { λ fault. Some (machine_text fault) };

    fn fmt<W: fmt::Write>(&self, f: &mut fmt::Formatter<W>) -> fmt::Result {
        match self {
            MachineFault::NoStore => f.write_str("the machine has no node in the store"),
            MachineFault::ManyStores => {
                f.write_str("the keys of the batch belong to different stores")
            }
            MachineFault::Node(fault) => fault.fmt(f),
            MachineFault::NoMemory => f.write_str("out of memory"),
        }
    }
}

impl Error for MachineFault {}

/// A write that a machine refused, with its key and value.
#[derive(Debug, Drop)]
pub struct RefusedRouting {
    pub why: MachineFault,
    pub key: Bytes,
    pub value: Option<Bytes>,
}

/// A batch that a machine refused, with its writes.
#[derive(Debug, Drop)]
pub struct RefusedBatchRouting {
    pub why: MachineFault,
    pub writes: Listed<Write>,
}

/// A writer to several stores with one key space: one clock, and in each store a node with numbers of its own, which is
/// raised to the clock before it acts. So whatever one machine writes to two stores has rising stamps.
///
/// A refusal leaves the machine unchanged. The clauses named `extends` say that its calls keep the rules of a run.
#[derive(Debug, Drop)]
pub struct Machine {
    clock: Clock,
    nodes: Vec<NodeCore>,
}

impl Model for Machine {
    ghost use Rattle.hlc_routing.specs.Machine.{MachineView};

    ghost Value = { MachineView };

    ghost view = { λ machine. record { last = machine.clock; nodes = machine.nodes.items } };
}

impl Machine {
    /// Returns the machine with this last stamp and these nodes, that of the first store first. The stamp is at least
    /// that of each event of the machine, and of the start of each of its nodes.
    pub fn of(last: Stamp, nodes: Vec<NodeCore>) -> Machine
        ensures { result ≡ record { last = last; nodes = nodes.items } }
    {
        Machine {
            clock: Clock::starting_at(last),
            nodes,
        }
    }

    /// Returns the stamp of the last event, on whatever store.
    pub fn now(&self) -> Stamp
        ensures { result ≡ self.now.last }
    {
        self.clock.now()
    }

    /// Returns the nodes, that of the first store first.
    pub fn nodes(&self) -> &[NodeCore]
        ensures { result.now ≡ self.now.nodes }
    {
        self.nodes.as_slice()
    }

    /// Issues the item of a write, or of a deletion if there is no value, for the store of the key, and returns the
    /// number of that store and the item.
    ///
    /// Refused, in this order: no node in that store; for the reasons of `NodeCore::write`. The error returns the key
    /// and the value.
    pub fn write(
        &mut self,
        division: &Division,
        reading: u64,
        key: Bytes,
        value: Option<Bytes>,
    ) -> Result<(usize, Item), RefusedRouting>
        ensures ok { IfOk result (λ made. (made.0 ≡ store_of division.now key)
            × Issues self.old self.new made.0 (a_write key value) reading made.1) }
        ensures err { IfErr result (λ refused. IsRefusedIssue self.old (store_of division.now key)
            (a_write key value) reading refused.why
            × (refused.key ≡ key) × (refused.value ≡ value) × (self.new ≡ self.old)) }
        ensures extends { (layout : Layout) (run : List Turn) (m : ℕ) → IsLegal layout run
            → IsMachineOf layout run m self.old → IsDividedBy layout division.now
            → IfOk result (λ made. GoesOn layout (Issued made.0 made.1) run m self.new) }
    {
        let store = division.store_of(key.as_slice());
        let Some(mut node) = self.acting(store) else {
            return Err(RefusedRouting {
                why: MachineFault::NoStore,
                key,
                value,
            });
        };
        match node.write(reading, key, value) {
            Ok(item) => {
                self.put(store, node);
                Ok((store, item))
            }
            Err(refused) => Err(RefusedRouting {
                why: MachineFault::Node(refused.why),
                key: refused.key,
                value: refused.value,
            }),
        }
    }

    /// Issues the item of a deletion, as `write` does without a value.
    pub fn delete(
        &mut self,
        division: &Division,
        reading: u64,
        key: Bytes,
    ) -> Result<(usize, Item), RefusedRouting>
        ensures ok { IfOk result (λ made. (made.0 ≡ store_of division.now key)
            × Issues self.old self.new made.0 (a_write key None) reading made.1) }
        ensures err { IfErr result (λ refused. IsRefusedIssue self.old (store_of division.now key)
            (a_write key None) reading refused.why
            × (refused.key ≡ key) × (refused.value ≡ None) × (self.new ≡ self.old)) }
        ensures extends { (layout : Layout) (run : List Turn) (m : ℕ) → IsLegal layout run
            → IsMachineOf layout run m self.old → IsDividedBy layout division.now
            → IfOk result (λ made. GoesOn layout (Issued made.0 made.1) run m self.new) }
    {
        self.write(division, reading, key, None)
    }

    /// Issues one item that writes 1 to 256 keys of one store, each key once, all at one stamp, and returns the number
    /// of that store and the item. A snapshot shows all of its writes or none. Each store has links of its own, so
    /// there is no such item for keys of different stores.
    ///
    /// Refused, in this order: no writes; keys of different stores; no node in their store; for the reasons of
    /// `NodeCore::write_batch`. The error returns the writes.
    pub fn write_batch(
        &mut self,
        division: &Division,
        reading: u64,
        writes: Listed<Write>,
    ) -> Result<(usize, Item), RefusedBatchRouting>
        ensures ok { IfOk result (λ made. HaveOneStore division.now writes made.0
            × Issues self.old self.new made.0 (a_batch writes) reading made.1) }
        ensures err { IfErr result (λ refused. IsRefusedBatch self.old division.now writes reading refused.why
            × (refused.writes ≡ writes) × (self.new ≡ self.old)) }
        ensures extends { (layout : Layout) (run : List Turn) (m : ℕ) → IsLegal layout run
            → IsMachineOf layout run m self.old → IsDividedBy layout division.now
            → IfOk result (λ made. GoesOn layout (Issued made.0 made.1) run m self.new) }
    {
        let store = match one_store(division, writes.as_slice()) {
            Ok(store) => store,
            Err(why) => return Err(RefusedBatchRouting { why, writes }),
        };
        let Some(mut node) = self.acting(store) else {
            return Err(RefusedBatchRouting {
                why: MachineFault::NoStore,
                writes,
            });
        };
        match node.write_batch(reading, writes) {
            Ok(item) => {
                self.put(store, node);
                Ok((store, item))
            }
            Err(refused) => Err(RefusedBatchRouting {
                why: MachineFault::Node(refused.why),
                writes: refused.writes,
            }),
        }
    }

    /// Issues a report for one store.
    ///
    /// Refused, in this order: no node in that store; for the reasons of `NodeCore::report`.
    pub fn report(&mut self, store: usize, reading: u64) -> Result<Item, MachineFault>
        ensures ok { IfOk result (Issues self.old self.new store a_report reading) }
        ensures err { IfErr result (IsRefusedIssue self.old store a_report reading) }
        ensures unchanged { OnErr result (self.new ≡ self.old) }
        ensures extends { (layout : Layout) (run : List Turn) (m : ℕ) → IsLegal layout run
            → IsMachineOf layout run m self.old
            → IfOk result (λ item. GoesOn layout (Issued store item) run m self.new) }
    {
        let Some(mut node) = self.acting(store) else {
            return Err(MachineFault::NoStore);
        };
        match node.report(reading) {
            Ok(item) => {
                self.put(store, node);
                Ok(item)
            }
            Err(fault) => Err(MachineFault::Node(fault)),
        }
    }

    /// Issues the last item of the machine's node of one store.
    ///
    /// Refused, in this order: no node in that store; for the reasons of `NodeCore::retire`.
    pub fn retire(&mut self, store: usize, reading: u64) -> Result<Item, MachineFault>
        ensures ok { IfOk result (Issues self.old self.new store a_retire reading) }
        ensures err { IfErr result (IsRefusedIssue self.old store a_retire reading) }
        ensures unchanged { OnErr result (self.new ≡ self.old) }
        ensures extends { (layout : Layout) (run : List Turn) (m : ℕ) → IsLegal layout run
            → IsMachineOf layout run m self.old
            → IfOk result (λ item. GoesOn layout (Issued store item) run m self.new) }
    {
        let Some(mut node) = self.acting(store) else {
            return Err(MachineFault::NoStore);
        };
        match node.retire(reading) {
            Ok(item) => {
                self.put(store, node);
                Ok(item)
            }
            Err(fault) => Err(MachineFault::Node(fault)),
        }
    }

    /// Issues a report for each store, so that all floors (closed timestamps) may rise, and with them the cut; and
    /// returns the reports, that for the first store first.
    ///
    /// Refused: out of memory for the list, first of all; or by the first node that refuses. Then none is issued.
    pub fn report_all(&mut self, alloc: Global, reading: u64) -> Result<Vec<Item>, MachineFault>
        ensures ok { IfOk result (λ items. (length items.items ≡ length self.old.nodes)
            × Reports self.old reading self.new items.items) }
        ensures err { IfErr result (λ fault. (self.new ≡ self.old)
            × ((fault ≢ no_memory) → IsRefusedReport self.old reading fault)) }
        ensures extends { (layout : Layout) (run : List Turn) (m : ℕ) → IsLegal layout run
            → IsMachineOf layout run m self.old
            → IfOk result (λ items. IsLegal layout (issued_from 0 items.items run)
            × IsMachineOf layout (issued_from 0 items.items run) m self.new) }
    {
        let last = self.clock.now();
        let Ok(before) = Vec::from_slice(alloc, self.nodes.as_slice()) else {
            return Err(MachineFault::NoMemory);
        };
        let mut items = match Vec::with_capacity(alloc, self.nodes.len()) {
            Ok(items) => items,
            Err(_) => return Err(MachineFault::NoMemory),
        };
        match self.report_each(reading, &mut items) {
            Ok(()) => Ok(items),
            Err(fault) => {
                self.clock = Clock::starting_at(last);
                self.nodes = before;
                Err(fault)
            }
        }
    }

    /// Sends a message, and returns its stamp, which goes to the receiver.
    ///
    /// Refused for the reasons of `Clock::tick`.
    pub fn send(&mut self, reading: u64) -> Result<Stamp, ClockFault>
        ensures expected { result ≡ expected_stamp (self.old.last ∷ []) reading }
        ensures ok { IfOk result (λ stamp. self.new ≡ record self.old { last = stamp }) }
        ensures unchanged { OnErr result (self.new ≡ self.old) }
        ensures extends { (layout : Layout) (run : List Turn) (m : ℕ) → IsLegal layout run
            → IsMachineOf layout run m self.old
            → IfOk result (λ stamp. GoesOn layout (Sent m stamp) run m self.new) }
    {
        self.clock.tick(reading)
    }

    /// Receives a message with this stamp, and returns the stamp of the receipt, which is above it.
    ///
    /// Refused for the reasons of `Clock::receive`.
    pub fn receive(&mut self, seen: Stamp, reading: u64) -> Result<Stamp, ClockFault>
        ensures expected { result ≡ expected_stamp (self.old.last ∷ seen ∷ []) reading }
        ensures ok { IfOk result (λ stamp. self.new ≡ record self.old { last = stamp }) }
        ensures unchanged { OnErr result (self.new ≡ self.old) }
        ensures extends { (layout : Layout) (run : List Turn) (m sender message : ℕ)
            → IsLegal layout run → IsMachineOf layout run m self.old
            → turn_at run message ≡ Some (Sent sender seen)
            → IfOk result (λ stamp. GoesOn layout (Received m message stamp) run m self.new) }
    {
        self.clock.receive(seen, reading)
    }

    /// Observes a store at a stamp, as of a snapshot, and returns the stamp of the observation, which is above it. So
    /// what the machine writes later, to whatever store, is above what it has read.
    ///
    /// Refused for the reasons of `Clock::receive`.
    pub fn observe(&mut self, seen: Stamp, reading: u64) -> Result<Stamp, ClockFault>
        ensures expected { result ≡ expected_stamp (self.old.last ∷ seen ∷ []) reading }
        ensures ok { IfOk result (λ stamp. self.new ≡ record self.old { last = stamp }) }
        ensures unchanged { OnErr result (self.new ≡ self.old) }
        ensures extends { (layout : Layout) (run : List Turn) (m s : ℕ) → IsLegal layout run
            → IsMachineOf layout run m self.old → s < layout.stores
            → seen ≤ floor (past_of layout s run)
            → IfOk result (λ stamp. GoesOn layout (Observed m s seen stamp) run m self.new) }
    {
        self.clock.receive(seen, reading)
    }

    /// Returns the machine's node of a store with its clock raised to the machine's, or none.
    fn acting(&self, store: usize) -> Option<NodeCore>
        ensures { result ≡ acting self.now store }
    {
        match self.nodes.as_slice().get(store) {
            None => None,
            Some(kept) => {
                let mut node = *kept;
                node.raise_to(self.clock.now());
                Some(node)
            }
        }
    }

    /// Replaces the machine's node of a store, which has acted.
    fn put(&mut self, store: usize, node: NodeCore)
        requires { store < length self.old.nodes }
        ensures { self.new ≡ moved self.old store node }
    {
        self.clock = Clock::starting_at(node.now());
        self.nodes[store] = node;
    }

    /// Issues a report for one store after another, up to the first that is refused, and appends them.
    fn report_each(&mut self, reading: u64, items: &mut Vec<Item>) -> Result<(), MachineFault>
        requires empty { items.old.items ≡ [] }
        requires room { length self.old.nodes ≤ vec_capacity items.old }
        ensures ok { OnOk result ((length items.new.items ≡ length self.old.nodes)
            × Reports self.old reading self.new items.new.items) }
        ensures err { IfErr result (IsRefusedReport self.old reading) }
    {
        let stores = self.nodes.len();
        for store in 0..stores {
            match self.report(store, reading) {
                Ok(item) => items.push_reserved(item),
                Err(fault) => return Err(fault),
            }
        }
        Ok(())
    }
}

/// Returns the one store that has the keys of some writes. There is none if there are no writes, or if their keys
/// belong to different stores.
fn one_store(division: &Division, writes: &[Write]) -> Result<usize, MachineFault>
    ensures { MatchResult result (HaveOneStore division.now writes.now) (HaveNoStore division.now writes.now) }
{
    let Some(first) = writes.first() else {
        return Err(MachineFault::Node(NodeFault::Body(BodyFault::NoWrites)));
    };
    let store = division.store_of(first.key.as_slice());
    if !are_of_store(division, store, writes) {
        return Err(MachineFault::ManyStores);
    }
    Ok(store)
}
