//! What a world stores for each node: the node itself, and the items that it issued.
ghost use Rattle.std.specs.Prelude.{◌≡◌, false, [], slice_get, option_copied};
ghost use Rattle.hlc_world.specs.{Schedule.body_of, WorldView.Issues, WorldView.Keeps, WorldView.Sees};

use crate::content::Content;
use crate::refusal::Refusal;
use hlc_clock::Stamp;
use hlc_node::{Item, NodeCore};
use std::alloc::Global;
use std::marker::Model;

/// A node, and the items that it issued, in order.
#[derive(Debug, Drop)]
pub struct Issuer {
    node: NodeCore,
    issued: Vec<Item>,
}

impl Model for Issuer {
    ghost use Rattle.hlc_world.specs.WorldView.{IssuerView};

    ghost Value = { IssuerView };

    ghost view = { λ issuer. record { node = issuer.node; issued = issuer.issued.items } };
}

impl Issuer {
    /// Returns a node of this number, whose clock starts at `start` and at which no event has taken place.
    pub fn new(alloc: Global, id: u16, start: Stamp) -> Issuer
        ensures { result ≡ record
            { node = record { id = id; last = start; next = 0; retired = false }; issued = [] } }
    {
        Issuer {
            node: NodeCore::new(id, start),
            issued: Vec::new(alloc),
        }
    }

    /// Returns a copy of the node, to try an event on.
    pub fn node(&self) -> NodeCore
        ensures { result ≡ self.now.node }
    {
        self.node
    }

    /// Returns whether the node retired.
    pub fn is_retired(&self) -> bool
        ensures { result ≡ self.now.node.retired }
    {
        self.node.is_retired()
    }

    /// Replaces the node by what it is after an event that issued no item.
    pub fn go_on(&mut self, node: NodeCore)
        ensures { self.new ≡ record { node = node; issued = self.old.issued } }
    {
        self.node = node;
    }

    /// Returns the issued item of this number, or none.
    pub fn item(&self, number: u64) -> Option<&Item>
        ensures { option_copied result ≡ slice_get self.now.issued number }
    {
        self.issued.as_slice().get(number as usize)
    }

    /// Issues an item with this content, and returns its stamp and its number; or the refusal of the node, or out of
    /// memory. The item is kept, to be delivered.
    pub fn issue(&mut self, reading: u64, content: Content) -> Result<(Stamp, u64), Refusal>
        ensures { Issues self.old self.new (body_of content) reading result }
    {
        let mut node = self.node;
        let item = match content {
            Content::Write { key, value } => match node.write(reading, key, value) {
                Ok(item) => item,
                Err(refused) => return Err(Refusal::from(refused.why)),
            },
            Content::Report => node.report(reading)?,
            Content::Retire => node.retire(reading)?,
        };
        self.keep(node, item)
    }

    /// Lets the node see a stamp, that of a snapshot or of a message that it receives, and returns the stamp of this
    /// event.
    pub fn see(&mut self, seen: Stamp, reading: u64) -> Result<Stamp, Refusal>
        ensures { Sees self.old self.new seen reading result }
    {
        match self.node.observe(seen, reading) {
            Ok(stamp) => Ok(stamp),
            Err(fault) => Err(Refusal::from(fault)),
        }
    }

    /// Stores an issued item, and the node as it is after it; refused where it runs out of memory.
    fn keep(&mut self, node: NodeCore, item: Item) -> Result<(Stamp, u64), Refusal>
        ensures { Keeps self.old self.new node item result }
    {
        let made = (item.stamp, item.number);
        if self.issued.push(item).is_err() {
            return Err(Refusal::NoMemory);
        }
        self.node = node;
        Ok(made)
    }
}
