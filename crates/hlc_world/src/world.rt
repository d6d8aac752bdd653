//! The world and its events.
ghost use Rattle.std.specs.Prelude.{◌≡◌, ◌≢◌, ◌<◌, ℕ, [], ◌∷◌, ◌++◌, List, MatchBool, MatchResult, IfOk, IfErr, OnErr};
ghost use Rattle.std.specs.Prelude.{length, option_copied};
ghost use Rattle.hlc_intake.specs.declared.intake.LinkFault.TheVariants.{StampNotRising};
ghost use Rattle.hlc_core.specs.Past.{Step, Took, item_refusal};
ghost use Rattle.hlc_core.specs.{StoreView.Represents as CoreRepresents, Calls.IsRefusal, Calls.IsWrite};
ghost use Rattle.hlc_world.specs.{Schedule.issuing, Schedule.after, Headline.IsFaithful};
ghost use Rattle.hlc_world_event.specs.Events.{Event as AnEvent};
ghost use Rattle.hlc_world.specs.{Before.HappenedBefore, Before.IsStamped, declared.reply.Reply.Reply as AReply};
ghost use Rattle.hlc_world.specs.Expected.{MayReply, IsQuestion, IsRefused, GoesByNumber};
ghost use Rattle.hlc_world.specs.Floor.{IsComplete, IsBelowClocks, IsClosed};
ghost use Rattle.hlc_world.specs.WorldView.{Represents, Makes, fresh_issuers};

use crate::content::Content;
use crate::issuer::Issuer;
use crate::refusal::Refusal;
use crate::reply::Reply;
use hlc_clock::Stamp;
use hlc_core::{Core, CoreFault, JoinFault, NoMemory};
use hlc_heads::MAX_NODES;
use hlc_node::{Bytes, Item, NodeFault};
use hlc_world_event::Event;
use std::alloc::Global;
use std::marker::Model;

/// Nodes with their clocks, items and messages, and the one store that they feed.
///
/// Contracts describe what a world stores, and relate that to a schedule: a world represents the events that were
/// passed to it, with its replies, in order. A refused event did not take place and leaves the world unchanged. Each
/// event is consumed, so a caller that needs it again copies it first.
#[derive(Debug, Drop)]
pub struct World {
    alloc: Global,
    core: Core,
    nodes: Vec<Issuer>,
    sent_stamps: Vec<Stamp>,
}

impl Model for World {
    ghost use Rattle.hlc_world.specs.WorldView.{WorldView};

    ghost Value = { WorldView };

    ghost view = { λ world. record
        { core = world.core; nodes = world.nodes.items; sent_stamps = world.sent_stamps.items } };
}

impl World {
    /// Returns a world of this many nodes, 1 to 64, at which no event has taken place. Nodes are numbered from 0, and
    /// each clock starts at 0.0. Nodes that join get the numbers after these, up to 1,023.
    pub fn new(alloc: Global, nodes: u16) -> Result<World, Refusal>
        ensures { Makes nodes result }
    {
        let core = Core::new(alloc, nodes)?;
        let nodes = fresh_nodes(alloc, nodes)?;
        Ok(World {
            alloc,
            core,
            nodes,
            sent_stamps: Vec::new(alloc),
        })
    }

    /// Performs one event, or refuses it.
    ///
    /// docs/formats.md lists the refusals of each event in their order, with the lines of a script. Read, List, Floor
    /// and Rows change nothing, whatever the reply.
    #[inline(always)]
    pub fn step(&mut self, event: Event) -> Reply
        ensures represents { (nodes : ℕ) (schedule : List (AnEvent × AReply)) → Represents nodes self.old schedule
            → Represents nodes self.new ((event, result) ∷ schedule) }
        ensures allowed { (nodes : ℕ) (schedule : List (AnEvent × AReply)) → Represents nodes self.old schedule
            → MayReply nodes schedule event result }
        ensures ordered { (nodes : ℕ) (schedule : List (AnEvent × AReply)) (first later : ℕ)
            (n a m b : ℕ) → Represents nodes self.old schedule
            → HappenedBefore ((event, result) ∷ schedule) first later
            → IsStamped ((event, result) ∷ schedule) first n a
            → IsStamped ((event, result) ∷ schedule) later m b → a < b }
        ensures complete { (nodes : ℕ) (schedule : List (AnEvent × AReply)) → Represents nodes self.old schedule
            → IsComplete nodes ((event, result) ∷ schedule) }
        ensures clocks { (nodes : ℕ) (schedule : List (AnEvent × AReply)) → Represents nodes self.old schedule
            → IsBelowClocks nodes ((event, result) ∷ schedule) }
        ensures closed { (nodes : ℕ) (schedule : List (AnEvent × AReply)) → Represents nodes self.old schedule
            → IsClosed nodes ((event, result) ∷ schedule) }
        ensures faithful { (nodes : ℕ) (schedule : List (AnEvent × AReply)) → Represents nodes self.old schedule
            → IsFaithful nodes ((event, result) ∷ schedule) self.new.core.rows }
        ensures rising { (nodes : ℕ) (schedule : List (AnEvent × AReply)) (head : ℕ)
            → Represents nodes self.old schedule
            → result ≢ Reply.Refused (Refusal.Store (CoreFault.Link (StampNotRising head))) }
        ensures numbered { (nodes : ℕ) (schedule : List (AnEvent × AReply)) → Represents nodes self.old schedule
            → GoesByNumber nodes schedule }
        ensures asked { IsQuestion event → self.new ≡ self.old }
        ensures unchanged { IsRefused result → self.new ≡ self.old }
    {
        self.take_place(event)
    }

    /// Returns the value that a key has in an open snapshot, or none: what a Read answers, but as a reference to the
    /// stored value and not as a copy, so that it takes no memory.
    ///
    /// Refused only where no snapshot with this id is open.
    #[inline]
    pub fn look(&self, id: u64, key: &[u8]) -> Result<Option<&[u8]>, Refusal>
        ensures err { IfErr result (λ refusal. refusal ≡ Refusal.Store CoreFault.NoSnapshot) }
        ensures represents { (nodes : ℕ) (schedule : List (AnEvent × AReply)) → Represents nodes self.now schedule
            → MatchResult result
            (λ value. Represents nodes self.now
            ((Event.Read id key.now, Reply.Answer (option_copied value)) ∷ schedule))
            (λ refusal. Represents nodes self.now
            ((Event.Read id key.now, Reply.Refused refusal) ∷ schedule)) }
    {
        let found = self.core.read(id, key);
        match found {
            Ok(value) => Ok(value),
            Err(_) => Err(Refusal::Store(CoreFault::NoSnapshot)),
        }
    }

    /// Performs the events in turn, and returns their replies. Room for all replies is allocated first: where that runs
    /// out of memory, no event took place and the events are returned.
    pub fn run(&mut self, events: Vec<Event>) -> Result<Vec<Reply>, (NoMemory, Vec<Event>)>
        ensures ok { IfOk result
            (λ replies. (length replies.items ≡ length events.items)
            × ((nodes : ℕ) (schedule : List (AnEvent × AReply)) → Represents nodes self.old schedule
            → Represents nodes self.new (after events.items replies.items schedule))) }
        ensures faithful { IfOk result
            (λ replies. (nodes : ℕ) (schedule : List (AnEvent × AReply)) → Represents nodes self.old schedule
            → IsFaithful nodes (after events.items replies.items schedule) self.new.core.rows) }
        ensures err { IfErr result
            (λ refused. (refused.1.items ≡ events.items) × (self.new ≡ self.old)) }
    {
        let mut replies = match Vec::with_capacity(self.alloc, events.len()) {
            Ok(replies) => replies,
            Err(_) => return Err((NoMemory, events)),
        };
        for event in events {
            let reply = self.step(event);
            replies.push_reserved(reply);
        }
        Ok(replies)
    }

    #[inline(always)]
    fn take_place(&mut self, event: Event) -> Reply
        ensures represents { (nodes : ℕ) (schedule : List (AnEvent × AReply)) → Represents nodes self.old schedule
            → Represents nodes self.new ((event, result) ∷ schedule) }
        ensures asked { IsQuestion event → self.new ≡ self.old }
        ensures unchanged { IsRefused result → self.new ≡ self.old }
    {
        match event {
            Event::Write {
                node,
                reading,
                key,
                value,
            } => {
                let value = Some(value);
                self.issue(node, reading, Content::Write { key, value })
            }
            Event::Delete { node, reading, key } => {
                self.issue(node, reading, Content::Write { key, value: None })
            }
            Event::Report { node, reading } => self.issue(node, reading, Content::Report),
            Event::Retire { node, reading } => self.issue(node, reading, Content::Retire),
            Event::Join => self.join(),
            Event::Send { node, reading } => self.send(node, reading),
            Event::Receive {
                node,
                reading,
                message,
            } => self.receive(node, reading, message),
            Event::Observe { node, reading, id } => self.observe(node, reading, id),
            Event::Deliver { node, number } => self.deliver(node, number),
            Event::OpenAt { stamp } => match self.core.open(stamp) {
                Ok(id) => Reply::Snapshot { id, stamp },
                Err(fault) => Reply::Refused(Refusal::from(fault)),
            },
            Event::OpenFloor => match self.core.open_floor() {
                Ok((id, stamp)) => Reply::Snapshot { id, stamp },
                Err(fault) => Reply::Refused(Refusal::from(fault)),
            },
            Event::Read { id, key } => self.read(id, key.as_slice()),
            Event::List { id } => match self.core.list(id) {
                Ok(pairs) => Reply::Listing { pairs },
                Err(fault) => Reply::Refused(Refusal::from(fault)),
            },
            Event::Close { id } => match self.core.close(id) {
                Ok(stamp) => Reply::Closed { stamp },
                Err(_) => Reply::Refused(Refusal::Store(CoreFault::NoSnapshot)),
            },
            Event::Floor => Reply::Floor {
                stamp: self.core.floor(),
            },
            Event::Vacuum => match self.core.vacuum() {
                Ok(report) => Reply::Vacuumed { report },
                Err(_) => Reply::Refused(Refusal::NoMemory),
            },
            Event::Rows => Reply::Rows {
                count: self.core.rows(),
            },
        }
    }

    /// Returns the reply to a Read, with a copy of the value.
    fn read(&self, id: u64, key: &[u8]) -> Reply
        ensures { (nodes : ℕ) (schedule : List (AnEvent × AReply)) → Represents nodes self.now schedule
            → Represents nodes self.now ((Event.Read id key.now, result) ∷ schedule) }
    {
        match self.core.read(id, key) {
            Err(_) => Reply::Refused(Refusal::Store(CoreFault::NoSnapshot)),
            Ok(None) => Reply::Answer { value: None },
            Ok(Some(bytes)) => match Bytes::from_slice(self.alloc, bytes) {
                Ok(copy) => Reply::Answer { value: Some(copy) },
                Err(_) => Reply::Refused(Refusal::NoMemory),
            },
        }
    }

    /// Lets a node issue an item with this content, and returns the reply: its stamp and number, or that there is no
    /// such node, the refusal of the node, or out of memory.
    fn issue(&mut self, node: u16, reading: u64, content: Content) -> Reply
        ensures represents { (nodes : ℕ) (schedule : List (AnEvent × AReply)) → Represents nodes self.old schedule
            → Represents nodes self.new ((issuing node reading content, result) ∷ schedule) }
        ensures unchanged { IsRefused result → self.new ≡ self.old }
    {
        let Some(issuer) = self.nodes.get_mut(node as usize) else {
            return Reply::Refused(Refusal::NoNode);
        };
        match issuer.issue(reading, content) {
            Ok((stamp, item)) => Reply::Stamped { stamp, item },
            Err(refusal) => Reply::Refused(refusal),
        }
    }

    fn join(&mut self) -> Reply
        ensures represents { (nodes : ℕ) (schedule : List (AnEvent × AReply)) → Represents nodes self.old schedule
            → Represents nodes self.new ((Event.Join, result) ∷ schedule) }
        ensures unchanged { IsRefused result → self.new ≡ self.old }
    {
        if self.nodes.len() >= MAX_NODES as usize {
            return Reply::Refused(Refusal::Store(CoreFault::Join(JoinFault::TooManyNodes)));
        }
        if self.nodes.try_reserve(1).is_err() {
            return Reply::Refused(Refusal::NoMemory);
        }
        match self.core.join() {
            Ok(made) => {
                self.nodes
                    .push_reserved(Issuer::new(self.alloc, made.0, made.1));
                Reply::Joined {
                    node: made.0,
                    start: made.1,
                }
            }
            Err(fault) => Reply::Refused(Refusal::from(fault)),
        }
    }

    #[inline(always)]
    fn send(&mut self, node: u16, reading: u64) -> Reply
        ensures represents { (nodes : ℕ) (schedule : List (AnEvent × AReply)) → Represents nodes self.old schedule
            → Represents nodes self.new ((Event.Send node reading, result) ∷ schedule) }
        ensures unchanged { IsRefused result → self.new ≡ self.old }
    {
        let Some(issuer) = self.nodes.get_mut(node as usize) else {
            return Reply::Refused(Refusal::NoNode);
        };
        let mut sender = issuer.node();
        match sender.send(reading) {
            Err(fault) => Reply::Refused(Refusal::from(fault)),
            Ok(sent) => {
                let stamp = sent.stamp;
                let message = self.sent_stamps.len() as u64;
                if !post(&mut self.sent_stamps, stamp) {
                    return Reply::Refused(Refusal::NoMemory);
                }
                issuer.go_on(sender);
                Reply::Sent { stamp, message }
            }
        }
    }

    #[inline(always)]
    fn receive(&mut self, node: u16, reading: u64, message: u64) -> Reply
        ensures represents { (nodes : ℕ) (schedule : List (AnEvent × AReply)) → Represents nodes self.old schedule
            → Represents nodes self.new ((Event.Receive node reading message, result) ∷ schedule) }
        ensures unchanged { IsRefused result → self.new ≡ self.old }
    {
        let Some(issuer) = self.nodes.get_mut(node as usize) else {
            return Reply::Refused(Refusal::NoNode);
        };
        if issuer.is_retired() {
            return Reply::Refused(Refusal::Node(NodeFault::Retired));
        }
        let Some(sent) = self.sent_stamps.as_slice().get(message as usize) else {
            return Reply::Refused(Refusal::NoMessage);
        };
        match issuer.see(*sent, reading) {
            Ok(stamp) => Reply::Received { stamp },
            Err(refusal) => Reply::Refused(refusal),
        }
    }

    fn observe(&mut self, node: u16, reading: u64, id: u64) -> Reply
        ensures represents { (nodes : ℕ) (schedule : List (AnEvent × AReply)) → Represents nodes self.old schedule
            → Represents nodes self.new ((Event.Observe node reading id, result) ∷ schedule) }
        ensures unchanged { IsRefused result → self.new ≡ self.old }
    {
        let Some(issuer) = self.nodes.get_mut(node as usize) else {
            return Reply::Refused(Refusal::NoNode);
        };
        if issuer.is_retired() {
            return Reply::Refused(Refusal::Node(NodeFault::Retired));
        }
        let Some(seen) = self.core.stamp_of(id) else {
            return Reply::Refused(Refusal::Store(CoreFault::NoSnapshot));
        };
        match issuer.see(seen, reading) {
            Ok(stamp) => Reply::Observed { stamp },
            Err(refusal) => Reply::Refused(refusal),
        }
    }

    #[inline(always)]
    fn deliver(&mut self, node: u16, number: u64) -> Reply
        ensures represents { (nodes : ℕ) (schedule : List (AnEvent × AReply)) → Represents nodes self.old schedule
            → Represents nodes self.new ((Event.Deliver node number, result) ∷ schedule) }
        ensures unchanged { IsRefused result → self.new ≡ self.old }
    {
        let Some(issuer) = self.nodes.as_slice().get(node as usize) else {
            return Reply::Refused(Refusal::NoNode);
        };
        let Some(item) = issuer.item(number) else {
            return Reply::Refused(Refusal::NoItem);
        };
        match accept(&mut self.core, item) {
            Ok(stamp) => Reply::Accepted { stamp },
            Err(fault) => Reply::Refused(Refusal::from(fault)),
        }
    }
}

/// Returns this many nodes, at which no event has taken place.
fn fresh_nodes(alloc: Global, count: u16) -> Result<Vec<Issuer>, NoMemory>
    ensures { IfOk result (λ made. made.items ≡ fresh_issuers count) }
{
    let mut made = Vec::new(alloc);
    for id in 0..count {
        made.push(Issuer::new(alloc, id, Stamp::ZERO))?;
    }
    Ok(made)
}

/// Appends the stamp of a message to those of the earlier messages. Returns false where it runs out of memory.
fn post(stamps: &mut Vec<Stamp>, stamp: Stamp) -> bool
    ensures { MatchBool result (stamps.new.items ≡ stamps.old.items ++ stamp ∷ [])
        (stamps.new.items ≡ stamps.old.items) }
{
    stamps.push(stamp).is_ok()
}

/// Passes an item to the store, which makes a copy of it, and returns the item's stamp.
fn accept(core: &mut Core, item: &Item) -> Result<Stamp, CoreFault>
    ensures represents { (past : List Step) → CoreRepresents core.old past
        → MatchResult result
        (λ stamp. (stamp ≡ item.now.stamp) × (item_refusal past item.now ≡ None)
        × CoreRepresents core.new (Took item.now ∷ past)) (λ fault.
        IsRefusal (item_refusal past item.now) (IsWrite item.now.body) fault
        × (core.new ≡ core.old)) }
    ensures unchanged { OnErr result (core.new ≡ core.old) }
{
    match core.accept_copy(item) {
        Ok(accepted) => Ok(accepted.stamp()),
        Err(fault) => Err(fault),
    }
}
