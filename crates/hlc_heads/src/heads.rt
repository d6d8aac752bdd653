//! The link of each node, and the floor.
ghost use Rattle.std.specs.Prelude.{◌≡◌, ◌<◌, false, true, length, max};
ghost use Rattle.hlc_heads.specs.declared.heads.TheConstants.{MAX_INITIAL_NODES, MAX_NODES};
ghost use Rattle.hlc_heads.specs.Faults.{join_code, join_word};
ghost use Rattle.hlc_heads.specs.Heads.{
  Makes,
  Joins,
  JoinsAt,
  IsFloor,
  IsSized,
  advanced,
  link_at,
  marked,
  number_after,
};

use crate::accepted::Accepted;
use crate::groups::{GROUP, groups_of, least_of, lower, regroup};
use hlc_clock::Stamp;
use hlc_intake::Intake;
use hlc_values::{NUMBER_BOUND, NoMemory};
use std::alloc::Global;
use std::error::Error;
use std::fmt;
use std::marker::Model;

/// The maximum number of nodes at the start.
pub const MAX_INITIAL_NODES: u16 = 64;

/// There are at most 64 nodes at the start.
pub fn max_initial_nodes_are_64()
    ensures { MAX_INITIAL_NODES ≡ 64 }
{}

/// The maximum number of node numbers, including those of nodes that join. No number is assigned
/// twice.
pub const MAX_NODES: u16 = 1024;

/// At most 1,024 node numbers are assigned.
pub fn max_nodes_are_1024()
    ensures { MAX_NODES ≡ 1024 }
{}

/// The number of nodes at the start is not 1 to 64.
#[derive(Clone, Copy, PartialEq, Eq, Debug)]
pub struct NodesOutOfRange;

/// Why no node joins.
#[derive(Clone, Copy, PartialEq, Eq, Debug)]
pub enum JoinFault {
    /// All 1,024 node numbers have been assigned.
    TooManyNodes,
    /// The start is below the floor.
    BelowFloor { floor: Stamp },
}

impl fmt::Display for NodesOutOfRange {
    ghost use Rattle.std.specs.Prelude.{Some, codes};

    ghost output = { λ _. Some (codes "the count of nodes is not 1 to 64") };

    fn fmt<W: fmt::Write>(&self, f: &mut fmt::Formatter<W>) -> fmt::Result {
        f.write_str("the count of nodes is not 1 to 64")
    }
}

impl Error for NodesOutOfRange {}

impl JoinFault {
    /// Returns the number of this refusal: 9 or 26.
    pub fn code(self) -> u32
        ensures { result ≡ join_code self }
    {
        match self {
            JoinFault::TooManyNodes => 26,
            JoinFault::BelowFloor { .. } => 9,
        }
    }

    /// Returns the word of the floor in this refusal, or 0.
    pub fn word(self) -> u64
        ensures { result ≡ join_word self }
    {
        match self {
            JoinFault::BelowFloor { floor } => floor.bits(),
            JoinFault::TooManyNodes => 0,
        }
    }
}

impl fmt::Display for JoinFault {
    ghost use Rattle.std.specs.Prelude.{Some};
    ghost use Rattle.hlc_heads.specs.Faults.{join_text};

    ghost output = { λ fault. Some (join_text fault) };

    fn fmt<W: fmt::Write>(&self, f: &mut fmt::Formatter<W>) -> fmt::Result {
        match self {
            JoinFault::TooManyNodes => f.write_str("all 1,024 node numbers are in use"),
            JoinFault::BelowFloor { floor } => write!(f, "the start is below the floor, {floor}"),
        }
    }
}

impl Error for JoinFault {}

/// The link of each node, and the greatest stamp of an accepted item or of a start. In contracts it is the list of the
/// links, by node, and that stamp.
#[derive(Debug, Drop)]
pub struct Heads {
    links: Vec<Intake>,
    /// The least head of each group of nodes, among those that have not retired.
    groups: [Option<Stamp>; GROUP],
    top: Stamp,
    floor: Stamp,
}

impl Model for Heads {
    ghost use Rattle.hlc_heads.specs.Heads.{HeadsView, IsSized, IsFloor};
    ghost use Rattle.hlc_heads.specs.Groups.{AreGroups};

    ghost Value = { HeadsView };

    ghost view = { λ heads. record { links = heads.links.items; top = heads.top } };

    ghost invariant = { λ heads. IsSized (record { links = heads.links.items; top = heads.top })
        × IsFloor (record { links = heads.links.items; top = heads.top }) heads.floor
        × AreGroups heads.links.items heads.groups };
}

impl Heads {
    /// Makes the links of this many nodes, 1 to 64, without any accepted item. Nodes are numbered from 0 and start at
    /// 0.0.
    pub fn new(alloc: Global, nodes: u16) -> Result<Result<Heads, NodesOutOfRange>, NoMemory>
        ensures { Makes nodes result }
    {
        if nodes == 0 || nodes > MAX_INITIAL_NODES {
            return Ok(Err(NodesOutOfRange));
        }
        let links = vec![in alloc; Intake::new(); nodes as usize]?;
        Ok(Ok(Heads::resuming(links, Stamp::ZERO)))
    }

    /// Makes heads from the links of 1 to 1,024 nodes, by node, and the greatest stamp of an accepted item or of a
    /// start. It needs no memory.
    pub fn resuming(links: Vec<Intake>, top: Stamp) -> Heads
        requires { IsSized (record { links = links.items; top = top }) }
        ensures { result ≡ record { links = links.items; top = top } }
    {
        let groups = groups_of(&links);
        let floor = least_of(&groups).unwrap_or(top);
        Heads {
            links,
            groups,
            top,
            floor,
        }
    }

    /// Returns the links by the numbers of their nodes.
    pub fn links(&self) -> &[Intake]
        ensures { result.now ≡ self.now.links }
    {
        self.links.as_slice()
    }

    /// Returns the head of a node, which is below the number of nodes.
    pub fn head(&self, node: u16) -> Stamp
        requires { node < length self.now.links }
        ensures { result ≡ (link_at self.now.links node).head }
    {
        self.links[node as usize].head()
    }

    /// Returns whether a node, which is below the number of nodes, has retired.
    pub fn is_retired(&self, node: u16) -> bool
        requires { node < length self.now.links }
        ensures { result ≡ (link_at self.now.links node).retired }
    {
        self.links[node as usize].retired()
    }

    /// Makes the stamp of a node's next item, which was accepted, its head. The node is below the number of nodes and
    /// has not retired, and the stamp is above its head.
    pub fn raise(&mut self, node: u16, stamp: Stamp) -> Accepted
        requires node { node < length self.old.links }
        requires open { (link_at self.old.links node).retired ≡ false }
        requires rising { (link_at self.old.links node).head < stamp }
        ensures raised { self.new ≡ marked self.old node stamp false }
        ensures accepted { result ≡ record { node = node; stamp = stamp; retires = false } }
    {
        let number = number_after(self.links[node as usize].next());
        self.advance(node, Intake::resuming(number, stamp, false));
        Accepted::new(node, stamp, false)
    }

    /// Makes the stamp of a node's last item, which was accepted, its head, and no longer counts the node in the floor.
    /// The node is below the number of nodes and has not retired, and the stamp is above its head.
    pub fn retire(&mut self, node: u16, stamp: Stamp) -> Accepted
        requires node { node < length self.old.links }
        requires open { (link_at self.old.links node).retired ≡ false }
        requires rising { (link_at self.old.links node).head < stamp }
        ensures retired { self.new ≡ marked self.old node stamp true }
        ensures accepted { result ≡ record { node = node; stamp = stamp; retires = true } }
    {
        let number = number_after(self.links[node as usize].next());
        self.advance(node, Intake::resuming(number, stamp, true));
        Accepted::new(node, stamp, true)
    }

    /// Accepts the next item of a node, with this stamp: `retire` if the node retires by it, and `raise` otherwise.
    pub fn accept(&mut self, node: u16, stamp: Stamp, retires: bool) -> Accepted
        requires node { node < length self.old.links }
        requires open { (link_at self.old.links node).retired ≡ false }
        requires rising { (link_at self.old.links node).head < stamp }
        ensures marked { self.new ≡ marked self.old node stamp retires }
        ensures accepted { result ≡ record { node = node; stamp = stamp; retires = retires } }
    {
        if retires {
            self.retire(node, stamp)
        } else {
            self.raise(node, stamp)
        }
    }

    /// Puts the progress of a node's link after it admitted an item. The floor is computed again only if it was the
    /// node's head; otherwise it does not change.
    fn advance(&mut self, node: u16, link: Intake)
        requires node { node < length self.old.links }
        requires open { (link_at self.old.links node).retired ≡ false }
        requires rising { (link_at self.old.links node).head < link.head }
        ensures { self.new ≡ advanced self.old node link }
    {
        let place = node as usize;
        let was = self.links[place].head();
        self.links[place] = link;
        self.top = greater(self.top, link.head());
        regroup(&mut self.groups, &self.links, place, was);
        if was == self.floor {
            self.floor = least_of(&self.groups).unwrap_or(self.top);
        }
    }

    /// Adds a node, which is assigned the next number and starts at the floor, its first head. So
    /// the floor does not change.
    ///
    /// Refused, in this order: all 1,024 numbers are assigned; out of memory. A refusal leaves the
    /// heads unchanged.
    pub fn join(&mut self) -> Result<Result<(u16, Stamp), JoinFault>, NoMemory>
        ensures { Joins self.old self.new result }
    {
        let start = self.floor;
        match self.join_at(start)? {
            Ok(node) => Ok(Ok((node, start))),
            Err(fault) => Ok(Err(fault)),
        }
    }

    /// Adds a node, which is assigned the next number and starts at this stamp, its first head. The floor does not
    /// change; but if all nodes had retired, it becomes the start.
    ///
    /// Refused, in this order: all 1,024 numbers are assigned; the start is below the floor; out of memory. A refusal
    /// leaves the heads unchanged.
    pub fn join_at(&mut self, start: Stamp) -> Result<Result<u16, JoinFault>, NoMemory>
        ensures { JoinsAt self.old self.new start result }
    {
        let place = self.links.len();
        if place >= MAX_NODES as usize {
            return Ok(Err(JoinFault::TooManyNodes));
        }
        if start < self.floor {
            return Ok(Err(JoinFault::BelowFloor { floor: self.floor }));
        }
        self.links.push(Intake::starting_at(start))?;
        let group = place / GROUP;
        self.groups[group] = Some(lower(self.groups[group], start));
        self.top = greater(self.top, start);
        self.floor = least_of(&self.groups).unwrap_or(self.top);
        Ok(Ok(place as u16))
    }

    /// Returns the floor: the least head of the nodes that have not retired, or the greatest stamp of an accepted item
    /// if all have. It never falls, and every item that is accepted later has a stamp above it. It is stored, so this
    /// call costs the same however many nodes have joined and retired: `accept` updates it. It scans 32 heads
    /// if the node had the least head of its group, and 32 groups if that head was the floor.
    pub fn floor(&self) -> Stamp
        ensures { IsFloor self.now result }
    {
        self.floor
    }
}

/// Returns the number after this one, or this one if it is the last.
fn number_after(number: u64) -> u64
    ensures { result ≡ number_after number }
{
    if number == NUMBER_BOUND {
        number
    } else {
        number + 1
    }
}

/// Returns the greater of the two stamps.
pub fn greater(a: Stamp, b: Stamp) -> Stamp
    ensures { result ≡ max a b }
{
    if a < b { b } else { a }
}
