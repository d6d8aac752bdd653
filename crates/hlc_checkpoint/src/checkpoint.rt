//! A checkpoint of a store, and the first reason why some values are not one.
ghost use Rattle.std.specs.Prelude.{◌≡◌, IfOk, ◌↔◌, ◌<◌, ◌≤◌, [], IsTrue, All, MatchOption};
ghost use Rattle.hlc_heads.specs.Heads.{floor_of};
ghost use Rattle.hlc_checkpoint.specs.StoreView.{HasNodes, HasStamps, HasLastItem, greatest_head, marks_of};
ghost use Rattle.hlc_checkpoint.specs.RestoreFaults.{fault_code};
ghost use Rattle.hlc_checkpoint.specs.Checkpoint.{IsCheckpoint, IsFirstReason, IsHeadReason, IsStoreHead, floor_in};
ghost use Rattle.hlc_checkpoint.specs.StoreView.{IsUnderHead, with_rows};

use hlc_clock::Stamp;
use hlc_heads::{MAX_INITIAL_NODES, MAX_NODES, greater, lower};
use hlc_intake::Intake;
use hlc_rows::Row;
use hlc_snapshot::{Snapshot, is_register};
use hlc_values::NoMemory;
use hlc_witness::{are_in_limits, do_rows_ascend};
use std::alloc::Global;
use std::error::Error;
use std::fmt;
use std::marker::Model;

/// Why no store is restored, in the order in which the reasons are checked.
#[derive(Clone, Copy, PartialEq, Eq, Debug)]
pub enum RestoreFault {
    /// The number of nodes at the start is not 1 to 64, or there is no link for one of them; or there are more than
    /// 1,024 links.
    NodesOutOfRange,
    /// The next number of a link is above the word of its head: more items than stamps.
    NumberAboveHead,
    /// A node has retired, but none of its items was accepted.
    RetiredWithoutItem,
    /// More than 1,024 snapshots are open; or their ids do not ascend from 1 on, up to at most the
    /// last id; or the last id is above 2^64 - 2.
    SnapshotsNotRising,
    /// An open snapshot is above the floor.
    SnapshotAboveFloor,
    /// The horizon is above the floor.
    HorizonAboveFloor,
    /// A row is not above the row before it, by key, stamp and node.
    RowsNotAscending,
    /// A row is of no node, or its stamp is above the head of its node, or 0.0, which no item has.
    RowAboveHead,
    /// No item may write a row: its key does not have 1 to 255 bytes, or its value has more than
    /// 65,535.
    RowOutOfLimits,
}

impl RestoreFault {
    /// Returns the number of the fault in outputs: 1 to 9, in the order of the variants.
    pub fn code(self) -> u32
        ensures { result ≡ fault_code self }
    {
        match self {
            RestoreFault::NodesOutOfRange => 1,
            RestoreFault::NumberAboveHead => 2,
            RestoreFault::RetiredWithoutItem => 3,
            RestoreFault::SnapshotsNotRising => 4,
            RestoreFault::SnapshotAboveFloor => 5,
            RestoreFault::HorizonAboveFloor => 6,
            RestoreFault::RowsNotAscending => 7,
            RestoreFault::RowAboveHead => 8,
            RestoreFault::RowOutOfLimits => 9,
        }
    }
}

impl fmt::Display for RestoreFault {
    ghost use Rattle.std.specs.Prelude.{Some};
    ghost use Rattle.hlc_checkpoint.specs.RestoreFaults.{fault_text};

    ghost output = { λ fault. Some (fault_text fault) };

    fn fmt<W: fmt::Write>(&self, f: &mut fmt::Formatter<W>) -> fmt::Result {
        f.write_str(match self {
            RestoreFault::NodesOutOfRange =>
                "the nodes at the start, or the links, are out of range",
            RestoreFault::NumberAboveHead => "the next number of a link is above its head",
            RestoreFault::RetiredWithoutItem => "a node retired without an item",
            RestoreFault::SnapshotsNotRising => "the open snapshots are too many, or out of order",
            RestoreFault::SnapshotAboveFloor => "an open snapshot is above the floor",
            RestoreFault::HorizonAboveFloor => "the horizon is above the floor",
            RestoreFault::RowsNotAscending => "the rows do not ascend by key, stamp and node",
            RestoreFault::RowAboveHead => "a row is of no node, or above the head of its node",
            RestoreFault::RowOutOfLimits => "a key or a value is out of the limits",
        })
    }
}

impl Error for RestoreFault {}

/// The whole state of a store, as plain values: the number of nodes at the start; by node the
/// progress of its link; the open snapshots, the oldest first, and the last id that was given; the
/// horizon; the rows, by key, stamp and node.
///
/// In contracts it is the same as a core, whose top is the greatest head. So a checkpoint
/// represents a past as a core does. Anyone may make one from any parts: `Core::restore` checks all
/// of it.
#[derive(Debug, Drop)]
pub struct Checkpoint {
    initial_nodes: u16,
    links: Vec<Intake>,
    snapshots: Vec<Snapshot>,
    last_id: u64,
    horizon: Stamp,
    rows: Vec<Row>,
}

impl Model for Checkpoint {
    ghost use Rattle.hlc_checkpoint.specs.StoreView.{StoreView, greatest_head};

    ghost Value = { StoreView };

    ghost view = { λ checkpoint. record {
      initial_nodes = checkpoint.initial_nodes;
      links = checkpoint.links.items;
      top = greatest_head checkpoint.links.items;
      snapshots = checkpoint.snapshots.items;
      last_id = checkpoint.last_id;
      horizon = checkpoint.horizon;
      rows = checkpoint.rows.items;
    } };
}

impl Checkpoint {
    /// Makes a checkpoint from these parts, whether they are a store's or not. They are not
    /// checked.
    pub fn of(
        initial_nodes: u16,
        links: Vec<Intake>,
        snapshots: Vec<Snapshot>,
        last_id: u64,
        horizon: Stamp,
        rows: Vec<Row>,
    ) -> Checkpoint
        ensures { result ≡ record {
          initial_nodes = initial_nodes;
          links = links.items;
          top = greatest_head links.items;
          snapshots = snapshots.items;
          last_id = last_id;
          horizon = horizon;
          rows = rows.items;
        } }
    {
        Checkpoint {
            initial_nodes,
            links,
            snapshots,
            last_id,
            horizon,
            rows,
        }
    }

    /// Returns the number of nodes at the start.
    pub fn initial_nodes(&self) -> u16
        ensures { result ≡ self.now.initial_nodes }
    {
        self.initial_nodes
    }

    /// Returns the progress of each link, by node.
    pub fn links(&self) -> &[Intake]
        ensures { result.now ≡ self.now.links }
    {
        self.links.as_slice()
    }

    /// Returns the greatest head: the greatest stamp of an accepted item, or of the start of a node that joined. It
    /// looks at each link.
    pub fn top(&self) -> Stamp
        ensures value { result ≡ self.now.top }
        ensures greatest { result ≡ greatest_head self.now.links }
    {
        greatest_head(self.links.as_slice())
    }

    /// Returns the floor: the least head of the nodes that have not retired, or the greatest head if all have. It looks
    /// at each link.
    pub fn floor(&self) -> Stamp
        ensures { result ≡ floor_in self.now }
    {
        floor_of(self.links.as_slice(), self.top())
    }

    /// Returns the open snapshots, the oldest first.
    pub fn snapshots(&self) -> &[Snapshot]
        ensures { result.now ≡ self.now.snapshots }
    {
        self.snapshots.as_slice()
    }

    /// Returns the last id that a snapshot was given, 0 if none.
    pub fn last_id(&self) -> u64
        ensures { result ≡ self.now.last_id }
    {
        self.last_id
    }

    /// Returns the stamp of the last vacuum, or part of one, 0.0 before the first.
    pub fn horizon(&self) -> Stamp
        ensures { result ≡ self.now.horizon }
    {
        self.horizon
    }

    /// Returns the rows, by key, stamp and node.
    pub fn rows(&self) -> &[Row]
        ensures { result.now ≡ self.now.rows }
    {
        self.rows.as_slice()
    }

    /// Moves the links, the open snapshots and the rows out: nothing is copied, and it needs no
    /// memory. Read the other parts beforehand.
    pub fn into_lists(self) -> (Vec<Intake>, Vec<Snapshot>, Vec<Row>)
        ensures links { result.0.items ≡ self.links }
        ensures snapshots { result.1.items ≡ self.snapshots }
        ensures rows { result.2.items ≡ self.rows }
    {
        (self.links, self.snapshots, self.rows)
    }

    /// Copies all but the rows.
    pub(crate) fn copy_head(&self, alloc: Global) -> Result<Checkpoint, NoMemory>
        ensures { IfOk result (λ head. head ≡ with_rows self.now []) }
    {
        let links = Vec::from_slice(alloc, self.links.as_slice())?;
        let snapshots = Vec::from_slice(alloc, self.snapshots.as_slice())?;
        let rows = Vec::new(alloc);
        Ok(Checkpoint::of(
            self.initial_nodes,
            links,
            snapshots,
            self.last_id,
            self.horizon,
            rows,
        ))
    }

    /// Moves the rows out, and returns all else beside them.
    pub(crate) fn split(self, alloc: Global) -> (Checkpoint, Vec<Row>)
        ensures head { result.0 ≡ with_rows self [] }
        ensures rows { result.1.items ≡ self.rows }
    {
        let Checkpoint {
            initial_nodes,
            links,
            snapshots,
            last_id,
            horizon,
            rows,
        } = self;
        let none = Vec::new(alloc);
        (
            Checkpoint::of(initial_nodes, links, snapshots, last_id, horizon, none),
            rows,
        )
    }

    /// Returns the first reason why this is no checkpoint, with which `Core::restore` refuses it. It needs no memory,
    /// and looks at each part once.
    pub fn fault(&self) -> Option<RestoreFault>
        ensures { MatchOption result (IsCheckpoint self.now) (IsFirstReason self.now) }
    {
        reason_against(self)
    }
}

/// Returns the first reason why this is no checkpoint, or none.
fn reason_against(checkpoint: &Checkpoint) -> Option<RestoreFault>
    ensures { MatchOption result (IsCheckpoint checkpoint.now) (IsFirstReason checkpoint.now) }
{
    if let Some(fault) = head_reason(checkpoint) {
        return Some(fault);
    }
    let rows = checkpoint.rows();
    if !do_rows_ascend(rows) {
        return Some(RestoreFault::RowsNotAscending);
    }
    if !are_under_heads(checkpoint.links(), rows) {
        return Some(RestoreFault::RowAboveHead);
    }
    if !are_in_limits(rows) {
        return Some(RestoreFault::RowOutOfLimits);
    }
    None
}

/// Returns the first reason that needs no rows, or none.
pub(crate) fn head_reason(checkpoint: &Checkpoint) -> Option<RestoreFault>
    ensures { MatchOption result (IsStoreHead checkpoint.now) (IsHeadReason checkpoint.now) }
{
    let links = checkpoint.links();
    let snapshots = checkpoint.snapshots();
    if !are_nodes(checkpoint.initial_nodes(), links) {
        return Some(RestoreFault::NodesOutOfRange);
    }
    if !are_numbers_low(links) {
        return Some(RestoreFault::NumberAboveHead);
    }
    if !did_retired_issue(links) {
        return Some(RestoreFault::RetiredWithoutItem);
    }
    if !is_register(snapshots, checkpoint.last_id()) {
        return Some(RestoreFault::SnapshotsNotRising);
    }
    let floor = floor_of(links, checkpoint.top());
    if !are_at_most(floor, snapshots) {
        return Some(RestoreFault::SnapshotAboveFloor);
    }
    if checkpoint.horizon() > floor {
        return Some(RestoreFault::HorizonAboveFloor);
    }
    None
}

/// Returns whether there were 1 to 64 nodes at the start, and there are links of them and no more
/// than node numbers.
fn are_nodes(initial_nodes: u16, links: &[Intake]) -> bool
    ensures { IsTrue result ↔ HasNodes initial_nodes links.now }
{
    let many = links.len();
    initial_nodes > 0
        && initial_nodes <= MAX_INITIAL_NODES
        && initial_nodes as usize <= many
        && many <= MAX_NODES as usize
}

/// Returns whether no link's next number is above the word of its head.
fn are_numbers_low(links: &[Intake]) -> bool
    ensures { IsTrue result ↔ All HasStamps links.now }
{
    for link in links {
        if link.next() > link.head().bits() {
            return false;
        }
    }
    true
}

/// Returns whether each retired node has an accepted item.
fn did_retired_issue(links: &[Intake]) -> bool
    ensures { IsTrue result ↔ All HasLastItem links.now }
{
    for link in links {
        if link.retired() && link.next() == 0 {
            return false;
        }
    }
    true
}

/// Returns the greatest head of some links, or 0.0 if there are none.
fn greatest_head(links: &[Intake]) -> Stamp
    ensures { result ≡ greatest_head links.now }
{
    let mut greatest = Stamp::ZERO;
    for link in links {
        greatest = greater(greatest, link.head());
    }
    greatest
}

/// Returns the least head of the links whose nodes have not retired, or the top if all have.
fn floor_of(links: &[Intake], top: Stamp) -> Stamp
    ensures { result ≡ floor_of (marks_of links.now top) }
{
    let mut least = None;
    for link in links {
        if !link.retired() {
            least = Some(lower(least, link.head()));
        }
    }
    least.unwrap_or(top)
}

/// Returns whether no open snapshot is above the floor.
fn are_at_most(floor: Stamp, snapshots: &[Snapshot]) -> bool
    ensures { IsTrue result ↔ All (λ snapshot. snapshot.stamp ≤ floor) snapshots.now }
{
    for snapshot in snapshots {
        if snapshot.stamp > floor {
            return false;
        }
    }
    true
}

/// Returns whether each row is of one of the nodes, not above its head, and above 0.0.
fn are_under_heads(links: &[Intake], rows: &[Row]) -> bool
    ensures { IsTrue result ↔ All (IsUnderHead links.now) rows.now }
{
    for row in rows {
        if !is_under_head(links, row) {
            return false;
        }
    }
    true
}

/// Returns whether a stamp is above 0.0, and not above a head.
fn is_issued_up_to(stamp: Stamp, head: Stamp) -> bool
    ensures { IsTrue result ↔ ((0 < stamp) × (stamp ≤ head)) }
{
    stamp > Stamp::ZERO && stamp <= head
}

/// Returns whether a row is of one of the nodes, not above its head, and above 0.0.
pub(crate) fn is_under_head(links: &[Intake], row: &Row) -> bool
    ensures { IsTrue result ↔ IsUnderHead links.now row.now }
{
    match links.get(row.node as usize) {
        Some(link) => is_issued_up_to(row.stamp, link.head()),
        None => false,
    }
}
