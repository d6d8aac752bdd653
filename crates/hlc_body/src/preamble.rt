//! The part of a checkpoint before the rows.
ghost use Rattle.std.specs.Prelude.{◌≡◌, ◌++◌, ◌<◌, OnOk, MatchOption, length};
ghost use Rattle.hlc_wire.specs.Reading.{Gives};
ghost use Rattle.hlc_body.specs.Spelling.{preamble_bytes, preamble_of, kept_of};
ghost use Rattle.hlc_body.specs.{Reading.preamble_at, Seen.seen};

use crate::reading::{links_at, snapshots_at};
use crate::writing::{put_links, put_snapshots};
use hlc_checkpoint::{Checkpoint, Intake, Row, Snapshot, StoreRef};
use hlc_clock::Stamp;
use hlc_wire::{DecodeError, u16_at, u64_at};
use std::alloc::{AllocError, Global};
use std::marker::Model;

/// All parts of a checkpoint except its rows, and the number of rows.
#[derive(Drop)]
pub struct Preamble {
    initial_nodes: u16,
    links: Vec<Intake>,
    snapshots: Vec<Snapshot>,
    last_id: u64,
    horizon: Stamp,
    count: u64,
}

impl Model for Preamble {
    ghost use Rattle.hlc_body.specs.Spelling.{Preamble as APreamble};

    ghost Value = { APreamble };

    ghost view = { λ preamble. record {
      initial_nodes = preamble.initial_nodes;
      links = preamble.links.items;
      snapshots = preamble.snapshots.items;
      last_id = preamble.last_id;
      horizon = preamble.horizon;
      count = preamble.count;
    } };
}

impl Preamble {
    /// Returns the number of rows.
    pub fn count(&self) -> u64
        ensures { result ≡ self.now.count }
    {
        self.count
    }

    /// Returns the checkpoint of this preamble and these rows. It moves both, and checks nothing.
    pub fn with_rows(self, rows: Vec<Row>) -> Checkpoint
        ensures { result ≡ kept_of self rows.items }
    {
        let Preamble {
            initial_nodes,
            links,
            snapshots,
            last_id,
            horizon,
            count: _,
        } = self;
        Checkpoint::of(initial_nodes, links, snapshots, last_id, horizon, rows)
    }
}

/// Reads the part before the rows, and returns it with the bytes after it; or the first fault from the left, or out of
/// memory.
#[tactic(auto, unfolding(crate::specs::Reading::preamble_at))]
pub fn preamble_at(alloc: Global, bytes: &[u8]) -> Result<(Preamble, &[u8]), DecodeError>
    ensures { Gives (λ x. (x.0, x.1.now)) result (preamble_at bytes.now) }
{
    let (initial_nodes, rest) = u16_at(bytes)?;
    let (links, rest) = links_at(alloc, rest)?;
    let (snapshots, rest) = snapshots_at(alloc, rest)?;
    let (last_id, rest) = u64_at(rest)?;
    let (horizon, rest) = u64_at(rest)?;
    let (count, rest) = u64_at(rest)?;
    let horizon = Stamp::from_bits(horizon);
    Ok((
        Preamble {
            initial_nodes,
            links,
            snapshots,
            last_id,
            horizon,
            count,
        },
        rest,
    ))
}

/// All parts of a state except its rows, and the number of rows, lent.
#[derive(Drop)]
pub struct PreambleRef<'a> {
    pub initial_nodes: u16,
    pub links: &'a [Intake],
    pub snapshots: &'a [Snapshot],
    pub last_id: u64,
    pub horizon: Stamp,
    pub count: u64,
}

impl<'a> PreambleRef<'a> {
    /// Lends those of a checkpoint.
    pub fn of(checkpoint: &'a Checkpoint) -> PreambleRef<'a>
        ensures { seen result ≡ preamble_of checkpoint.now }
    {
        PreambleRef {
            initial_nodes: checkpoint.initial_nodes(),
            links: checkpoint.links(),
            snapshots: checkpoint.snapshots(),
            last_id: checkpoint.last_id(),
            horizon: checkpoint.horizon(),
            count: checkpoint.rows().len() as u64,
        }
    }

    /// Lends those of a store with this many rows.
    pub fn of_store(store: &StoreRef<'a>, count: u64) -> PreambleRef<'a>
        requires { count ≡ length store.now.rows }
        ensures { seen result ≡ preamble_of store.now }
    {
        PreambleRef {
            initial_nodes: store.initial_nodes(),
            links: store.links(),
            snapshots: store.snapshots(),
            last_id: store.last_id(),
            horizon: store.horizon(),
            count,
        }
    }
}

/// Returns the number of rows of a store. Refused only where it is 2^64 or more.
pub fn count_of(store: &StoreRef<'_>) -> Option<u64>
    ensures { MatchOption result (18446744073709551615 < length store.now.rows)
        (λ count. count ≡ length store.now.rows) }
{
    let count = store.count();
    if count > u64::MAX as u128 {
        return None;
    }
    Some(count as u64)
}

/// Writes all parts of a state except its rows, and the number of rows.
pub fn put_preamble(out: &mut Vec<u8>, preamble: &PreambleRef<'_>) -> Result<(), AllocError>
    requires links { length preamble.now.links.now < 65536 }
    requires snapshots { length preamble.now.snapshots.now < 65536 }
    ensures { OnOk result (out.new.items ≡ out.old.items ++ preamble_bytes (seen preamble.now)) }
{
    let horizon = preamble.horizon.bits();
    out.extend_from_slice(&preamble.initial_nodes.to_be_bytes())?;
    put_links(out, preamble.links)?;
    put_snapshots(out, preamble.snapshots)?;
    out.extend_from_slice(&preamble.last_id.to_be_bytes())?;
    out.extend_from_slice(&horizon.to_be_bytes())?;
    out.extend_from_slice(&preamble.count.to_be_bytes())?;
    Ok(())
}
