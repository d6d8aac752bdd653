//! The state of a store, lent: nothing of it is copied.
ghost use Rattle.std.specs.Prelude.{◌≡◌, ◌<◌, IfOk, All, Some, length, slice_get};
ghost use Rattle.hlc_snapshot.specs.RegistryView.{IsRegister};
ghost use Rattle.hlc_table_column.specs.Rows.{rows_in, KeysAscend};
ghost use Rattle.hlc_columns.specs.{Answers.AreNext, Table.columns_in};
ghost use Rattle.hlc_witness.specs.Cost.{AreInLimits};
ghost use Rattle.hlc_checkpoint.specs.{StoreView.greatest_head, StoreView.with_rows, Lent.IsWritable};

use crate::checkpoint::Checkpoint;
use hlc_clock::Stamp;
use hlc_columns::{Columns, Keyed, Table};
use hlc_intake::Intake;
use hlc_rows::Row;
use hlc_snapshot::{Registry, Snapshot};
use hlc_values::NoMemory;
use std::alloc::Global;
use std::marker::Model;

/// The state of a store, lent. In contracts it is the state, whose top is the greatest head.
#[derive(Debug, Drop)]
pub struct StoreRef<'a> {
    initial_nodes: u16,
    links: &'a [Intake],
    registry: &'a Registry,
    horizon: Stamp,
    table: &'a Table,
}

impl<'a> Model for StoreRef<'a> {
    ghost use Rattle.hlc_checkpoint.specs.StoreView.{StoreView, greatest_head};

    ghost Value = { StoreView };

    ghost view = { λ store. record {
      initial_nodes = store.initial_nodes;
      links = store.links.now;
      top = greatest_head store.links.now;
      snapshots = store.registry.now.snapshots;
      last_id = store.registry.now.last_id;
      horizon = store.horizon;
      rows = store.table.now;
    } };
}

impl<'a> StoreRef<'a> {
    /// Lends the parts of a store. They are not checked.
    pub fn of(
        initial_nodes: u16,
        links: &'a [Intake],
        registry: &'a Registry,
        horizon: Stamp,
        table: &'a Table,
    ) -> StoreRef<'a>
        ensures value { result ≡ record {
          initial_nodes = initial_nodes;
          links = links.now;
          top = greatest_head links.now;
          snapshots = registry.now.snapshots;
          last_id = registry.now.last_id;
          horizon = horizon;
          rows = table.now;
        } }
        ensures register { IsRegister registry.now }
    {
        // The proof needs that the registry's ids rise.
        let _snapshots = registry.snapshots();
        StoreRef {
            initial_nodes,
            links,
            registry,
            horizon,
            table,
        }
    }

    /// Returns the number of nodes at the start.
    pub fn initial_nodes(&self) -> u16
        ensures { result ≡ self.now.initial_nodes }
    {
        self.initial_nodes
    }

    /// Returns the progress of each link, by node.
    pub fn links(&self) -> &'a [Intake]
        ensures { result.now ≡ self.now.links }
    {
        self.links
    }

    /// Returns the open snapshots, the oldest first.
    pub fn snapshots(&self) -> &'a [Snapshot]
        ensures { result.now ≡ self.now.snapshots }
    {
        self.registry.snapshots()
    }

    /// Returns the last id that a snapshot was given, 0 if none.
    pub fn last_id(&self) -> u64
        ensures { result ≡ self.now.last_id }
    {
        self.registry.last_id()
    }

    /// Returns the stamp of the last vacuum, or part of one, 0.0 before the first.
    pub fn horizon(&self) -> Stamp
        ensures { result ≡ self.now.horizon }
    {
        self.horizon
    }

    /// Returns the number of rows, in constant time.
    pub fn count(&self) -> u128
        ensures { result ≡ length self.now.rows }
    {
        self.table.rows()
    }

    /// Returns the rows, leaf by leaf of the index of the keys. It needs memory for each leaf, and none for a row.
    pub fn leaves(&self) -> Result<Leaves<'a>, NoMemory>
        requires { AreInLimits self.now.rows }
        ensures rows { IfOk result (λ leaves. rows_in (columns_in leaves) ≡ self.now.rows) }
        ensures ascend { IfOk result (λ leaves. KeysAscend (columns_in leaves)) }
    {
        let list = self.table.leaves()?;
        Ok(Leaves { list })
    }

    /// Returns the columns of the first keys above a key, at most `limit` columns, in byte order. It looks up the key,
    /// and needs memory for each column, and none for a row.
    pub fn columns_after(&self, key: &[u8], limit: usize) -> Result<Vec<Keyed<'a>>, NoMemory>
        requires { AreInLimits self.now.rows }
        ensures next { IfOk result (λ columns. AreNext self.now.rows key.now limit columns.items) }
        ensures writable { IfOk result (λ columns. All IsWritable columns.items) }
    {
        let columns = self.table.columns_after(key, limit)?;
        Ok(columns)
    }

    /// Makes a checkpoint of this state with these rows: it copies the links and the open snapshots, and moves the
    /// rows. If memory runs out, the rows are lost.
    pub fn with_rows(&self, alloc: Global, rows: Vec<Row>) -> Result<Checkpoint, NoMemory>
        ensures same { IfOk result
            (λ made. made ≡ with_rows self.now made.rows) }
        ensures rows { IfOk result (λ made. made.rows ≡ rows.items) }
    {
        let links = Vec::from_slice(alloc, self.links)?;
        let snapshots = Vec::from_slice(alloc, self.registry.snapshots())?;
        let (nodes, last_id) = (self.initial_nodes, self.registry.last_id());
        Ok(Checkpoint::of(nodes, links, snapshots, last_id, self.horizon, rows))
    }
}

/// The rows of a store, lent leaf by leaf of the index of the keys. In contracts it is the list of the leaves. The rows
/// of each column are a row set, and an item may write each of them.
#[derive(Debug, Drop)]
pub struct Leaves<'a> {
    list: Vec<Columns<'a>>,
}

impl<'a> Model for Leaves<'a> {
    ghost use Rattle.std.specs.Prelude.{List, All};
    ghost use Rattle.hlc_table_column.specs.Rows.{KeyCells};
    ghost use Rattle.hlc_columns.specs.Table.{columns_in};
    ghost use Rattle.hlc_checkpoint.specs.Lent.{IsWritable};

    ghost Value = { List (List KeyCells) };

    ghost view = { λ leaves. leaves.list.items };

    ghost invariant = { λ leaves. All IsWritable (columns_in leaves.list.items) };
}

impl<'a> Leaves<'a> {
    /// Returns the number of leaves.
    pub fn len(&self) -> usize
        ensures { result ≡ length self.now }
    {
        self.list.len()
    }

    /// Returns the leaf at a position.
    pub fn at(&self, place: usize) -> &Columns<'a>
        requires { place < length self.now }
        ensures leaf { slice_get self.now place ≡ Some result.now }
        ensures writable { All IsWritable result.now }
    {
        &self.list[place]
    }
}
