//! The number of bytes of a checkpoint.
ghost use Rattle.std.specs.Prelude.{◌≡◌, ◌<◌, ◌+◌, ◌*◌, All, IfSome, OnSome, SomeIff, length, option_copied, flat_map};
ghost use Rattle.hlc_table_column.specs.Rows.{rows_in, rows_in_one};
ghost use Rattle.hlc_columns.specs.Table.{columns_in};
ghost use Rattle.hlc_witness.specs.Cost.{IsInLimits, AreInLimits};
ghost use Rattle.hlc_checkpoint.specs.{Checkpoint.IsCheckpoint, Checkpoint.IsStore, Lent.IsWritable};
ghost use Rattle.hlc_body.specs.Seen.{seen};
ghost use Rattle.hlc_body.specs.Spelling.{row_bytes, preamble_bytes, preamble_of, checkpoint_bytes, LinkFits};
ghost use Rattle.hlc_body.specs.Spelling.{SnapshotFits, RowFits, PreambleFits, CheckpointFits, AreOfSize};
ghost use Rattle.hlc_wire.specs.Spelling.{value_bytes, ValueFits};

use hlc_body::PreambleRef;
use hlc_checkpoint::{Leaves, RowRef, StoreRef};
use hlc_columns::{Columns, Keyed};
use hlc_core::{Checkpoint, Intake, Row, Snapshot};

/// Returns the number of bytes of a checkpoint, if it fits in eight bytes.
pub fn checkpoint_size(checkpoint: &Checkpoint) -> Option<u64>
    requires { IsCheckpoint checkpoint.now }
    ensures size { SomeIff result (length (checkpoint_bytes checkpoint.now) < 18446744073709551616)
        (length (checkpoint_bytes checkpoint.now)) }
    ensures fits { OnSome result (CheckpointFits checkpoint.now) }
{
    let preamble = PreambleRef::of(checkpoint);
    let rows = rows_size(checkpoint.rows())?;
    rows.checked_add(preamble_size(&preamble))
}

/// Returns the number of bytes of a store's checkpoint, if it fits in eight bytes. It looks at each row.
pub fn store_size(store: &StoreRef<'_>, head: &PreambleRef<'_>, leaves: &Leaves<'_>) -> Option<u64>
    requires store { IsStore store.now }
    requires head { seen head.now ≡ preamble_of store.now }
    requires rows { rows_in (columns_in leaves.now) ≡ store.now.rows }
    ensures size { IfSome result (λ size. size ≡ length (checkpoint_bytes store.now)) }
    ensures fits { OnSome result (CheckpointFits store.now) }
{
    leaves_size(leaves)?.checked_add(preamble_size(head))
}

/// Returns the number of bytes of the part before the rows.
fn preamble_size(preamble: &PreambleRef<'_>) -> u64
    requires links { length preamble.now.links.now < 65536 }
    requires snapshots { length preamble.now.snapshots.now < 65536 }
    ensures size { result ≡ length (preamble_bytes (seen preamble.now)) }
    ensures fits { PreambleFits (seen preamble.now) }
{
    let _initial_nodes = preamble.initial_nodes;
    let _last_id = preamble.last_id;
    let _count = preamble.count;
    let _horizon = preamble.horizon.bits();
    26 + links_size(preamble.links) + snapshots_size(preamble.snapshots)
}

/// Returns the number of bytes of some links and of their count.
fn links_size(links: &[Intake]) -> u64
    requires { length links.now < 65536 }
    ensures size { result ≡ 2 + 17 * length links.now }
    ensures fits { All LinkFits links.now }
{
    let mut size = 2;
    for link in links {
        size += link_size(link);
    }
    size
}

/// Returns the number of bytes of a link.
fn link_size(link: &Intake) -> u64
    ensures size { result ≡ 17 }
    ensures fits { LinkFits link.now }
{
    let _next = link.next();
    let _head = link.head().bits();
    17
}

/// Returns the number of bytes of some snapshots and of their count.
fn snapshots_size(snapshots: &[Snapshot]) -> u64
    requires { length snapshots.now < 65536 }
    ensures size { result ≡ 2 + 16 * length snapshots.now }
    ensures fits { All SnapshotFits snapshots.now }
{
    let mut size = 2;
    for snapshot in snapshots {
        size += snapshot_size(snapshot);
    }
    size
}

/// Returns the number of bytes of a snapshot.
fn snapshot_size(snapshot: &Snapshot) -> u64
    ensures size { result ≡ 16 }
    ensures fits { SnapshotFits snapshot.now }
{
    let _id = snapshot.id;
    let _stamp = snapshot.stamp.bits();
    16
}

/// Returns the number of bytes of some rows, if it fits in eight bytes.
fn rows_size(rows: &[Row]) -> Option<u64>
    requires { AreInLimits rows.now }
    ensures size { SomeIff result (length (flat_map row_bytes rows.now) < 18446744073709551616)
        (length (flat_map row_bytes rows.now)) }
    ensures fits { OnSome result (All RowFits rows.now) }
{
    let mut size: u64 = 0;
    for row in rows {
        match size.checked_add(row_size(&RowRef::of(row))) {
            None => return None,
            Some(sum) => size = sum,
        }
    }
    Some(size)
}

/// Returns the number of bytes of the rows of some leaves, if it fits in eight bytes.
fn leaves_size(leaves: &Leaves<'_>) -> Option<u64>
    ensures { IfSome result (AreOfSize (rows_in (columns_in leaves.now))) }
{
    let mut size: u64 = 0;
    for place in 0..leaves.len() {
        size = size.checked_add(leaf_size(leaves.at(place))?)?;
    }
    Some(size)
}

/// Returns the number of bytes of the rows of a leaf, if it fits in eight bytes.
fn leaf_size(leaf: &Columns<'_>) -> Option<u64>
    requires { All IsWritable leaf.now }
    ensures { IfSome result (AreOfSize (rows_in leaf.now)) }
{
    let mut size: u64 = 0;
    for place in 0..leaf.len() {
        size = size.checked_add(column_size(&leaf.at(place))?)?;
    }
    Some(size)
}

/// Returns the number of bytes of the rows of a column, if it fits in eight bytes.
fn column_size(one: &Keyed<'_>) -> Option<u64>
    requires { AreInLimits (rows_in_one one.now) }
    ensures { IfSome result (AreOfSize (rows_in_one one.now)) }
{
    let key = one.key();
    let column = one.column();
    let mut size: u64 = 0;
    for place in 0..column.len() {
        size = size.checked_add(row_size(&RowRef::at(key, &column, place)))?;
    }
    Some(size)
}

/// Returns the number of bytes of a row.
fn row_size(row: &RowRef<'_>) -> u64
    requires { IsInLimits row.now }
    ensures size { result ≡ length (row_bytes row.now) }
    ensures fits { RowFits row.now }
{
    let _stamp = row.stamp().bits();
    let _node = row.node();
    11 + row.key().len() as u64 + value_size(row.value())
}

/// Returns the number of bytes of a value.
fn value_size(value: Option<&[u8]>) -> u64
    requires { ValueFits (option_copied value) }
    ensures { result ≡ length (value_bytes (option_copied value.entry)) }
{
    match value {
        None => 1,
        Some(bytes) => 3 + bytes.len() as u64,
    }
}
