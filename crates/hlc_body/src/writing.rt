//! The parts of a checkpoint, written at the end of some bytes. The only error is out of memory; the content of `out`
//! is then not specified.
ghost use Rattle.std.specs.Prelude.{◌≡◌, ◌<◌, ◌++◌, OnOk, OnErr, length};
ghost use Rattle.std.specs.Int.{w16, w64, to_be_bytes};
ghost use Rattle.hlc_witness.specs.Cost.{IsInLimits};
ghost use Rattle.hlc_body.specs.Spelling.{link_bytes, snapshot_bytes, row_bytes, list_bytes};

use hlc_checkpoint::{Intake, RowRef, Snapshot};
use hlc_wire::{put_flag, put_key, put_value};
use std::alloc::{AllocError, Global};

/// Appends the number of links, and each link in turn. If memory runs out, some bytes may have been appended.
pub fn put_links(out: &mut Vec<u8>, links: &[Intake]) -> Result<(), AllocError>
    requires { length links.now < 65536 }
    ensures { OnOk result (out.new.items ≡ out.old.items ++ list_bytes w16 link_bytes links.now) }
{
    out.extend_from_slice(&(links.len() as u16).to_be_bytes())?;
    for link in links {
        put_link(out, link)?;
    }
    Ok(())
}

/// Writes a link.
fn put_link(out: &mut Vec<u8>, link: &Intake) -> Result<(), AllocError>
    ensures { OnOk result (out.new.items ≡ out.old.items ++ link_bytes link.now) }
{
    let next = link.next();
    let head = link.head().bits();
    let retired = link.retired();
    put_pair(out, next, head)?;
    put_flag(out, retired)?;
    Ok(())
}

/// Writes the number of snapshots, and each snapshot.
pub fn put_snapshots(out: &mut Vec<u8>, snapshots: &[Snapshot]) -> Result<(), AllocError>
    requires { length snapshots.now < 65536 }
    ensures { OnOk result
        (out.new.items ≡ out.old.items ++ list_bytes w16 snapshot_bytes snapshots.now) }
{
    out.extend_from_slice(&(snapshots.len() as u16).to_be_bytes())?;
    for snapshot in snapshots {
        put_snapshot(out, snapshot)?;
    }
    Ok(())
}

/// Writes an open snapshot.
fn put_snapshot(out: &mut Vec<u8>, snapshot: &Snapshot) -> Result<(), AllocError>
    ensures { OnOk result (out.new.items ≡ out.old.items ++ snapshot_bytes snapshot.now) }
{
    let id = snapshot.id;
    let stamp = snapshot.stamp.bits();
    put_pair(out, id, stamp)?;
    Ok(())
}

/// Writes two numbers.
fn put_pair(out: &mut Vec<u8>, a: u64, b: u64) -> Result<(), AllocError>
    ensures { OnOk result
        (out.new.items ≡ out.old.items ++ (to_be_bytes w64 a ++ to_be_bytes w64 b)) }
{
    out.extend_from_slice(&a.to_be_bytes())?;
    out.extend_from_slice(&b.to_be_bytes())?;
    Ok(())
}

/// Appends a row. If memory runs out, `out` is unchanged. What was in `piece` is replaced by the bytes of the row.
pub fn append_row(
    out: &mut Vec<u8>,
    piece: &mut Vec<u8>,
    row: &RowRef<'_>,
) -> Result<(), AllocError>
    requires { IsInLimits row.now }
    ensures ok { OnOk result (out.new.items ≡ out.old.items ++ row_bytes row.now) }
    ensures piece { OnOk result (piece.new.items ≡ row_bytes row.now) }
    ensures unchanged { OnErr result (out.new.items ≡ out.old.items) }
{
    piece.clear();
    put_row(piece, row)?;
    out.extend_from_slice(piece.as_slice())?;
    Ok(())
}

/// Writes a row.
fn put_row(out: &mut Vec<u8>, row: &RowRef<'_>) -> Result<(), AllocError>
    requires { IsInLimits row.now }
    ensures { OnOk result (out.new.items ≡ out.old.items ++ row_bytes row.now) }
{
    let stamp = row.stamp().bits();
    let node = row.node();
    put_key(out, row.key())?;
    put_version(out, stamp, node)?;
    put_value(out, row.value())?;
    Ok(())
}

/// Writes a stamp and a node.
fn put_version(out: &mut Vec<u8>, stamp: u64, node: u16) -> Result<(), AllocError>
    ensures { OnOk result
        (out.new.items ≡ out.old.items ++ (to_be_bytes w64 stamp ++ to_be_bytes w16 node)) }
{
    out.extend_from_slice(&stamp.to_be_bytes())?;
    out.extend_from_slice(&node.to_be_bytes())?;
    Ok(())
}
