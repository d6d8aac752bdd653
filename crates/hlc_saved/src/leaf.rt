//! The rows of a leaf, written at the end of some bytes, column by column, each column by stamp and node. The only
//! error is out of memory; then nothing before the end of the bytes is changed, but some rows may be there.
ghost use Rattle.std.specs.Prelude.{◌≡◌, ◌++◌, ◌∷◌, [], All, OnOk, OnErr, flat_map};
ghost use Rattle.hlc_witness.specs.Cost.{AreInLimits};
ghost use Rattle.hlc_checkpoint.specs.Lent.{IsWritable};
ghost use Rattle.hlc_body.specs.Spelling.{row_bytes};
ghost use Rattle.hlc_saved.specs.Writing.{HasMore, HasColumns};

use hlc_body::append_row;
use hlc_checkpoint::{RowRef, list_column};
use hlc_columns::{Columns, Keyed};
use std::alloc::AllocError;

/// Appends the rows of a leaf. What was in `rows` and `piece` is replaced: they keep their memory from call to call.
pub fn append_leaf<'a>(
    out: &mut Vec<u8>,
    rows: &mut Vec<RowRef<'a>>,
    piece: &mut Vec<u8>,
    leaf: &Columns<'a>,
) -> Result<(), AllocError>
    requires { All IsWritable leaf.now }
    ensures ok { OnOk result (HasColumns leaf.now out.old.items out.new.items) }
    ensures err { OnErr result (HasMore out.old.items out.new.items) }
{
    for place in 0..leaf.len() {
        append_column(out, rows, piece, &leaf.at(place))?;
    }
    Ok(())
}

/// Appends the rows of some columns.
pub fn append_columns(out: &mut Vec<u8>, columns: &[Keyed<'_>]) -> Result<(), AllocError>
    requires { All IsWritable columns.now }
    ensures ok { OnOk result (HasColumns columns.now out.old.items out.new.items) }
    ensures err { OnErr result (HasMore out.old.items out.new.items) }
{
    let mut rows = Vec::new(*out.allocator());
    let mut piece = Vec::new(*out.allocator());
    for one in columns {
        append_column(out, &mut rows, &mut piece, one)?;
    }
    Ok(())
}

/// Appends the rows of a column.
fn append_column<'a>(
    out: &mut Vec<u8>,
    rows: &mut Vec<RowRef<'a>>,
    piece: &mut Vec<u8>,
    one: &Keyed<'a>,
) -> Result<(), AllocError>
    requires { IsWritable one.now }
    ensures ok { OnOk result (HasColumns (one.now ∷ []) out.old.items out.new.items) }
    ensures err { OnErr result (HasMore out.old.items out.new.items) }
{
    list_column(rows, one)?;
    append_rows(out, piece, rows.as_slice())
}

/// Appends some rows.
fn append_rows(
    out: &mut Vec<u8>,
    piece: &mut Vec<u8>,
    rows: &[RowRef<'_>],
) -> Result<(), AllocError>
    requires { AreInLimits rows.now }
    ensures ok { OnOk result (out.new.items ≡ out.old.items ++ flat_map row_bytes rows.now) }
    ensures err { OnErr result (HasMore out.old.items out.new.items) }
{
    for row in rows {
        append_row(out, piece, row)?;
    }
    Ok(())
}
