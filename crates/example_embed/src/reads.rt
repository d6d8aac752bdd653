//! What a reader sees in its snapshot, as a line.
ghost use Rattle.std.specs.Prelude.{◌≡◌, List, IfOk, OnErr, Some, None, option_copied};
ghost use Rattle.hlc.specs.{Store.Step, Store.stamp_of, Store.Represents, Text.Prints, Text.printed};
ghost use Rattle.example_embed.specs.Printed.{read_line, read_text, value_text};

use hlc::certificate::Printer;
use hlc::{Core, NoSnapshot, Stamp};
use std::io::Write;

/// Prints the value that a key has in an open snapshot, and returns the snapshot's stamp.
pub(crate) fn put_read<W: Write>(
    printer: &mut Printer<'_, W>,
    core: &Core,
    id: u64,
    key: &[u8],
) -> Result<Stamp, NoSnapshot>
    ensures ok { (past : List Step) → Represents core.now past → IfOk result
        (λ stamp. (stamp_of id past ≡ Some stamp)
        × Prints W.contents printer.old printer.new (read_text past key.now stamp)) }
    ensures err { (past : List Step) → Represents core.now past
        → OnErr result (stamp_of id past ≡ None) }
{
    let Some(view) = core.at(id) else {
        return Err(NoSnapshot);
    };
    put_answer(printer, key, view.stamp(), view.get(key));
    Ok(view.stamp())
}

/// Prints the line of a read.
fn put_answer<W: Write>(
    printer: &mut Printer<'_, W>,
    key: &[u8],
    stamp: Stamp,
    value: Option<&[u8]>,
)
    ensures { Prints W.contents printer.old printer.new
        (printed (read_line key.now stamp (option_copied value.entry))) }
{
    printer.put_named_bytes(b"read ", key);
    printer.put_named_stamp(b" at ", stamp);
    put_value(printer, value);
    printer.put(b"\n");
}

/// Prints a value, or that there is none, after a space.
fn put_value<W: Write>(printer: &mut Printer<'_, W>, value: Option<&[u8]>)
    ensures { Prints W.contents printer.old printer.new (value_text (option_copied value.entry)) }
{
    match value {
        None => printer.put(b" none"),
        Some(bytes) => printer.put_named_bytes(b" value ", bytes),
    }
}
