//! The whole story: two nodes write, the store is read in two snapshots, and a vacuum is certified.
ghost use Rattle.std.specs.Prelude.{◌≡◌, IfOk};
ghost use Rattle.example_embed.specs.{Fed.RepresentsSome, Printed.PrintsStory};

use crate::feed::{report, write};
use crate::reads::put_read;
use crate::stopped::Stopped;
use crate::vacuumed::put_vacuum;
use hlc::certificate::{Printer, Shown, Watched};
use hlc::{Bytes, Core, NoMemory, NodeCore, Stamp};
use std::alloc::Global;
use std::io::Write;

/// Returns a copy of a key or a value.
fn bytes(alloc: Global, text: &[u8]) -> Result<Bytes, NoMemory>
    ensures { IfOk result (λ bytes. bytes ≡ text.now) }
{
    Ok(Bytes::from_slice(alloc, text)?)
}

/// Reads a city of a new store in an old snapshot and in a new one, and vacuums.
pub(crate) fn run<W: Write>(alloc: Global, writer: &mut Watched<W>) -> Result<Shown, Stopped>
    ensures { IfOk result (λ shown. PrintsStory W.contents writer.old writer.new shown) }
{
    let mut core = Core::new(alloc, 2)?;
    run_on(alloc, &mut core, writer)
}

/// Reads and vacuums as `run` does, with an existing store.
fn run_on<W: Write>(
    alloc: Global,
    core: &mut Core,
    writer: &mut Watched<W>,
) -> Result<Shown, Stopped>
    ensures { RepresentsSome core.old
        → IfOk result (λ shown. PrintsStory W.contents writer.old writer.new shown) }
{
    let (early, late) = fill(alloc, core)?;
    let mut printer = Printer::new(writer);
    put_read(&mut printer, core, early, b"city")?;
    put_read(&mut printer, core, late, b"city")?;
    let shown = put_vacuum(&mut printer, core)?;
    printer.finish();
    Ok(shown)
}

/// Lets two nodes write a city and its river, and opens one snapshot in between and one at the end. Returns the ids of
/// both.
fn fill(alloc: Global, core: &mut Core) -> Result<(u64, u64), Stopped>
    ensures { RepresentsSome core.old → IfOk result (λ _. RepresentsSome core.new) }
{
    let mut west = NodeCore::new(0, Stamp::ZERO);
    let mut east = NodeCore::new(1, Stamp::ZERO);
    // Readings of physical clocks come from outside: here they are 10, 12 and so on.
    say(alloc, core, &mut west, 10, b"city", b"Lyon")?;
    say(alloc, core, &mut east, 12, b"river", b"Rhone")?;
    report(core, &mut west, 12)?;
    let early = open(core)?;
    say(alloc, core, &mut west, 14, b"city", b"Lyon")?;
    say(alloc, core, &mut west, 15, b"city", b"Paris")?;
    say(alloc, core, &mut east, 16, b"river", b"Seine")?;
    report(core, &mut west, 17)?;
    let late = open(core)?;
    Ok((early, late))
}

/// Opens a snapshot at the floor (closed timestamp), and returns its id.
fn open(core: &mut Core) -> Result<u64, Stopped>
    ensures { RepresentsSome core.old → IfOk result (λ _. RepresentsSome core.new) }
{
    match core.open_floor() {
        Ok((id, _)) => Ok(id),
        Err(fault) => Err(Stopped::from(fault)),
    }
}

/// Lets a node write copies of these bytes.
fn say(
    alloc: Global,
    core: &mut Core,
    node: &mut NodeCore,
    reading: u64,
    key: &[u8],
    value: &[u8],
) -> Result<Stamp, Stopped>
    ensures { RepresentsSome core.old → IfOk result (λ _. RepresentsSome core.new) }
{
    write(
        core,
        node,
        reading,
        bytes(alloc, key)?,
        bytes(alloc, value)?,
    )
}
