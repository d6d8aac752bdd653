//! The whole life of a store: from a checkpoint through two ranges to the store that both become, and to its copies.
ghost use Rattle.std.specs.Prelude.{◌∷◌, ◌++◌, [], ℕ, IfOk};
ghost use Rattle.hlc.specs.{Node.Row as ARow, Store.StoreView};
ghost use Rattle.hlc_saved.specs.Saved.{AreOf};
ghost use Rattle.example_life.specs.Life.{AnswerAlike, AnswersAs, IsRowOf};

use crate::begin::{begin, decoded};
use crate::feed::{join, report, write_key};
use crate::joined::joined;
use crate::replicas::to_replicas;
use crate::stopped::Stopped;
use hlc::{Checkpoint, Core, Stamp, Write};
use std::alloc::Global;

/// Restores a store from bytes, takes it through two ranges with a write, and lets the store that both become write
/// twice more. Returns the store that its first checkpoint and an increment make, the one that a later checkpoint and
/// the log from its start make, and the cut of the ranges.
///
/// Where both can be read they answer each key alike, and up to the cut with the newest, by stamp and node, of all rows
/// of the bytes and of all that was written.
pub fn live(
    alloc: Global,
    bytes: &[u8],
    bound: &[u8],
    number: u16,
    reading: u64,
    write: Write,
    later: (Write, Write),
) -> Result<(Core, Core, Stamp), Stopped>
    ensures { IfOk result (λ made. (tag : ℕ) × (kept : StoreView) × AreOf bytes.now tag kept
        × (first second third : ARow) × IsRowOf write first × IsRowOf later.0 second
        × IsRowOf later.1 third
        × AnswerAlike (kept.rows ++ first ∷ (second ∷ (third ∷ []))) made.2 made.0 made.1) }
{
    let kept = decoded(alloc, bytes)?;
    let (whole, cut) = through_ranges(alloc, kept, bound, number, reading, write)?;
    if whole.floor() < cut {
        return Err(Stopped::NotJoined);
    }
    let (one, other) = to_replicas(alloc, whole, number, reading, later)?;
    Ok((one, other, cut))
}

/// Divides a checkpoint at a key, lets a machine write to both ranges, which one more node joins, and joins them at
/// their cut, which it returns too.
pub fn through_ranges(
    alloc: Global,
    kept: Checkpoint,
    bound: &[u8],
    number: u16,
    reading: u64,
    write: Write,
) -> Result<(Checkpoint, Stamp), Stopped>
    ensures { IfOk result (λ made. (written : ARow) × IsRowOf write written
        × AnswersAs made.0 made.1 (kept.rows ++ written ∷ [])) }
{
    let (mut ranges, mut machine) = begin(alloc, kept, bound, number)?;
    write_key(&mut ranges, &mut machine, reading, write)?;
    report(&mut ranges, &mut machine, 0, reading)?;
    report(&mut ranges, &mut machine, 1, reading)?;
    join(alloc, &mut ranges)?;
    let (whole, cut) = joined(alloc, &ranges)?;
    Ok((whole, cut))
}
