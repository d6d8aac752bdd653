//! A checkpoint that is written whole, or in pieces.
ghost use Rattle.std.specs.Prelude.{◌≡◌, ◌<◌, ◌≤◌, ◌+◌, ◌^◌, ◌++◌, ◌∷◌, [], ℕ, List, IfOk, IfErr, OnOk, OnErr};
ghost use Rattle.std.specs.Prelude.{MatchResult, length, flat_map};
ghost use Rattle.hlc_rows.specs.declared.row.Row.{Row as ARow};
ghost use Rattle.hlc_witness.specs.Cost.{IsInLimits, AreInLimits};
ghost use Rattle.hlc_core.specs.StoreView.{StoreView};
ghost use Rattle.hlc_checkpoint.specs.Checkpoint.{IsCheckpoint, IsFirstReason};
ghost use Rattle.hlc_frame.specs.{Frame.front_bytes, Writing.HasPut};
ghost use Rattle.hlc_body.specs.Spelling.{row_bytes, preamble_bytes, saved_bytes, SavedFits};
ghost use Rattle.hlc_body.specs.Seen.{seen};
ghost use Rattle.hlc_saved.specs.Writing.{HasWritten, begin_bytes, end_bytes};

use crate::bytes::bytes_from;
use crate::size::checkpoint_size;
use hlc_body::{PreambleRef, append_row, put_preamble};
use hlc_checkpoint::RowRef;
use hlc_core::{Checkpoint, RestoreFault, Row};
use hlc_frame::{DIGEST_BYTES, FRONT_BYTES, FrameWriter};
use hlc_values::NoMemory;
use std::alloc::Global;

/// Returns the one encoding of a checkpoint and a tag of the caller's: for example, the position in its log up to
/// which the store has applied it.
///
/// Refused for the first reason why it is no checkpoint; memory is needed only after the check. The bytes are allocated
/// once.
pub fn encode_checkpoint(
    alloc: Global,
    checkpoint: &Checkpoint,
    tag: u64,
) -> Result<Result<Vec<u8>, RestoreFault>, NoMemory>
    ensures sound { IfOk result (λ made. OnOk made (IsCheckpoint checkpoint.now)) }
    ensures fits { IfOk result (λ made. OnOk made (SavedFits tag checkpoint.now)) }
    ensures spelled { IfOk result
        (λ made. IfOk made (λ bytes. bytes.items ≡ saved_bytes tag checkpoint.now)) }
    ensures err { IfOk result (λ made. IfErr made (IsFirstReason checkpoint.now)) }
    ensures memory { OnErr result (IsCheckpoint checkpoint.now) }
{
    if let Some(fault) = checkpoint.fault() {
        return Ok(Err(fault));
    }
    let size = checkpoint_size(checkpoint).ok_or(NoMemory)?;
    let mut out = Vec::with_capacity(alloc, whole_size(size)?)?;
    let frame = begin_frame(&mut out, &PreambleRef::of(checkpoint), size, tag)?;
    let piece = Vec::new(alloc);
    let mut writer = CheckpointWriter { frame, piece };
    writer.rows(&mut out, checkpoint.rows())?;
    writer.end(&mut out)?;
    Ok(Ok(out))
}

/// Appends the front of a frame, and the part before the rows. `out` is unchanged if memory runs out.
pub(crate) fn begin_frame(
    out: &mut Vec<u8>,
    preamble: &PreambleRef<'_>,
    size: u64,
    tag: u64,
) -> Result<FrameWriter, NoMemory>
    requires links { length preamble.now.links.now < 65536 }
    requires snapshots { length preamble.now.snapshots.now < 65536 }
    ensures put { IfOk result
        (λ frame. HasPut frame (front_bytes size tag) (preamble_bytes (seen preamble.now))) }
    ensures ok { OnOk result (out.new.items
        ≡ out.old.items ++ (front_bytes size tag ++ preamble_bytes (seen preamble.now))) }
    ensures small { size < 18446744073709551616 }
    ensures unchanged { OnErr result (out.new.items ≡ out.old.items) }
{
    let mut piece = Vec::new(*out.allocator());
    let mut frame = FrameWriter::begin(&mut piece, size, tag)?;
    put_preamble(&mut piece, preamble)?;
    frame.put(bytes_from(piece.as_slice(), FRONT_BYTES));
    out.extend_from_slice(piece.as_slice())?;
    Ok(frame)
}

/// Returns the number of bytes of a frame with this many bytes in its body. Refused only where that is 2^64 or more.
pub(crate) fn whole_size(size: u64) -> Result<usize, NoMemory>
    ensures { MatchResult result (λ whole. whole ≡ size + 52) (λ _. 2 ^ 64 ≤ size + 52) }
{
    let framed = size
        .checked_add((FRONT_BYTES + DIGEST_BYTES) as u64)
        .ok_or(NoMemory)?;
    Ok(framed as usize)
}

/// A checkpoint that is being written: everything before its rows is written, and they come one by one.
///
/// The caller passes in the rows of the checkpoint in turn, each once. Then all that is appended is what
/// `encode_checkpoint` returns. Other rows make a frame of other rows, or no frame. The caller may write out what was
/// appended, and clear it, between any two calls.
#[derive(Drop)]
pub struct CheckpointWriter {
    frame: FrameWriter,
    piece: Vec<u8>,
}

impl CheckpointWriter {
    /// Appends everything before the rows.
    ///
    /// Refused for the first reason why it is no checkpoint; memory is needed only after the check. `out` is unchanged
    /// if there is no writer. It looks at each row, to check it and to add up its length.
    pub fn begin(
        out: &mut Vec<u8>,
        checkpoint: &Checkpoint,
        tag: u64,
    ) -> Result<Result<CheckpointWriter, RestoreFault>, NoMemory>
        ensures sound { IfOk result (λ made. OnOk made (IsCheckpoint checkpoint.now)) }
        ensures fits { IfOk result (λ made. OnOk made (SavedFits tag checkpoint.now)) }
        ensures written { IfOk result
            (λ made. IfOk made (λ writer. HasWritten writer tag checkpoint.now [])) }
        ensures ok { IfOk result (λ made. OnOk made
            (out.new.items ≡ out.old.items ++ begin_bytes tag checkpoint.now)) }
        ensures err { IfOk result (λ made. IfErr made (IsFirstReason checkpoint.now)) }
        ensures refused { IfOk result (λ made. OnErr made (out.new.items ≡ out.old.items)) }
        ensures memory { OnErr result (IsCheckpoint checkpoint.now) }
        ensures unchanged { OnErr result (out.new.items ≡ out.old.items) }
    {
        if let Some(fault) = checkpoint.fault() {
            return Ok(Err(fault));
        }
        let size = checkpoint_size(checkpoint).ok_or(NoMemory)?;
        let frame = begin_frame(out, &PreambleRef::of(checkpoint), size, tag)?;
        let piece = Vec::new(*out.allocator());
        Ok(Ok(CheckpointWriter { frame, piece }))
    }

    /// Appends a row. If memory runs out, `out` and the writer are unchanged, and the row may be
    /// passed in again.
    pub fn row(&mut self, out: &mut Vec<u8>, row: &Row) -> Result<(), NoMemory>
        requires { IsInLimits row.now }
        ensures written { (tag : ℕ) (kept : StoreView) (rows : List ARow)
            → HasWritten self.old tag kept rows
            → OnOk result (HasWritten self.new tag kept (rows ++ row.now ∷ [])) }
        ensures ok { OnOk result (out.new.items ≡ out.old.items ++ row_bytes row.now) }
        ensures waits { (tag : ℕ) (kept : StoreView) (rows : List ARow)
            → HasWritten self.old tag kept rows
            → OnErr result (HasWritten self.new tag kept rows) }
        ensures unchanged { OnErr result (out.new.items ≡ out.old.items) }
    {
        append_row(out, &mut self.piece, &RowRef::of(row))?;
        self.frame.put(self.piece.as_slice());
        Ok(())
    }

    /// Appends some rows.
    fn rows(&mut self, out: &mut Vec<u8>, rows: &[Row]) -> Result<(), NoMemory>
        requires { AreInLimits rows.now }
        ensures written { (tag : ℕ) (kept : StoreView) → HasWritten self.old tag kept []
            → OnOk result (HasWritten self.new tag kept rows.now) }
        ensures ok { OnOk result (out.new.items ≡ out.old.items ++ flat_map row_bytes rows.now) }
    {
        for row in rows {
            self.row(out, row)?;
        }
        Ok(())
    }

    /// Appends the digest, which ends the frame. `out` is unchanged if memory runs out.
    pub fn end(self, out: &mut Vec<u8>) -> Result<(), NoMemory>
        ensures ok { (tag : ℕ) (kept : StoreView) (rows : List ARow) → HasWritten self tag kept rows
            → OnOk result (out.new.items ≡ out.old.items ++ end_bytes tag kept rows) }
        ensures unchanged { OnErr result (out.new.items ≡ out.old.items) }
    {
        let CheckpointWriter { frame, piece: _ } = self;
        frame.end(out)
    }
}
