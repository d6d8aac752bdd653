//! A checkpoint read from bytes.
ghost use Rattle.std.specs.Prelude.{◌≡◌, ℕ, IfOk, IsErrOf, Ok};
ghost use Rattle.hlc_core.specs.StoreView.{StoreView};
ghost use Rattle.hlc_wire.specs.Reading.{Gives, whole};
ghost use Rattle.hlc_body.specs.{Spelling.saved_bytes, Spelling.SavedFits, Reading.checkpoint_at, Reading.saved};
ghost use Rattle.hlc_saved.specs.Saved.{AreFrame};

use hlc_body::{preamble_at, rows_at};
use hlc_core::Checkpoint;
use hlc_frame::open_frame;
use hlc_wire::{DecodeError, WireFault};
use std::alloc::Global;

/// The content of some bytes.
#[derive(Debug, Drop)]
pub struct Decoded {
    /// The checkpoint. `Checkpoint::fault` says whether it is one.
    pub checkpoint: Checkpoint,
    /// The tag that it was saved with.
    pub tag: u64,
}

/// Reads the checkpoint and the tag from their encoding, which is all of the bytes.
///
/// The frame is checked first: `Short`, `Version`, `Damaged` or `Trailing`. Then comes the first
/// fault of its body from the left, `Trailing` at last. Memory runs out only where the frame is whole.
pub fn decode_checkpoint(alloc: Global, bytes: &[u8]) -> Result<Decoded, DecodeError>
    // The bytes are the encoding of the result.
    ensures found { IfOk result (λ made. SavedFits made.tag made.checkpoint
        × (bytes.now ≡ saved_bytes made.tag made.checkpoint)) }
    // The encoding of a tag and a checkpoint is read, unless memory runs out.
    ensures only { (tag : ℕ) (kept : StoreView) → SavedFits tag kept
        → bytes.now ≡ saved_bytes tag kept
        → Gives {Y = ℕ × StoreView} (λ made. (made.tag, made.checkpoint)) result (Ok (tag, kept)) }
    // The fault is exactly this one.
    ensures exact { Gives (λ made. (made.tag, made.checkpoint)) result (saved bytes.now) }
    // Memory runs out only after the frame was found whole.
    ensures memory { IsErrOf result DecodeError.NoMemory → AreFrame bytes.now }
{
    all(alloc, bytes)
}

/// Reads a checkpoint and a tag from all of the bytes.
fn all(alloc: Global, bytes: &[u8]) -> Result<Decoded, DecodeError>
    ensures read { Gives (λ made. (made.tag, made.checkpoint)) result (saved bytes.now) }
    ensures memory { IsErrOf result DecodeError.NoMemory → AreFrame bytes.now }
{
    let frame = open_frame(bytes)?;
    let checkpoint = body_of(alloc, frame.body)?;
    let tag = frame.tag;
    Ok(Decoded { checkpoint, tag })
}

/// Reads a checkpoint from all of the body of a frame.
fn body_of(alloc: Global, bytes: &[u8]) -> Result<Checkpoint, DecodeError>
    ensures { Gives (λ made. made) result (whole (checkpoint_at bytes.now)) }
{
    let (checkpoint, rest) = checkpoint_at(alloc, bytes)?;
    if !rest.is_empty() {
        return Err(DecodeError::Fault(WireFault::Trailing));
    }
    Ok(checkpoint)
}

/// Reads a checkpoint, and returns the bytes after it.
#[tactic(auto, unfolding(hlc_body::specs::Reading::checkpoint_at))]
fn checkpoint_at(alloc: Global, bytes: &[u8]) -> Result<(Checkpoint, &[u8]), DecodeError>
    ensures { Gives (λ x. (x.0, x.1.now)) result (checkpoint_at bytes.now) }
{
    let (preamble, rest) = preamble_at(alloc, bytes)?;
    let (rows, rest) = rows_at(alloc, preamble.count(), rest)?;
    Ok((preamble.with_rows(rows), rest))
}
