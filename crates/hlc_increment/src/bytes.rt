//! An increment as bytes.
ghost use Rattle.std.specs.Prelude.{◌≡◌, ◌∷◌, ℕ, List, IfOk, IfErr, OnOk, OnErr, IsErrOf, Ok};
ghost use Rattle.hlc_frame.specs.Frame.{frame_bytes, FrameFits};
ghost use Rattle.hlc_wire.specs.Reading.{Gives};
ghost use Rattle.hlc_core.specs.Checkpoint.{IsCheckpoint, IsFirstReason};
ghost use Rattle.hlc_increment.specs.{Increment.IncrementView, Bytes.IncrementFits, Bytes.AreFrames, Bytes.content_at};
ghost use Rattle.hlc_increment.specs.{Bytes.increment_at, Bytes.increment_bytes, Bytes.state_at};
ghost use Rattle.hlc_saved.specs.Saved.{AreFrame};

use crate::increment::Increment;
use hlc_core::{RestoreFault, Stamp};
use hlc_frame::{FrameWriter, open_frame};
use hlc_saved::{Decoded, decode_checkpoint, encode_checkpoint};
use hlc_values::NoMemory;
use hlc_wire::{DecodeError, WireFault};
use std::alloc::Global;

/// An increment that was read from bytes.
#[derive(Debug, Drop)]
pub struct DecodedIncrement {
    pub increment: Increment,
    /// The tag that it was saved with.
    pub tag: u64,
}

/// Returns the one encoding of an increment and a tag of the caller's: for example, the position in its log up to
/// which the store has applied it.
///
/// Refused for the first reason why the state is no checkpoint; memory, for twice the bytes, is needed only after the
/// check.
pub fn encode_increment(
    alloc: Global,
    increment: &Increment,
    tag: u64,
) -> Result<Result<Vec<u8>, RestoreFault>, NoMemory>
    ensures sound { IfOk result (λ made. OnOk made (IsCheckpoint increment.now.state)) }
    ensures fits { IfOk result (λ made. OnOk made (IncrementFits tag increment.now)) }
    ensures spelled { IfOk result
        (λ made. IfOk made (λ bytes. bytes.items ≡ increment_bytes tag increment.now)) }
    ensures err { IfOk result (λ made. IfErr made (IsFirstReason increment.now.state)) }
    ensures memory { OnErr result (IsCheckpoint increment.now.state) }
{
    let since = increment.since().bits();
    let state = match encode_checkpoint(alloc, increment.state(), since)? {
        Ok(state) => state,
        Err(fault) => return Ok(Err(fault)),
    };
    let content = content_of(alloc, state.as_slice())?;
    Ok(Ok(framed(alloc, content.as_slice(), tag)?))
}

/// Returns the bytes of a state, after the byte with which no checkpoint begins.
fn content_of(alloc: Global, state: &[u8]) -> Result<Vec<u8>, NoMemory>
    ensures { IfOk result (λ content. content.items ≡ 1 ∷ state.now) }
{
    let mut content = Vec::new(alloc);
    content.push(1)?;
    content.extend_from_slice(state)?;
    Ok(content)
}

/// Returns a frame with this body.
fn framed(alloc: Global, body: &[u8], tag: u64) -> Result<Vec<u8>, NoMemory>
    ensures frame { IfOk result (λ bytes. bytes.items ≡ frame_bytes tag body.now) }
    ensures fits { FrameFits tag body.now }
{
    let mut out = Vec::new(alloc);
    let mut frame = FrameWriter::begin(&mut out, body.len() as u64, tag)?;
    out.extend_from_slice(body)?;
    frame.put(body);
    frame.end(&mut out)?;
    Ok(out)
}

/// Reads the increment and the tag from their encoding, which is all of the bytes.
///
/// The frame is checked first, then the first byte of its body, `Kind` where it is not 1; then the state, as by
/// `decode_checkpoint`: memory runs out only where both frames are whole. `advance` checks what it says.
pub fn decode_increment(alloc: Global, bytes: &[u8]) -> Result<DecodedIncrement, DecodeError>
    ensures found { IfOk result (λ made. IncrementFits made.tag made.increment
        × (bytes.now ≡ increment_bytes made.tag made.increment)) }
    ensures only { (tag : ℕ) (increment : IncrementView) → IncrementFits tag increment
        → bytes.now ≡ increment_bytes tag increment
        → Gives {Y = ℕ × IncrementView} (λ made. (made.tag, made.increment)) result
        (Ok (tag, increment)) }
    ensures exact { Gives (λ made. (made.tag, made.increment)) result (increment_at bytes.now) }
    ensures memory { IsErrOf result DecodeError.NoMemory → AreFrames bytes.now }
{
    all(alloc, bytes)
}

/// Reads an increment and a tag from all of the bytes.
fn all(alloc: Global, bytes: &[u8]) -> Result<DecodedIncrement, DecodeError>
    ensures read { Gives (λ made. (made.tag, made.increment)) result (increment_at bytes.now) }
    ensures memory { IsErrOf result DecodeError.NoMemory → AreFrames bytes.now }
{
    let frame = open_frame(bytes)?;
    let increment = content_at(alloc, frame.body)?;
    let tag = frame.tag;
    Ok(DecodedIncrement { increment, tag })
}

/// Reads an increment from all of the body of a frame.
#[tactic(auto, unfolding(crate::specs::Bytes::content_at))]
fn content_at(alloc: Global, body: &[u8]) -> Result<Increment, DecodeError>
    ensures read { Gives (λ made. made) result (content_at body.now) }
    ensures memory { IsErrOf result DecodeError.NoMemory
        → (state : List ℕ) × (body.now ≡ 1 ∷ state) × AreFrame state }
{
    match body {
        [] => Err(DecodeError::Fault(WireFault::Short)),
        [1, state @ ..] => state_at(alloc, state),
        [_, ..] => Err(DecodeError::Fault(WireFault::Kind)),
    }
}

/// Reads the state and the stamp of an increment.
#[tactic(auto, unfolding(crate::specs::Bytes::state_at))]
fn state_at(alloc: Global, bytes: &[u8]) -> Result<Increment, DecodeError>
    ensures read { Gives (λ made. made) result (state_at bytes.now) }
    ensures memory { IsErrOf result DecodeError.NoMemory → AreFrame bytes.now }
{
    let Decoded { checkpoint, tag } = decode_checkpoint(alloc, bytes)?;
    Ok(Increment::from_parts(Stamp::from_bits(tag), checkpoint))
}
