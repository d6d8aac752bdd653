//! A frame in one block.
ghost use Rattle.std.specs.Prelude.{◌≡◌, ℕ, List, IfOk, Ok};
ghost use Rattle.hlc_wire.specs.Reading.{Reads};
ghost use Rattle.hlc_frame.specs.Frame.{frame_bytes, FrameFits};
ghost use Rattle.hlc_frame.specs.Opening.{frame_at, opened, sealed_at};

use crate::digest::has_digest;
use crate::front::{DIGEST_BYTES, FRONT_BYTES, front_at};
use crate::rest::cut;
use hlc_wire::{WireFault, slice_at};

/// The content of a frame.
#[derive(Clone, Copy)]
pub struct Opened<'a> {
    /// The caller's tag.
    pub tag: u64,
    /// The body.
    pub body: &'a [u8],
}

/// Opens the frame that is all of the bytes.
///
/// The first fault from the left is returned: `Short` if a field passes the end, `Version`,
/// `Damaged`, or `Trailing` if bytes follow the digest. It needs no memory, and hashes the bytes
/// once.
pub fn open_frame(bytes: &[u8]) -> Result<Opened<'_>, WireFault>
    // The bytes are the encoding of the frame that is read.
    ensures found { IfOk result (λ frame. FrameFits frame.tag frame.body.now
        × (bytes.now ≡ frame_bytes frame.tag frame.body.now)) }
    // The encoding of a frame is read.
    ensures only { (tag : ℕ) (body : List ℕ) → FrameFits tag body
        → bytes.now ≡ frame_bytes tag body
        → Reads {Y = ℕ × List ℕ} (λ frame. (frame.tag, frame.body.now)) result
        (Ok (tag, body)) }
    // The fault is exactly this one.
    ensures exact { Reads (λ frame. (frame.tag, frame.body.now)) result (opened bytes.now) }
{
    all(bytes)
}

/// Opens a frame that is all of the bytes.
fn all(bytes: &[u8]) -> Result<Opened<'_>, WireFault>
    ensures { Reads (λ frame. (frame.tag, frame.body.now)) result (opened bytes.now) }
{
    let (frame, rest) = frame_at(bytes)?;
    if !rest.is_empty() {
        return Err(WireFault::Trailing);
    }
    Ok(frame)
}

/// Opens the frame at the start of some bytes, and returns it with the bytes after it.
#[tactic(auto, unfolding(crate::specs::Opening::frame_at))]
fn frame_at(bytes: &[u8]) -> Result<(Opened<'_>, &[u8]), WireFault>
    ensures { Reads (λ x. ((x.0.tag, x.0.body.now), x.1.now)) result (frame_at bytes.now) }
{
    let (front, rest) = front_at(bytes)?;
    let (start, _) = cut(FRONT_BYTES as u64, bytes);
    let (body, rest) = sealed_at(start, front.len, rest)?;
    Ok((
        Opened {
            tag: front.tag,
            body,
        },
        rest,
    ))
}

/// Returns the body of this length after this front, and the bytes after its digest.
#[tactic(auto, unfolding(crate::specs::Opening::sealed_at))]
fn sealed_at<'a>(front: &[u8], len: u64, bytes: &'a [u8]) -> Result<(&'a [u8], &'a [u8]), WireFault>
    ensures { Reads (λ x. (x.0.now, x.1.now)) result (sealed_at front.now len bytes.now) }
{
    let (body, rest) = slice_at(len as usize, bytes)?;
    let (digest, rest) = slice_at(DIGEST_BYTES, rest)?;
    if !has_digest(front, body, digest) {
        return Err(WireFault::Damaged);
    }
    Ok((body, rest))
}
