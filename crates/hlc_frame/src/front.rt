//! The front of a frame.
ghost use Rattle.std.specs.Prelude.{◌≡◌};
ghost use Rattle.hlc_wire.specs.Reading.{Reads};
ghost use Rattle.hlc_frame.specs.{Frame.front_bytes, Opening.front_at};

use hlc_wire::{WireFault, u32_at, u64_at};

/// The version of the library's formats.
const FORMAT_VERSION: u32 = 1;

/// The number of bytes before the body.
pub const FRONT_BYTES: usize = 20;

/// The number of bytes after the body.
pub const DIGEST_BYTES: usize = 32;

/// The content of a front.
#[derive(Clone, Copy)]
pub struct Front {
    /// The length of the body in bytes.
    pub len: u64,
    /// The caller's tag.
    pub tag: u64,
}

/// Reads the front at the start of some bytes, and returns it with the bytes after it; or `Short` without four bytes,
/// then `Version`, then `Short`.
#[tactic(auto, unfolding(crate::specs::Opening::front_at))]
pub fn front_at(bytes: &[u8]) -> Result<(Front, &[u8]), WireFault>
    ensures { Reads (λ x. (x.0, x.1.now)) result (front_at bytes.now) }
{
    let (version, rest) = u32_at(bytes)?;
    if version != FORMAT_VERSION {
        return Err(WireFault::Version);
    }
    let (len, rest) = u64_at(rest)?;
    let (tag, rest) = u64_at(rest)?;
    Ok((Front { len, tag }, rest))
}

/// Returns the bytes of a front.
#[tactic(auto, unfolding(crate::specs::Frame::front_bytes))]
pub fn front_of(len: u64, tag: u64) -> [u8; FRONT_BYTES]
    ensures { result ≡ front_bytes len tag }
{
    let v = FORMAT_VERSION.to_be_bytes();
    let l = len.to_be_bytes();
    let w = tag.to_be_bytes();
    [
        v[0], v[1], v[2], v[3], l[0], l[1], l[2], l[3], l[4], l[5], l[6], l[7], w[0], w[1], w[2],
        w[3], w[4], w[5], w[6], w[7],
    ]
}
