//! The bytes after the front of a frame, read in blocks.
ghost use Rattle.std.specs.Prelude.{◌≡◌, ◌-◌, ◌++◌, ℕ, List, [], length, take, drop};
ghost use Rattle.hlc_frame.specs.Reading.{HasReadRest, tag_after};

use crate::digest::is_digest;
use crate::front::DIGEST_BYTES;
use arrayvec::ArrayVec;
use hlc_wire::WireFault;
use sha2::{Digest, Sha256};

/// A reader of the bytes after a front.
#[derive(Drop)]
pub struct RestReader {
    hasher: Sha256,
    left: u64,
    digest: ArrayVec<u8, DIGEST_BYTES>,
    more: bool,
}

impl RestReader {
    /// Makes a reader that has read nothing after this front, which promises a body of `len` bytes.
    pub fn new(front: &[u8], len: u64) -> RestReader
        ensures { HasReadRest result front.now len [] }
    {
        let mut hasher = Sha256::new();
        hasher.update(front);
        RestReader {
            hasher,
            left: len,
            digest: ArrayVec::new(),
            more: false,
        }
    }

    /// Reads the next block, and returns the part of it that belongs to the body.
    pub fn feed<'b>(&mut self, block: &'b [u8]) -> &'b [u8]
        ensures read { (front : List ℕ) (len : ℕ) (bytes : List ℕ)
            → HasReadRest self.old front len bytes
            → HasReadRest self.new front len (bytes ++ block.now) }
        ensures body { (front : List ℕ) (len : ℕ) (bytes : List ℕ)
            → HasReadRest self.old front len bytes
            → take len bytes ++ result.now ≡ take len (bytes ++ block.now) }
    {
        let (body, rest) = cut(self.left, block);
        self.hasher.update(body);
        self.left -= body.len() as u64;
        let rest = fill(&mut self.digest, rest);
        self.more = self.more || !rest.is_empty();
        body
    }

    /// Returns the tag if the bytes are the body, its digest, and nothing more.
    #[tactic(auto, unfolding(crate::specs::Opening::sealed_at))]
    pub fn finish(self, tag: u64) -> Result<u64, WireFault>
        ensures { (front : List ℕ) (len : ℕ) (bytes : List ℕ) → HasReadRest self front len bytes
            → result ≡ tag_after tag front len bytes }
    {
        let RestReader {
            hasher,
            left,
            digest,
            more,
        } = self;
        let found = digest.as_slice();
        if left > 0 || found.len() < DIGEST_BYTES {
            return Err(WireFault::Short);
        }
        if !is_digest(hasher, found) {
            return Err(WireFault::Damaged);
        }
        if more {
            return Err(WireFault::Trailing);
        }
        Ok(tag)
    }
}

/// Fills a buffer from a block as far as there is room, and returns the remaining bytes.
pub fn fill<'b, const N: usize>(buffer: &mut ArrayVec<u8, N>, block: &'b [u8]) -> &'b [u8]
    ensures buffer { buffer.new.items ≡ take N (buffer.old.items ++ block.now) }
    ensures rest { result.now ≡ drop (N - length buffer.old.items) block.now }
{
    let room = buffer.remaining_capacity();
    let (front, rest) = cut(room as u64, block);
    let _ = buffer.try_extend_from_slice(front);
    rest
}

/// Splits the bytes after the first `count`, or after all if there are fewer.
pub fn cut(count: u64, bytes: &[u8]) -> (&[u8], &[u8])
    ensures front { result.0.now ≡ take count bytes.now }
    ensures back { result.1.now ≡ drop count bytes.now }
{
    if bytes.len() as u64 <= count {
        bytes.split_at(bytes.len())
    } else {
        bytes.split_at(count as usize)
    }
}
