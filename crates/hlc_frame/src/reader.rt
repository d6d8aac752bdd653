//! A frame, read in blocks of any size.
ghost use Rattle.std.specs.Prelude.{◌≡◌, ◌++◌, List, ℕ, []};
ghost use Rattle.hlc_frame.specs.Opening.{front_at};
ghost use Rattle.hlc_frame.specs.Reading.{HasRead, GoesOn, body_so_far, tag_of};

use crate::front::{FRONT_BYTES, front_at};
use crate::rest::{RestReader, fill};
use arrayvec::ArrayVec;
use hlc_wire::WireFault;

/// A frame that is being read.
#[derive(Drop)]
pub struct FrameReader {
    front: ArrayVec<u8, FRONT_BYTES>,
    rest: Option<RestReader>,
}

impl FrameReader {
    /// Makes a reader that was fed nothing.
    #[tactic(auto, unfolding(crate::specs::Opening::front_at))]
    pub fn new() -> FrameReader
        ensures { HasRead result [] }
    {
        FrameReader {
            front: ArrayVec::new(),
            rest: None,
        }
    }

    /// Reads the next block, of any size, and returns the part of it that belongs to the body.
    ///
    /// For a block before or after the body, and for each block after a wrong version, that is no
    /// bytes. It needs no memory. The body is not verified until `finish` returns the tag.
    pub fn feed<'b>(&mut self, block: &'b [u8]) -> &'b [u8]
        ensures read { (fed : List ℕ) → HasRead self.old fed
            → HasRead self.new (fed ++ block.now) }
        ensures body { (fed : List ℕ) → HasRead self.old fed
            → body_so_far fed ++ result.now ≡ body_so_far (fed ++ block.now) }
    {
        let rest = fill(&mut self.front, block);
        if self.rest.is_none() {
            self.rest = rest_after(self.front.as_slice());
        }
        match &mut self.rest {
            None => &[],
            Some(reader) => reader.feed(rest),
        }
    }

    /// Ends the reading, and returns the tag of the frame or its first fault.
    ///
    /// Both are what `open_frame` would return for all the bytes that were fed.
    pub fn finish(self) -> Result<u64, WireFault>
        ensures { (fed : List ℕ) → HasRead self fed → result ≡ tag_of fed }
    {
        let FrameReader { front, rest } = self;
        let (found, _) = front_at(front.as_slice())?;
        match rest {
            None => Err(WireFault::Short),
            Some(reader) => reader.finish(found.tag),
        }
    }
}

/// Returns a reader of the bytes after a front, if there is a front.
fn rest_after(front: &[u8]) -> Option<RestReader>
    ensures { GoesOn (front_at front.now) result front.now [] }
{
    match front_at(front) {
        Err(_) => None,
        Ok((found, _)) => Some(RestReader::new(front, found.len)),
    }
}
