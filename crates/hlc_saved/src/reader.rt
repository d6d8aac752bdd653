//! A checkpoint that is read in blocks of any size.
ghost use Rattle.std.specs.Prelude.{◌++◌, [], List, ℕ, OnOk, OnErr};
ghost use Rattle.hlc_saved.specs.{Saved.Resumes, Blocks.HasRead};

use crate::fault::ResumeError;
use crate::parts::PartsReader;
use crate::saving::{Resumed, with_tag};
use hlc_frame::FrameReader;
use hlc_values::NoMemory;
use std::alloc::Global;

/// A checkpoint that is being read.
///
/// It keeps the table of the rows that were read, which becomes the store's; and of the bytes at most a block and the
/// incomplete part of a row, while it adds a block for a moment twice that. After a row that no checkpoint has it keeps
/// no rows. Until everything before the rows has come, each block reads that part again.
#[derive(Drop)]
pub struct CheckpointReader {
    frame: FrameReader,
    parts: PartsReader,
}

impl CheckpointReader {
    /// Makes a reader that was fed nothing.
    pub fn new(alloc: Global) -> CheckpointReader
        ensures { HasRead result [] }
    {
        CheckpointReader {
            frame: FrameReader::new(),
            parts: PartsReader::new(alloc),
        }
    }

    /// Adds the next block, of any size. If memory runs out, it was not added, and may be fed
    /// again.
    ///
    /// No fault is reported before `finish`: no block is verified before that.
    pub fn feed(&mut self, block: &[u8]) -> Result<(), NoMemory>
        ensures ok { (fed : List ℕ) → HasRead self.old fed
            → OnOk result (HasRead self.new (fed ++ block.now)) }
        ensures err { (fed : List ℕ) → HasRead self.old fed
            → OnErr result (HasRead self.new fed) }
    {
        self.parts.advance()?;
        self.parts.make_room(block.len())?;
        let piece = self.frame.feed(block);
        self.parts.take(piece)
    }

    /// Returns the store and the tag, or the first fault, as `resume` returns them for all that
    /// was fed.
    pub fn finish(self) -> Result<Resumed, ResumeError>
        ensures { (fed : List ℕ) → HasRead self fed → Resumes fed result }
    {
        let CheckpointReader { frame, parts } = self;
        let tag = match frame.finish() {
            Ok(tag) => tag,
            Err(fault) => return Err(ResumeError::Bytes(fault)),
        };
        with_tag(parts.finish(), tag)
    }
}
