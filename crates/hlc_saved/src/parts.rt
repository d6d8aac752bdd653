//! The body of a checkpoint, read in blocks.
ghost use Rattle.std.specs.Prelude.{◌≡◌, ◌<◌, ◌≤◌, ◌+◌, ◌++◌, [], OnOk, OnErr, length, drop, vec_len, vec_capacity};
ghost use Rattle.hlc_wire.specs.Reading.{whole};
ghost use Rattle.hlc_body.specs.Reading.{checkpoint_at};
ghost use Rattle.hlc_saved.specs.{Saved.Ends, Blocks.Reader, Blocks.PartsLeave, Blocks.IsStuck};

use crate::bytes::bytes_from;
use crate::fault::ResumeError;
use crate::stage::{Advanced, Stage, advance, finish};
use hlc_core::Core;
use hlc_values::NoMemory;
use std::alloc::Global;
use std::mem;

/// The result so far, and the pending bytes: those from `at` on are not read yet.
#[derive(Drop)]
pub struct PartsReader {
    alloc: Global,
    stage: Stage,
    pending: Vec<u8>,
    at: usize,
}

impl PartsReader {
    /// Makes a reader that has read nothing.
    pub fn new(alloc: Global) -> PartsReader
        ensures { PartsLeave result checkpoint_at }
    {
        PartsReader {
            alloc,
            stage: Stage::Start,
            pending: Vec::new(alloc),
            at: 0,
        }
    }

    /// Reads as far as the pending bytes go. If memory runs out, it has read less far.
    pub fn advance(&mut self) -> Result<(), NoMemory>
        ensures same { (read : Reader) → PartsLeave self.old read → PartsLeave self.new read }
        ensures stuck { OnOk result
            (IsStuck self.new.stage (drop self.new.at self.new.pending.items)) }
    {
        let stage = mem::replace(&mut self.stage, Stage::Start);
        let Advanced { stage, rest, end } = advance(
            self.alloc,
            stage,
            bytes_from(self.pending.as_slice(), self.at),
        );
        self.at = self.pending.len() - rest.len();
        self.stage = stage;
        end
    }

    /// Makes room for `count` bytes, and drops those that were read. All that can be read was read before, so that no
    /// more than the incomplete part of a row is kept.
    pub fn make_room(&mut self, count: usize) -> Result<(), NoMemory>
        requires { IsStuck self.old.stage (drop self.old.at self.old.pending.items) }
        ensures same { (read : Reader) → PartsLeave self.old read → PartsLeave self.new read }
        ensures room { OnOk result
            (vec_len self.new.pending + count ≤ vec_capacity self.new.pending) }
        ensures start { OnOk result (self.new.at ≡ 0) }
    {
        let left = bytes_from(self.pending.as_slice(), self.at);
        let mut kept = Vec::with_capacity(self.alloc, left.len().saturating_add(count))?;
        kept.extend_from_slice(left)?;
        kept.reserve(count)?;
        self.pending = kept;
        self.at = 0;
        Ok(())
    }

    /// Adds the next bytes, after room was made.
    pub fn take(&mut self, bytes: &[u8]) -> Result<(), NoMemory>
        requires { self.old.at ≡ 0 }
        ensures ok { (read : Reader) → PartsLeave self.old read
            → OnOk result (PartsLeave self.new (λ more. read (bytes.now ++ more))) }
        ensures full { OnErr result
            (vec_capacity self.old.pending < vec_len self.old.pending + length bytes.now) }
    {
        self.pending.extend_from_slice(bytes)
    }

    /// Returns the store, after all bytes were added.
    pub fn finish(self) -> Result<Core, ResumeError>
        ensures { (read : Reader) → PartsLeave self read → Ends (whole (read [])) result }
    {
        let PartsReader {
            alloc,
            stage,
            pending,
            at,
        } = self;
        finish(alloc, stage, bytes_from(pending.as_slice(), at))
    }
}
