//! What a store is saved as, and stores that are made of that.
ghost use Rattle.std.specs.Prelude.{◌<◌};

use crate::lines::next_bytes;
use crate::play::say;
use crate::stored::Stored;
use hlc_core::{Checkpoint, Core};
use hlc_frame::FrameWriter;
use hlc_saved::{
    CheckpointReader, NoMemory, ResumeError, Resumed, StoreWriter, copy_by_bytes,
    decode_checkpoint, encode_checkpoint, resume, save,
};
use hlc_text::words::LineWords;
use std::alloc::AllocError;

/// A checkpoint of a store, and bytes.
#[derive(Default, Drop)]
pub(crate) struct Saved {
    pub(crate) checkpoint: Option<Checkpoint>,
    bytes: Option<Vec<u8>>,
}

impl Saved {
    /// Holds a checkpoint.
    pub(crate) fn hold(&mut self, rt: &HostRuntime, made: Option<Checkpoint>) -> Option<()> {
        self.checkpoint = Some(made?);
        say(rt, "checkpoint", &self.checkpoint.as_ref()?.rows().len())
    }

    /// Prints why the checkpoint is none.
    pub(crate) fn fault(&self, rt: &HostRuntime) -> Option<()> {
        say(rt, "fault", &self.checkpoint.as_ref()?.fault())
    }

    /// Holds the bytes of a store, and prints them.
    pub(crate) fn save(&mut self, rt: &HostRuntime, core: &Core, tag: u64) -> Option<()> {
        self.bytes = save(rt.alloc(), core, tag).ok();
        say_bytes(rt, "saved", self.bytes.as_ref()?.as_slice())
    }

    /// Holds the bytes of the checkpoint.
    pub(crate) fn encode(&mut self, rt: &HostRuntime, tag: u64) -> Option<()> {
        let made = encode_checkpoint(rt.alloc(), self.checkpoint.as_ref()?, tag);
        self.bytes = made.ok().and_then(|made| made.ok());
        say(rt, "encoded", &self.bytes.as_ref()?.len())
    }

    /// Reads the bytes, and holds the checkpoint in them in place of the one before.
    pub(crate) fn decode(&mut self, rt: &HostRuntime) -> Option<()> {
        self.checkpoint = None;
        let decoded = decode_checkpoint(rt.alloc(), self.bytes.as_ref()?.as_slice()).ok()?;
        self.hold(rt, Some(decoded.checkpoint))
    }

    /// Hashes the bytes.
    pub(crate) fn digest(&self, rt: &HostRuntime) -> Option<()> {
        digest(&mut Vec::new(rt.alloc()), self.bytes.as_ref()?.as_slice()).ok()
    }
}

/// Prints a line of this name and of bytes in hexadecimal digits. Returns none where memory runs out.
pub(crate) fn say_bytes(rt: &HostRuntime, name: &str, bytes: &[u8]) -> Option<()> {
    let text = hex::encode(rt.alloc(), bytes).ok()?;
    let _ = println!(rt; "{name} {text}");
    Some(())
}

/// Appends an empty frame's front and the digest of these bytes.
fn digest(out: &mut Vec<u8>, bytes: &[u8]) -> Result<(), AllocError> {
    let mut writer = FrameWriter::begin(out, 0, 0)?;
    writer.put(bytes);
    writer.end(out)
}

impl Stored {
    /// Holds the bytes of a line, and puts a store in place of this one, made of them.
    pub(crate) fn load(&mut self, rt: &HostRuntime, words: &mut LineWords<'_>) -> Option<()> {
        self.saved.bytes = Some(next_bytes(rt.alloc(), words)?);
        self.resume(rt)
    }

    /// Puts a store in place of this one, made of the bytes that are held.
    pub(crate) fn resume(&mut self, rt: &HostRuntime) -> Option<()> {
        let made = resume(rt.alloc(), self.saved.bytes.as_ref()?.as_slice());
        self.replace(rt, made)
    }

    /// Puts a store in place of this one, made of pieces: they are written from the store, and read in blocks of at
    /// most this size.
    pub(crate) fn move_in_pieces(&mut self, rt: &HostRuntime, tag: u64, size: u64) -> Option<()> {
        let core = self.core.as_ref()?;
        let mut reader = CheckpointReader::new(rt.alloc());
        write_store(rt, &mut reader, core, tag, (size as usize).max(1)).ok()?;
        self.replace(rt, reader.finish())
    }

    /// Puts a store in place of this one, made of copies of what is in the checkpoint.
    pub(crate) fn restore(&mut self, rt: &HostRuntime) -> Option<()> {
        let checkpoint = self.saved.checkpoint.as_ref()?;
        self.core = Some(Core::restore(rt.alloc(), checkpoint).ok()?.ok()?);
        say(rt, "restored", &())
    }

    /// Puts a store in place of this one, made of the checkpoint itself.
    pub(crate) fn move_in_checkpoint(&mut self, rt: &HostRuntime) -> Option<()> {
        let checkpoint = self.saved.checkpoint.take()?;
        self.core = Some(Core::from_checkpoint(rt.alloc(), checkpoint).ok()?.ok()?);
        say(rt, "restored", &())
    }

    /// Puts a store in place of this one, a copy made of its bytes.
    pub(crate) fn copy(&mut self, rt: &HostRuntime) -> Option<()> {
        self.core = Some(copy_by_bytes(rt.alloc(), self.core.as_ref()?).ok()?);
        say(rt, "copied", &())
    }

    /// Replaces the store by the one that was made of bytes, and prints the tag with it; or prints why none was made.
    fn replace(&mut self, rt: &HostRuntime, made: Result<Resumed, ResumeError>) -> Option<()> {
        match made {
            Ok(made) => {
                self.core = Some(made.core);
                say(rt, "resumed", &made.tag)
            }
            Err(ResumeError::NoMemory) => None,
            Err(error) => say(rt, "refused", &error),
        }
    }
}

/// Writes a store leaf by leaf, and feeds a reader what was written whenever that is a block or more.
fn write_store(
    rt: &HostRuntime,
    reader: &mut CheckpointReader,
    core: &Core,
    tag: u64,
    size: usize,
) -> Result<(), NoMemory>
    requires { 0 < size }
{
    let mut out = Vec::new(rt.alloc());
    let mut writer = StoreWriter::begin(&mut out, core, tag)?;
    for _ in 0..writer.left() {
        writer.more(&mut out)?;
        if out.len() >= size {
            feed_all(rt, reader, &mut out, size);
        }
    }
    writer.end(&mut out)?;
    feed_all(rt, reader, &mut out, size);
    Ok(())
}

/// Feeds bytes in blocks of at most this size, and drops them. A block is fed once more where memory runs out.
fn feed_all(rt: &HostRuntime, reader: &mut CheckpointReader, out: &mut Vec<u8>, size: usize)
    requires { 0 < size }
{
    for block in out.as_slice().chunks(size) {
        if reader.feed(block).is_err() {
            let _ = println!(rt; "no memory");
            let _ = reader.feed(block);
        }
    }
    out.clear();
}
