//! The small callers in the READMEs of `hlc_wire`, `hlc_frame`, `hlc_body`, `hlc_saved` and `hlc_log`, and a message
//! compared with bytes that were written by hand.
ghost use Rattle.std.specs.Prelude.{◌≡◌, ◌⊎◌, ◌++◌, ◌<◌, List, ℕ, IfOk, IfSome, OnOk, IsErrOf};
ghost use Rattle.hlc_frame.specs.{Frame.frame_bytes, Reading.tag_of};
ghost use Rattle.hlc_core.specs.{Past.Step, StoreView.Represents};
ghost use Rattle.hlc_witness.specs.Cost.{IsInLimits};
ghost use Rattle.hlc_body.specs.Spelling.{row_bytes};
ghost use Rattle.hlc_saved.specs.Saved.{BytesRepresent, Resumes};
ghost use Rattle.hlc_log.specs.{declared.record.Record.Record as ARecord, Log.log_bytes, Log.with_records};

use hlc_body::{Row, RowRef, append_row};
use hlc_clock::Stamp;
use hlc_core::Core;
use hlc_frame::{FrameReader, FrameWriter, WireFault};
use hlc_log::recover;
use hlc_saved::{CheckpointReader, ResumeError, Resumed};
use hlc_wire::{Message, decode_item, decode_message, encode_item, encode_message};
use std::alloc::{AllocError, Global};
use std::test::*;

/// Decodes the bytes as an item, and returns its encoding.
pub(crate) fn written_again(alloc: Global, bytes: &[u8]) -> Option<Vec<u8>>
    ensures { IfSome result (λ again. again.items ≡ bytes.now) }
{
    let item = decode_item(alloc, bytes).ok()?;
    encode_item(alloc, &item).ok()
}

/// Writes the frame of a body that is in memory.
pub(crate) fn put_frame(out: &mut Vec<u8>, tag: u64, body: &[u8]) -> Result<(), AllocError>
    ensures { OnOk result (out.new.items ≡ out.old.items ++ frame_bytes tag body.now) }
{
    let mut writer = FrameWriter::begin(out, body.len() as u64, tag)?;
    out.extend_from_slice(body)?;
    writer.put(body);
    writer.end(out)?;
    Ok(())
}

/// Returns the tag of a frame that comes in two blocks.
pub(crate) fn tag_of_two(first: &[u8], second: &[u8]) -> Result<u64, WireFault>
    ensures { result ≡ tag_of (first.now ++ second.now) }
{
    let mut reader = FrameReader::new();
    let _ = reader.feed(first);
    let _ = reader.feed(second);
    reader.finish()
}

/// Returns the bytes of a row.
pub(crate) fn row_bytes_of(alloc: Global, row: &Row) -> Result<Vec<u8>, AllocError>
    requires { IsInLimits row.now }
    ensures { IfOk result (λ bytes. bytes.items ≡ row_bytes row.now) }
{
    let mut out = Vec::new(alloc);
    append_row(&mut out, &mut Vec::new(alloc), &RowRef::of(row))?;
    Ok(out)
}

/// Returns a store made of bytes that come in two blocks.
pub(crate) fn resume_two(alloc: Global, first: &[u8], second: &[u8]) -> Result<Resumed, ResumeError>
    ensures { IsErrOf result ResumeError.NoMemory ⊎ Resumes (first.now ++ second.now) result }
{
    let mut reader = CheckpointReader::new(alloc);
    reader.feed(first)?;
    reader.feed(second)?;
    reader.finish()
}

/// Restores a store from a checkpoint and a log, if all of the log was applied.
pub(crate) fn restart(alloc: Global, checkpoint: &[u8], log: &[u8]) -> Option<Core>
    ensures { (tag : ℕ) (past : List Step) → BytesRepresent checkpoint.now tag past
        → IfSome result (λ core. (records : List ARecord) × (log.now ≡ log_bytes records)
        × Represents core (with_records records past)) }
{
    let Ok(made) = recover(alloc, checkpoint, log) else {
        return None;
    };
    match made.applied.end {
        Some(_) => None,
        None => Some(made.core),
    }
}

/// A message of node 263 at stamp 2.5.
const MESSAGE: [u8; 11] = [1, 1, 7, 0, 0, 0, 0, 0, 2, 0, 5];

#[test]
fn a_message_as_bytes(rt: HostRuntime) {
    let message = Message {
        from: 263,
        stamp: Stamp::from_bits(131_077),
    };
    let written = encode_message(rt.alloc(), &message).expect(&rt, "memory");
    assert_eq!(rt; written.as_slice(), MESSAGE.as_slice());
    assert_eq!(rt; decode_message(&MESSAGE), Ok(message));
}
