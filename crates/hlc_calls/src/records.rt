//! The records of a log, as bytes.
ghost use Rattle.std.specs.Prelude.{◌≡◌, List, None};
ghost use Rattle.hlc_core.specs.{Past.Step, StoreView.Represents};
ghost use Rattle.hlc_log.specs.{declared.record.Record.Record as ARecord, Record.record_refusal, Record.record_seen};
ghost use Rattle.hlc_calls.specs.Records.{end_code, end_word, ReturnsApplied, ReturnsRecord};

use crate::codes::refuse;
use hlc_core::{Core, Stamp};
use hlc_log::{RecordFault, RecordRef, apply_records, put_record, record_size};

/// Applies the records of a log in turn, and passes over those that came before, until one is not applied. Returns 0,
/// or the answer for that one and its word; how many records were applied or passed over, how many bytes they have, and
/// the greatest threshold among them.
pub fn apply_all(
    core: &mut Core,
    bytes: &[u8],
    used: &mut usize,
    count: &mut usize,
    threshold: &mut u64,
    word: &mut u64,
) -> u32
    ensures { (past : List Step) → Represents core.old past → ReturnsApplied core.new bytes.now past
        result used.new count.new threshold.new word.new }
{
    let applied = apply_records(core, bytes, Stamp::ZERO);
    *used = applied.bytes;
    *count = applied.records;
    *threshold = applied.threshold.bits();
    end_of(applied.end, word)
}

/// Returns the answer at the end of a log, and writes its word.
fn end_of(end: Option<RecordFault>, word: &mut u64) -> u32
    ensures { (result ≡ end_code end) × (word.new ≡ end_word end) }
{
    *word = 0;
    match end {
        None => 0,
        Some(RecordFault::Bytes(fault)) => {
            *word = fault.code() as u64;
            106
        }
        Some(RecordFault::Refused(fault)) => refuse(&fault, word),
    }
}

/// Writes a record as bytes. Returns 0, the length of the bytes and, where they fit, the bytes.
fn put(entry: &RecordRef<'_>, out: &mut [u8], len: &mut usize) -> u32
    requires { record_refusal (record_seen entry.now) ≡ None }
    ensures { ReturnsRecord (record_seen entry.now) result len.new out.old out.new }
{
    match record_size(entry) {
        Ok(size) => *len = size,
        Err(_) => unreachable!(),
    }
    put_record(entry, out);
    0
}

/// Writes the join of a node at a start as bytes.
pub fn put_join(node: u16, start: Stamp, out: &mut [u8], len: &mut usize) -> u32
    ensures { ReturnsRecord (ARecord.Join node start) result len.new out.old out.new }
{
    put(&RecordRef::Join { node, start }, out, len)
}

/// Writes a threshold as bytes.
pub fn put_threshold(at: Stamp, out: &mut [u8], len: &mut usize) -> u32
    ensures { ReturnsRecord (ARecord.Threshold at) result len.new out.old out.new }
{
    put(&RecordRef::Threshold(at), out, len)
}
