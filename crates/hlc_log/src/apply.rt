//! What a store makes of the records of a log.
ghost use Rattle.std.specs.Prelude.{◌≡◌, ◌<◌, ◌++◌, ◌∷◌, [], List, length, false, IfOk, OnOk, OnErr, MatchResult};
ghost use Rattle.hlc_core.specs.{Past.Step, Calls.IsRefusal, StoreView.Represents};
ghost use Rattle.hlc_log.specs.declared.record.Record.{Record as ARecord};
ghost use Rattle.hlc_log.specs.Record.{record_bytes, record_seen, RecordFits};
ghost use Rattle.hlc_log.specs.Log.{came_before, with_record, greatest_threshold, record_refusal, MayGrow, Applies};
ghost use Rattle.hlc_log.specs.Log.{IsStopped, AreApplied};

use crate::record::{RecordRef, record_ref_at};
use hlc_core::{Core, CoreFault, ItemRef, LinkFault, Stamp};
use hlc_wire::WireFault;

/// Why a record was not applied.
#[derive(Clone, Copy, PartialEq, Eq, Debug)]
pub enum RecordFault {
    /// The bytes are not those of a record.
    Bytes(WireFault),
    /// The store refuses the record. Out of memory is `CoreFault::NoMemory`; a join whose node is not the next one is
    /// `LinkFault::NotNext` with the number that is next.
    Refused(CoreFault),
}

/// How far records were applied.
#[derive(Clone, Copy, PartialEq, Eq, Debug)]
pub struct Applied {
    /// The number of records that were applied, or that came before and were passed over.
    pub records: usize,
    /// The number of their bytes.
    pub bytes: usize,
    /// The greatest threshold among them, or the one that was passed in.
    pub threshold: Stamp,
    /// Why the next record was not applied; none at the end of the bytes.
    pub end: Option<RecordFault>,
}

/// Applies the records of a log in turn, and passes over those that came before, until one is not applied.
///
/// Items are accepted, and nodes join at their starts. A threshold changes nothing here: its stamp is returned, and the
/// caller may vacuum to it. `threshold` is the greatest one so far, or 0.0. The store has what was applied, whatever
/// stopped it. It takes no memory but what the store grows by.
pub fn apply_records(core: &mut Core, bytes: &[u8], threshold: Stamp) -> Applied
    ensures represents { (past : List Step) → Represents core.old past
        → AreApplied core.new bytes.now past threshold result }
    ensures none { result.records ≡ 0 → core.new ≡ core.old }
{
    let mut rest = bytes;
    let mut records = 0usize;
    let mut greatest = threshold;
    while !rest.is_empty() {
        match apply_front(core, rest, &mut greatest) {
            Ok(after) => {
                rest = after;
                records += 1;
            }
            Err(fault) => {
                return Applied {
                    records,
                    bytes: bytes.len() - rest.len(),
                    threshold: greatest,
                    end: Some(fault),
                };
            }
        }
    }
    Applied {
        records,
        bytes: bytes.len(),
        threshold: greatest,
        end: None,
    }
}

/// Applies the record at the front of the bytes, unless it came before, and raises the greatest threshold by it.
/// Returns the bytes after it, or why it was not applied.
fn apply_front<'a>(
    core: &mut Core,
    bytes: &'a [u8],
    greatest: &mut Stamp,
) -> Result<&'a [u8], RecordFault>
    ensures represents { (past : List Step) → Represents core.old past → MatchResult result
        (λ rest. (entry : ARecord) × RecordFits entry × (bytes.now ≡ record_bytes entry ++ rest.now)
        × (greatest.new ≡ greatest_threshold greatest.old (entry ∷ []))
        × Represents core.new (with_record entry past))
        (IsStopped bytes.now past) }
    ensures shorter { IfOk result (λ rest. length rest.now < length bytes.now) }
    ensures unchanged { OnErr result ((core.new ≡ core.old) × (greatest.new ≡ greatest.old)) }
{
    let (entry, rest) = match record_ref_at(bytes) {
        Ok(found) => found,
        Err(fault) => return Err(RecordFault::Bytes(fault)),
    };
    match enter(core, &entry, greatest) {
        Ok(()) => Ok(rest),
        Err(fault) => Err(RecordFault::Refused(fault)),
    }
}

/// Applies a record, unless it came before, and raises the greatest threshold by it.
fn enter(core: &mut Core, entry: &RecordRef<'_>, greatest: &mut Stamp) -> Result<(), CoreFault>
    ensures represents { (past : List Step) → Represents core.old past → MatchResult result
        (λ _. Represents core.new (with_record (record_seen entry.now) past))
        (λ fault. (came_before past (record_seen entry.now) ≡ false)
        × IsRefusal (record_refusal past (record_seen entry.now))
        (MayGrow (record_seen entry.now)) fault) }
    ensures raised { OnOk result
        (greatest.new ≡ greatest_threshold greatest.old (record_seen entry.now ∷ [])) }
    ensures unchanged { OnErr result ((core.new ≡ core.old) × (greatest.new ≡ greatest.old)) }
{
    if !came(core, entry) {
        if let Err(fault) = apply(core, entry) {
            return Err(fault);
        }
    }
    *greatest = raised(*greatest, entry);
    Ok(())
}

/// Returns whether a record came before.
fn came(core: &Core, entry: &RecordRef<'_>) -> bool
    ensures { (past : List Step) → Represents core.now past
        → result ≡ came_before past (record_seen entry.now) }
{
    match entry {
        RecordRef::Item(item) => match core.count(item.node()) {
            Ok(next) => item.number() < next,
            Err(_) => false,
        },
        RecordRef::Join { node, start: _ } => (*node as usize) < core.links().len(),
        RecordRef::Threshold(_) => false,
    }
}

/// Applies a record that did not come before.
fn apply(core: &mut Core, entry: &RecordRef<'_>) -> Result<(), CoreFault>
    ensures represents { (past : List Step) → Represents core.old past
        → Applies core.new (record_seen entry.now) past result }
    ensures unchanged { OnErr result (core.new ≡ core.old) }
{
    match entry {
        RecordRef::Item(item) => accept(core, item),
        RecordRef::Join { node, start } => join(core, *node, *start),
        RecordRef::Threshold(_) => Ok(()),
    }
}

/// Accepts an item.
fn accept(core: &mut Core, item: &ItemRef<'_>) -> Result<(), CoreFault>
    ensures represents { (past : List Step) → Represents core.old past
        → Applies core.new (ARecord.Item item.now) past result }
    ensures unchanged { OnErr result (core.new ≡ core.old) }
{
    match core.accept_ref(item) {
        Ok(_) => Ok(()),
        Err(fault) => Err(fault),
    }
}

/// Lets a node of this number join, if it is the next one.
fn join(core: &mut Core, node: u16, start: Stamp) -> Result<(), CoreFault>
    ensures represents { (past : List Step) → Represents core.old past
        → Applies core.new (ARecord.Join node start) past result }
    ensures unchanged { OnErr result (core.new ≡ core.old) }
{
    let next = core.links().len();
    if node as usize != next {
        return Err(CoreFault::Link(LinkFault::NotNext { next: next as u64 }));
    }
    core.join_at(start)?;
    Ok(())
}

/// Returns the greatest threshold, after one more record.
fn raised(greatest: Stamp, entry: &RecordRef<'_>) -> Stamp
    ensures { result ≡ greatest_threshold greatest (record_seen entry.now ∷ []) }
{
    match entry {
        RecordRef::Threshold(at) => greatest.max(*at),
        _ => greatest,
    }
}
