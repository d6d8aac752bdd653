//! Vacuums to the floor (closed timestamp) and to a stamp, whole and in parts.
ghost use Rattle.std.specs.Prelude.{◌≡◌, ◌≢◌, List, false};
ghost use Rattle.hlc_vacuum.specs.Representing.{IsWithin};
ghost use Rattle.hlc_core.specs.{Past.Step, StoreView.Represents};
ghost use Rattle.hlc_calls.specs.Answers.{ReturnsVacuumedAtFloor, ReturnsVacuumedTo, ReturnsVacuumChecked, AreNumbers};
ghost use Rattle.hlc_calls.specs.Answers.{ReturnsVacuumedPart, ReturnsEnd};

use crate::codes::refuse;
use crate::outputs::{fill, narrow};
use hlc_core::{Bytes, Core, Numbers, Stamp};

/// Writes the numbers of a report: its floor, how many rows were kept, what they cost in bytes, and how many were
/// dropped.
fn put_numbers(
    numbers: Numbers,
    floor: &mut u64,
    kept: &mut u64,
    bytes: &mut u64,
    dropped: &mut u64,
)
    ensures { AreNumbers numbers floor.new kept.new bytes.new dropped.new }
{
    *floor = numbers.floor.bits();
    *kept = numbers.kept;
    *bytes = narrow(numbers.bytes);
    *dropped = narrow(numbers.dropped);
}

/// Vacuums. Returns 0, the floor, how many rows were kept, what they cost in bytes, and how many were dropped; or 15.
pub fn vacuum(
    core: &mut Core,
    floor: &mut u64,
    kept: &mut u64,
    bytes: &mut u64,
    dropped: &mut u64,
) -> u32
    ensures vacuumed { result ≡ 0 → (past : List Step) → Represents core.old past
        → ReturnsVacuumedAtFloor core.new past
        floor.new kept.new bytes.new dropped.new }
    ensures within { result ≡ 0 → IsWithin core.old.rows core.new.rows }
    ensures expected { result ≢ 0 → (result ≡ 15) × (core.new ≡ core.old) }
    ensures nothing { result ≢ 0
        → (floor.new ≡ 0) × (kept.new ≡ 0) × (bytes.new ≡ 0) × (dropped.new ≡ 0) }
{
    *floor = 0;
    *kept = 0;
    *bytes = 0;
    *dropped = 0;
    match core.vacuum_counted() {
        Ok(numbers) => {
            put_numbers(numbers, floor, kept, bytes, dropped);
            0
        }
        Err(_) => 15,
    }
}

/// Returns why a vacuum to a stamp would be refused, apart from out of memory: 0, or the refusal and its word.
#[tactic(auto, using(crate::proofs::Refusals::expected_returns, crate::proofs::Refusals::made_returns))]
pub fn check_vacuum(core: &Core, at: Stamp, returned: &mut u64) -> u32
    ensures { (past : List Step) → Represents core.now past
        → ReturnsVacuumChecked at past result returned.new }
{
    match core.check_vacuum(at) {
        Ok(()) => {
            *returned = 0;
            0
        }
        Err(fault) => refuse(&fault, returned),
    }
}

/// Vacuums to a stamp. Returns 0, the stamp, how many rows were kept, what they cost in bytes, and how many were
/// dropped; or 8, 9 or 15 and its word, and then changes nothing. It reads each key once at each point.
#[tactic(auto, using(crate::proofs::Refusals::refused_returns, crate::proofs::Refusals::made_returns))]
pub fn vacuum_to(
    core: &mut Core,
    at: Stamp,
    returned: &mut u64,
    kept: &mut u64,
    bytes: &mut u64,
    dropped: &mut u64,
) -> u32
    ensures answer { (past : List Step) → Represents core.old past
        → ReturnsVacuumedTo core.new at past result returned.new
        kept.new bytes.new dropped.new }
    ensures within { result ≡ 0 → IsWithin core.old.rows core.new.rows }
    ensures unchanged { result ≢ 0 → core.new ≡ core.old }
    ensures nothing { result ≢ 0 → (kept.new ≡ 0) × (bytes.new ≡ 0) × (dropped.new ≡ 0) }
{
    *kept = 0;
    *bytes = 0;
    *dropped = 0;
    match core.vacuum_to_counted(at) {
        Ok(numbers) => {
            put_numbers(numbers, returned, kept, bytes, dropped);
            0
        }
        Err(fault) => refuse(&fault, returned),
    }
}

/// Makes a part of a vacuum to a stamp, of the first keys above `after`, at most `limit` keys. Returns 0, the stamp,
/// the numbers of the part, the length of its last key and, where it fits, the key, and whether a key may be left above
/// it; or 8, 9 or 15 and its word, and then changes nothing.
pub fn vacuum_part(
    core: &mut Core,
    at: Stamp,
    after: &[u8],
    limit: usize,
    returned: &mut u64,
    kept: &mut u64,
    bytes: &mut u64,
    dropped: &mut u64,
    out: &mut [u8],
    len: &mut usize,
    more: &mut bool,
) -> u32
    ensures answer { (past : List Step) → Represents core.old past
        → ReturnsVacuumedPart core.old core.new at after.now limit past result returned.new
        kept.new bytes.new dropped.new len.new more.new out.old out.new }
    ensures within { result ≡ 0 → IsWithin core.old.rows core.new.rows }
    ensures unchanged { result ≢ 0 → core.new ≡ core.old }
    ensures nothing { result ≢ 0 → (kept.new ≡ 0) × (bytes.new ≡ 0) × (dropped.new ≡ 0)
        × (len.new ≡ 0) × (more.new ≡ false) × (out.new ≡ out.old) }
{
    *kept = 0;
    *bytes = 0;
    *dropped = 0;
    *len = 0;
    *more = false;
    match core.vacuum_part_counted(at, after, limit) {
        Ok((numbers, end)) => {
            put_numbers(numbers, returned, kept, bytes, dropped);
            put_end(&end, out, len, more);
            0
        }
        Err(fault) => refuse(&fault, returned),
    }
}

/// Writes where a part of a vacuum ended.
fn put_end(end: &Option<Bytes>, out: &mut [u8], len: &mut usize, more: &mut bool)
    ensures { ReturnsEnd end.now len.new more.new out.old out.new }
{
    *len = 0;
    *more = end.is_some();
    if let Some(key) = end {
        fill(key.as_slice(), out, len);
    }
}
