//! The bytes of an older checkpoint, which become those of a newer one by an increment.
ghost use Rattle.std.specs.Prelude.{◌≡◌, ◌++◌, ℕ, List, IfOk, IfErr, OnOk, MatchResult};
ghost use Rattle.hlc_core.specs.{Past.Step, StoreView.StoreView, StoreView.Represents};
ghost use Rattle.hlc_saved.specs.Saved.{AreOf, BytesRepresent};
ghost use Rattle.hlc_increment.specs.Increment.{IncrementView, AreFitting, IsAdvanced, IsIncrementOf, without_drops};
ghost use Rattle.hlc_increment.specs.Faults.{advance_code, advance_word};
ghost use Rattle.hlc_increment.specs.Bytes.{IncrementFits, increment_bytes};
ghost use Rattle.hlc_increment_calls.specs.Increments.{AreAdvanced, IsNotAdvanced, IsRead, IsReadIncrement, IsNotRead};
ghost use Rattle.hlc_increment_calls.specs.Increments.{IsNotReadIncrement, IsNotJoined};

use hlc_core::Checkpoint;
use hlc_increment::{AdvanceFault, DecodedIncrement, Increment, advance, decode_increment};
use hlc_saved::{decode_checkpoint, encode_checkpoint};
use hlc_wire::DecodeError;
use std::alloc::Global;

/// Reads the older checkpoint. Returns it; or 106 and the number of the first fault of its bytes, or 15.
fn read_older(alloc: Global, bytes: &[u8], word: &mut u64) -> Result<Checkpoint, u32>
    ensures { MatchResult result (IsRead bytes.now)
        (λ code. IsNotRead bytes.now code word.new) }
{
    *word = 0;
    match decode_checkpoint(alloc, bytes) {
        Ok(made) => Ok(made.checkpoint),
        Err(DecodeError::Fault(fault)) => {
            *word = fault.code() as u64;
            Err(106)
        }
        Err(DecodeError::NoMemory) => Err(15),
    }
}

/// Reads the increment. Returns it and its tag; or 110 and the number of the first fault of its bytes, or 15.
fn read_increment(alloc: Global, bytes: &[u8], word: &mut u64) -> Result<DecodedIncrement, u32>
    ensures { MatchResult result (λ made. IsReadIncrement bytes.now made.tag made.increment)
        (λ code. IsNotReadIncrement bytes.now code word.new) }
{
    *word = 0;
    match decode_increment(alloc, bytes) {
        Ok(made) => Ok(made),
        Err(DecodeError::Fault(fault)) => {
            *word = fault.code() as u64;
            Err(110)
        }
        Err(DecodeError::NoMemory) => Err(15),
    }
}

/// Writes the word of a refusal, and returns its number.
fn refuse(fault: &AdvanceFault, word: &mut u64) -> u32
    ensures number { result ≡ advance_code fault.now }
    ensures word { word.new ≡ advance_word fault.now }
{
    *word = fault.word();
    fault.code()
}

/// Joins both. Returns the newer checkpoint; or 107 and the number of the reason, 111, 8 and the floor, 110, or 15.
fn joined(older: Checkpoint, increment: Increment, word: &mut u64) -> Result<Checkpoint, u32>
    ensures ok { IfOk result (IsAdvanced older increment) }
    ensures fitting { OnOk result (AreFitting older increment) }
    ensures represents { (past more : List Step) (newer : StoreView) → Represents older past
        → Represents newer (more ++ past) → IsIncrementOf newer increment
        → IfOk result (λ made. Represents made (without_drops more ++ past)) }
    ensures chained { (past mid more : List Step) (newer : StoreView)
        → Represents older (without_drops mid ++ past) → Represents newer (more ++ (mid ++ past))
        → IsIncrementOf newer increment
        → IfOk result (λ made. Represents made (without_drops more ++ (without_drops mid ++ past))) }
    ensures back { (past mid more : List Step) (earlier : StoreView)
        → Represents older (more ++ (without_drops mid ++ past)) → Represents earlier (mid ++ past)
        → IsIncrementOf earlier increment
        → IfOk result (λ made. Represents made (more ++ (without_drops mid ++ past))) }
    ensures err { IfErr result (λ code. IsNotJoined older increment code word.new) }
{
    *word = 0;
    match advance(older, increment) {
        Ok(Ok(made)) => Ok(made),
        Ok(Err(fault)) => Err(refuse(&fault, word)),
        Err(_) => Err(15),
    }
}

/// Makes the bytes of a newer checkpoint of those of an older one and of an increment, with the tag of the increment.
/// Returns them; or, in this order: 106, the older bytes are no encoding, and the number of their first fault; 110, the
/// increment is none, and the number; 107, one of both is no checkpoint, and the number of the reason; 111, the
/// increment is of an earlier state, or of another store; 8, its stamp is above the floor of the older checkpoint, and
/// that; 110, its stamp does not fit its rows and horizon; 15.
pub fn apply(
    alloc: Global,
    older: &[u8],
    increment: &[u8],
    word: &mut u64,
) -> Result<Box<Vec<u8>>, u32>
    ensures advanced { IfOk result
        (λ bytes. AreAdvanced older.now increment.now bytes.value.items) }
    ensures nothing { IfOk result (λ _. word.new ≡ 0) }
    ensures represents { (before after : ℕ) (kept newer : StoreView) (read : IncrementView)
        (past more : List Step) → AreOf older.now before kept → Represents kept past
        → increment.now ≡ increment_bytes after read → IncrementFits after read
        → IsIncrementOf newer read → Represents newer (more ++ past)
        → IfOk result (λ bytes. BytesRepresent bytes.value.items after (without_drops more ++ past)) }
    ensures chained { (before after : ℕ) (kept newer : StoreView) (read : IncrementView)
        (past mid more : List Step) → AreOf older.now before kept
        → Represents kept (without_drops mid ++ past) → increment.now ≡ increment_bytes after read
        → IncrementFits after read → IsIncrementOf newer read → Represents newer (more ++ (mid ++ past))
        → IfOk result (λ bytes. BytesRepresent bytes.value.items after
        (without_drops more ++ (without_drops mid ++ past))) }
    ensures back { (before after : ℕ) (kept earlier : StoreView) (read : IncrementView)
        (past mid more : List Step) → AreOf older.now before kept
        → Represents kept (more ++ (without_drops mid ++ past)) → increment.now ≡ increment_bytes after read
        → IncrementFits after read → IsIncrementOf earlier read → Represents earlier (mid ++ past)
        → IfOk result (λ bytes. BytesRepresent bytes.value.items after
        (more ++ (without_drops mid ++ past))) }
    ensures err { IfErr result (λ code. IsNotAdvanced older.now increment.now code word.new) }
{
    let kept = read_older(alloc, older, word)?;
    let DecodedIncrement {
        increment: read,
        tag: after,
    } = read_increment(alloc, increment, word)?;
    let made = joined(kept, read, word)?;
    *word = 0;
    let bytes = match encode_checkpoint(alloc, &made, after) {
        Ok(Ok(bytes)) => bytes,
        Ok(Err(_)) => return Err(111),
        Err(_) => return Err(15),
    };
    match Box::new(alloc, bytes) {
        Ok(boxed) => Ok(boxed),
        Err(_) => Err(15),
    }
}
