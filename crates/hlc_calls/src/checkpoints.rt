//! A store to the bytes of a checkpoint and back.
ghost use Rattle.std.specs.Prelude.{◌≡◌, List, ℕ, MatchResult, Ok, Err, IfOk, IfErr};
ghost use Rattle.hlc_core.specs.{Past.Step, StoreView.Represents};
ghost use Rattle.hlc_saved.specs.Saved.{AreOfStore, BytesRepresent};
ghost use Rattle.hlc_calls.specs.Saved.{IsRestored, IsNotRestored, resume_code, resume_word};

use hlc_core::Core;
use hlc_saved::{ResumeError, Resumed, resume, save};
use std::alloc::Global;

/// Saves a store with a tag of the caller's. Returns the bytes, or 15.
pub fn checkpoint(alloc: Global, core: &Core, tag: u64) -> Result<Box<Vec<u8>>, u32>
    ensures saved { IfOk result (λ bytes. AreOfStore bytes.value.items tag core.now) }
    ensures represents { IfOk result (λ bytes. (past : List Step) → Represents core.now past
        → BytesRepresent bytes.value.items tag past) }
    ensures shortage { IfErr result (λ code. code ≡ 15) }
{
    let Ok(bytes) = save(alloc, core, tag) else {
        return Err(15);
    };
    match Box::new(alloc, bytes) {
        Ok(boxed) => Ok(boxed),
        Err(_) => Err(15),
    }
}

/// Makes a store from bytes, and writes the tag with which they were saved. Returns the store; or 15; or 106 and the
/// number of the first fault of the bytes, or 107 and the number of the first reason why they are no checkpoint.
pub fn restore(alloc: Global, bytes: &[u8], word: &mut u64) -> Result<Core, u32>
    ensures made { MatchResult result (λ core. IsRestored bytes.now word.new core)
        (λ code. IsNotRestored bytes.now code word.new) }
    ensures represents { (saved : ℕ) (past : List Step) → BytesRepresent bytes.now saved past
        → MatchResult result (λ core. (word.new ≡ saved) × Represents core past)
        (λ code. code ≡ 15) }
{
    answered(resume(alloc, bytes), word)
}

/// Returns a store that was made from bytes, and writes its tag; or returns 15; or 106 and the number of the fault of
/// the bytes, or 107 and the number of the reason.
pub fn answered(resumed: Result<Resumed, ResumeError>, word: &mut u64) -> Result<Core, u32>
    ensures { MatchResult resumed (λ made. (result ≡ Ok made.core) × (word.new ≡ made.tag))
        (λ error. (result ≡ Err (resume_code error)) × (word.new ≡ resume_word error)) }
{
    *word = 0;
    match resumed {
        Ok(made) => {
            *word = made.tag;
            Ok(made.core)
        }
        Err(ResumeError::NoMemory) => Err(15),
        Err(ResumeError::Bytes(fault)) => {
            *word = fault.code() as u64;
            Err(106)
        }
        Err(ResumeError::Parts(fault)) => {
            *word = fault.code() as u64;
            Err(107)
        }
    }
}
