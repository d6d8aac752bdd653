//! A store from a checkpoint and a log.
ghost use Rattle.std.specs.Prelude.{◌≡◌, ℕ, List, IfOk, IfErr, MatchResult};
ghost use Rattle.hlc_core.specs.Past.{Step};
ghost use Rattle.hlc_saved.specs.Saved.{BytesRepresent, SpellNone};
ghost use Rattle.hlc_saved.specs.declared.fault.ResumeError.TheVariants.{NoMemory as no_memory};
ghost use Rattle.hlc_log.specs.{Log.AreApplied, Recovery.IsRecovered};

use crate::apply::{Applied, apply_records};
use hlc_core::{Core, Stamp};
use hlc_saved::{ResumeError, Resumed, resume};
use std::alloc::Global;

/// A store that was made from a checkpoint and a log.
#[derive(Drop)]
pub struct Recovered {
    pub core: Core,
    /// The tag that the checkpoint was saved with.
    pub tag: u64,
    /// How far the records of the log were applied.
    pub applied: Applied,
}

/// Makes a store from the bytes of a checkpoint, and applies the records of a log to it: from its first record, or from
/// any other that is not after the place of the checkpoint.
///
/// Records before that place are passed over (`a_log_may_be_read_again`). Refused as by `resume`; where a record is not
/// applied, the store has those before it, and `applied.end` says why.
pub fn recover(alloc: Global, checkpoint: &[u8], log: &[u8]) -> Result<Recovered, ResumeError>
    ensures represents { (tag : ℕ) (past : List Step) → BytesRepresent checkpoint.now tag past
        → MatchResult result (λ made. (made.tag ≡ tag)
        × AreApplied made.core log.now past 0 made.applied)
        (λ error. error ≡ no_memory) }
    ensures sound { IfOk result (IsRecovered checkpoint.now log.now) }
    ensures err { IfErr result (SpellNone checkpoint.now) }
{
    let Resumed { core, tag } = match resume(alloc, checkpoint) {
        Ok(made) => made,
        Err(error) => return Err(error),
    };
    let mut core = core;
    let applied = apply_records(&mut core, log, Stamp::ZERO);
    Ok(Recovered { core, tag, applied })
}
