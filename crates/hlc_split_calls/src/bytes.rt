//! A checkpoint of bytes, and bytes of a checkpoint.
ghost use Rattle.std.specs.Prelude.{IfOk, IfErr, MatchResult};
ghost use Rattle.hlc_saved.specs.Saved.{AreOf};
ghost use Rattle.hlc_split_calls.specs.Halves.{IsNoCheckpoint, IsNotRead, IsRead};

use hlc_core::Checkpoint;
use hlc_saved::{Decoded, decode_checkpoint, encode_checkpoint};
use hlc_wire::DecodeError;
use std::alloc::Global;

/// Reads a checkpoint and its tag. Returns them; or 106 and the number of the first fault of the bytes, or 15.
pub(crate) fn read(alloc: Global, bytes: &[u8], word: &mut u64) -> Result<Decoded, u32>
    ensures { MatchResult result (λ made. IsRead bytes.now made.tag made.checkpoint)
        (λ code. IsNotRead bytes.now code word.new) }
{
    *word = 0;
    match decode_checkpoint(alloc, bytes) {
        Ok(made) => Ok(made),
        Err(DecodeError::Fault(fault)) => {
            *word = fault.code() as u64;
            Err(106)
        }
        Err(DecodeError::NoMemory) => Err(15),
    }
}

/// Writes a checkpoint with a tag of its own. Returns the bytes; or 107 and the number of the first reason why it is
/// no checkpoint, or 15.
pub(crate) fn written(
    alloc: Global,
    checkpoint: &Checkpoint,
    own: u64,
    word: &mut u64,
) -> Result<Box<Vec<u8>>, u32>
    ensures ok { IfOk result (λ bytes. AreOf bytes.value.items own checkpoint.now) }
    ensures err { IfErr result (λ code. IsNoCheckpoint checkpoint.now code word.new) }
{
    *word = 0;
    let bytes = match encode_checkpoint(alloc, checkpoint, own) {
        Ok(Ok(bytes)) => bytes,
        Ok(Err(fault)) => {
            *word = fault.code() as u64;
            return Err(107);
        }
        Err(_) => return Err(15),
    };
    match Box::new(alloc, bytes) {
        Ok(boxed) => Ok(boxed),
        Err(_) => Err(15),
    }
}
