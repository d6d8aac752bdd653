//! The bytes of two checkpoints, joined into those of one.
ghost use Rattle.std.specs.Prelude.{◌≡◌, IfOk, IfErr};
ghost use Rattle.hlc_split_calls.specs.Halves.{AreJoined, IsNotJoined};

use crate::bytes::{read, written};
use hlc_saved::Decoded;
use hlc_split::merge;
use std::alloc::Global;

/// Joins the bytes of two checkpoints, of which the left one has the lower keys, with the tag of the left one. Returns
/// the bytes; or 106 and the number of the first fault of the left bytes, or else of the right ones; or 113 and the
/// number of the first reason why both are not joined; or 107 and the number of the first reason why what both make is
/// no checkpoint; or 15.
pub fn joined(alloc: Global, left: &[u8], right: &[u8], word: &mut u64) -> Result<Box<Vec<u8>>, u32>
    ensures ok { IfOk result (λ bytes. AreJoined left.now right.now bytes.value.items) }
    ensures nothing { IfOk result (λ _. word.new ≡ 0) }
    ensures err { IfErr result (λ code. IsNotJoined left.now right.now code word.new) }
{
    let Decoded {
        checkpoint: lower,
        tag: own,
    } = read(alloc, left, word)?;
    let Decoded {
        checkpoint: upper,
        tag: _,
    } = read(alloc, right, word)?;
    *word = 0;
    let made = match merge(lower, upper) {
        Ok(Ok(made)) => made,
        Ok(Err(fault)) => {
            *word = fault.code() as u64;
            return Err(113);
        }
        Err(_) => return Err(15),
    };
    let bytes = match written(alloc, &made, own, word) {
        Ok(bytes) => bytes,
        Err(code) => return Err(code),
    };
    *word = 0;
    Ok(bytes)
}
