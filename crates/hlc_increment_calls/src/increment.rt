//! An increment of a store as bytes.
ghost use Rattle.std.specs.Prelude.{◌≡◌, IfOk, IfErr};
ghost use Rattle.hlc_increment.specs.Faults.{increment_code, increment_word};
ghost use Rattle.hlc_increment_calls.specs.Increments.{AreIncrementOf, IsRefusedIncrement};

use hlc_core::{Core, Stamp};
use hlc_increment::{Increment, IncrementFault, encode_increment};
use std::alloc::Global;

/// Writes the word of a refusal, and returns its number.
fn refuse(fault: &IncrementFault, word: &mut u64) -> u32
    ensures number { result ≡ increment_code fault.now }
    ensures word { word.new ≡ increment_word fault.now }
{
    *word = fault.word();
    fault.code()
}

/// Saves an increment of a store since a stamp, with a tag of the caller's. Returns the bytes; or 9, and writes the
/// horizon; or 15.
pub fn increment(
    alloc: Global,
    core: &Core,
    since: Stamp,
    tag: u64,
    horizon: &mut u64,
) -> Result<Box<Vec<u8>>, u32>
    ensures saved { IfOk result (λ bytes. AreIncrementOf bytes.value.items tag since core.now) }
    ensures nothing { IfOk result (λ _. horizon.new ≡ 0) }
    ensures err { IfErr result (λ code. IsRefusedIncrement core.now since code horizon.new) }
{
    *horizon = 0;
    let increment = match Increment::of(core, since) {
        Ok(increment) => increment,
        Err(fault) => return Err(refuse(&fault, horizon)),
    };
    let Ok(Ok(bytes)) = encode_increment(alloc, &increment, tag) else {
        return Err(15);
    };
    match Box::new(alloc, bytes) {
        Ok(boxed) => Ok(boxed),
        Err(_) => Err(15),
    }
}
