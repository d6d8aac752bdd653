//! The bytes of a checkpoint, divided at a key.
ghost use Rattle.std.specs.Prelude.{◌≡◌, IfOk, IfErr, is_some};
ghost use Rattle.hlc_split_calls.specs.{Halves.AreHalves, Halves.IsNotDivided, Outputs.OnOutputs};

use crate::bytes::{read, written};
use hlc_handle::{Output, Slot};
use hlc_saved::Decoded;
use hlc_split::split;
use std::alloc::Global;

/// Divides the bytes of a checkpoint at a key: those of the rows with lower keys, and those of the others, both with
/// the tag of the whole. Returns them; or 106 and the number of the first fault of the bytes; or 107 and the number of
/// the first reason why a half is no checkpoint; or 15.
pub fn halves(
    alloc: Global,
    bytes: &[u8],
    key: &[u8],
    word: &mut u64,
) -> Result<(Box<Vec<u8>>, Box<Vec<u8>>), u32>
    ensures ok { IfOk result (λ made. AreHalves bytes.now key.now made.0.value.items made.1.value.items) }
    ensures nothing { IfOk result (λ _. word.new ≡ 0) }
    ensures err { IfErr result (λ code. IsNotDivided bytes.now key.now code word.new) }
{
    let Decoded {
        checkpoint,
        tag: own,
    } = read(alloc, bytes, word)?;
    *word = 0;
    let Ok((below, rest)) = split(alloc, checkpoint, key) else {
        return Err(15);
    };
    let left = match written(alloc, &below, own, word) {
        Ok(left) => left,
        Err(code) => return Err(code),
    };
    let right = match written(alloc, &rest, own, word) {
        Ok(right) => right,
        Err(code) => return Err(code),
    };
    *word = 0;
    Ok((left, right))
}

/// Puts both halves into outputs that have no bytes, and how many they are into their lengths. Returns 0; or 108 where
/// an output has bytes, and nothing took place; or as `halves` does.
pub fn into_outputs(
    alloc: Global,
    bytes: &[u8],
    key: &[u8],
    left: &mut Output,
    right: &mut Output,
    left_len: &mut usize,
    right_len: &mut usize,
    word: &mut u64,
) -> u32
    ensures { OnOutputs left.old.value left.new.value right.old.value right.new.value result
        left_len.new right_len.new word.new (AreHalves bytes.now key.now)
        (IsNotDivided bytes.now key.now result word.new) }
{
    *left_len = 0;
    *right_len = 0;
    *word = 0;
    if has_bytes(alloc, left) {
        return 108;
    }
    if has_bytes(alloc, right) {
        return 108;
    }
    match halves(alloc, bytes, key, word) {
        Ok((below, rest)) => {
            *left_len = below.len();
            *right_len = rest.len();
            left.put(below);
            right.put(rest);
            0
        }
        Err(code) => code,
    }
}

/// Returns whether an output has bytes. It stays as it is.
fn has_bytes(alloc: Global, output: &mut Output) -> bool
    ensures value { result ≡ is_some output.old.value }
    ensures same { output.new.value ≡ output.old.value }
{
    match output.take(alloc) {
        None => false,
        Some(kept) => {
            output.put(kept);
            true
        }
    }
}
