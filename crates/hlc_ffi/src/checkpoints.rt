//! The calls that save a store as the bytes of a checkpoint, and divide and join such bytes.
ghost use Rattle.std.specs.Prelude.{◌≡◌, ◌≢◌, ⊤, List};
ghost use Rattle.hlc_core.specs.{Past.Step, StoreView.Represents};
ghost use Rattle.hlc_saved.specs.Saved.{AreOfStore, BytesRepresent};
ghost use Rattle.hlc_ffi.specs.{Handle.OnReader, Handle.IsGivenBack, Outputs.OnOutput};
ghost use Rattle.hlc_split_calls.specs.Halves.{AreHalves, AreJoined, IsNotDivided, IsNotJoined};
ghost use Rattle.hlc_split_calls.specs.Outputs.{OnOutputs};

use crate::handle::{into_output, of_core};
use hlc_calls::checkpoints::checkpoint;
use hlc_handle::{Output, Reader, Slot};
use hlc_split_calls::merge::joined;
use hlc_split_calls::split::into_outputs;
use std::alloc::Global;

/// Saves a store and a tag of the caller's as bytes in an output. Returns 0 and how many they are; or 108, or 15.
#[unsafe(no_mangle)]
pub extern "C" fn hlc_checkpoint_make(
    alloc: Global,
    store: &mut Reader,
    tag: u64,
    output: &mut Output,
    len: &mut usize,
) -> u32
    ensures saved { OnReader store.old.room.value (result ≡ 100) (λ core. OnOutput output.old.value output.new.value
        result len.new ⊤ (λ bytes. AreOfStore bytes tag core) (result ≡ 15)) }
    ensures represents { OnReader store.old.room.value (result ≡ 100) (λ core.
        OnOutput output.old.value output.new.value result len.new ⊤
        (λ bytes. (past : List Step) → Represents core past → BytesRepresent bytes tag past) (result ≡ 15)) }
    ensures nothing { result ≢ 0 → (len.new ≡ 0) × (output.new.value ≡ output.old.value) }
    ensures same { IsGivenBack store.old.room store.new.room }
{
    *len = 0;
    of_core!(
        store,
        |core| into_output!(alloc, output, len, checkpoint(alloc, core, tag))
    )
}

/// Divides the bytes of a checkpoint at a key into two outputs. Returns 0, or 108, or as `halves` does.
#[unsafe(no_mangle)]
pub extern "C" fn hlc_checkpoint_split(
    alloc: Global,
    bytes: &[u8],
    key: &[u8],
    left: &mut Output,
    right: &mut Output,
    left_len: &mut usize,
    right_len: &mut usize,
    word: &mut u64,
) -> u32
    ensures { OnOutputs left.old.value left.new.value right.old.value right.new.value result left_len.new
        right_len.new word.new (AreHalves bytes.now key.now) (IsNotDivided bytes.now key.now result word.new) }
{
    into_outputs(alloc, bytes, key, left, right, left_len, right_len, word)
}

/// Joins the bytes of two checkpoints into those of one. Returns 0, or 108, or as `joined` does.
#[unsafe(no_mangle)]
pub extern "C" fn hlc_checkpoint_merge(
    alloc: Global,
    left: &[u8],
    right: &[u8],
    output: &mut Output,
    len: &mut usize,
    word: &mut u64,
) -> u32
    ensures answer { OnOutput output.old.value output.new.value result len.new (word.new ≡ 0)
        (λ bytes. (word.new ≡ 0) × AreJoined left.now right.now bytes)
        (IsNotJoined left.now right.now result word.new) }
    ensures nothing { result ≢ 0 → (len.new ≡ 0) × (output.new.value ≡ output.old.value) }
{
    *len = 0;
    *word = 0;
    into_output!(alloc, output, len, joined(alloc, left, right, word))
}
