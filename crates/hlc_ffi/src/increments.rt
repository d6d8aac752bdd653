//! The calls that make increments of checkpoints, and apply them.
ghost use Rattle.std.specs.Prelude.{◌≡◌, ◌≢◌, ℕ, ◌++◌, List, IfSome};
ghost use Rattle.hlc_core.specs.{Past.Step, StoreView.StoreView, StoreView.Represents};
ghost use Rattle.hlc_saved.specs.Saved.{AreOf, BytesRepresent};
ghost use Rattle.hlc_increment.specs.Increment.{IncrementView, IsIncrementOf, without_drops};
ghost use Rattle.hlc_increment.specs.Bytes.{IncrementFits, increment_bytes};
ghost use Rattle.hlc_ffi.specs.{Handle.OnReader, Handle.IsGivenBack, Outputs.OnOutput};
ghost use Rattle.hlc_increment_calls.specs.Increments.{AreAdvanced, AreIncrementOf, IsNotAdvanced, IsRefusedIncrement};

use crate::handle::{into_output, of_core};
use hlc_core::Stamp;
use hlc_handle::{Output, Reader, Slot};
use hlc_increment_calls::apply::apply;
use hlc_increment_calls::increment::increment;
use std::alloc::Global;

/// Saves the state of a store with the rows above a stamp, and a tag of the caller's, as bytes in an output. Returns 0
/// and how many they are; or 108, 9 and the horizon (GC threshold), or 15.
#[unsafe(no_mangle)]
pub extern "C" fn hlc_increment_make(
    alloc: Global,
    store: &mut Reader,
    since: u64,
    tag: u64,
    output: &mut Output,
    len: &mut usize,
    horizon: &mut u64,
) -> u32
    ensures saved { OnReader store.old.room.value ((result ≡ 100) × (horizon.new ≡ 0)) (λ core.
        OnOutput output.old.value output.new.value result len.new (horizon.new ≡ 0)
        (λ bytes. (horizon.new ≡ 0) × AreIncrementOf bytes tag since core)
        (IsRefusedIncrement core since result horizon.new)) }
    ensures nothing { result ≢ 0 → (len.new ≡ 0) × (output.new.value ≡ output.old.value) }
    ensures same { IsGivenBack store.old.room store.new.room }
{
    let since = Stamp::from_bits(since);
    of_core!(store, [len, horizon], |core| {
        into_output!(
            alloc,
            output,
            len,
            increment(alloc, core, since, tag, horizon)
        )
    })
}

/// Makes the bytes of the checkpoint that an older one becomes by an increment. Returns 0, or 108, or as `apply` does.
/// The older one may be made by an increment too (`chained`), and nothing goes back (`back`).
#[unsafe(no_mangle)]
pub extern "C" fn hlc_increment_apply(
    alloc: Global,
    older: &[u8],
    bytes: &[u8],
    output: &mut Output,
    len: &mut usize,
    word: &mut u64,
) -> u32
    ensures answer { OnOutput output.old.value output.new.value result len.new (word.new ≡ 0)
        (λ made. (word.new ≡ 0) × AreAdvanced older.now bytes.now made)
        (IsNotAdvanced older.now bytes.now result word.new) }
    ensures chained { result ≡ 0 → (before after : ℕ) (kept newer : StoreView) (read : IncrementView)
        (past mid more : List Step) → AreOf older.now before kept → Represents kept (without_drops mid ++ past)
        → bytes.now ≡ increment_bytes after read → IncrementFits after read → IsIncrementOf newer read
        → Represents newer (more ++ (mid ++ past)) → IfSome output.new.value (λ made.
        BytesRepresent made.items after (without_drops more ++ (without_drops mid ++ past))) }
    ensures back { result ≡ 0 → (before after : ℕ) (kept earlier : StoreView) (read : IncrementView)
        (past mid more : List Step) → AreOf older.now before kept
        → Represents kept (more ++ (without_drops mid ++ past)) → bytes.now ≡ increment_bytes after read
        → IncrementFits after read → IsIncrementOf earlier read → Represents earlier (mid ++ past)
        → IfSome output.new.value (λ made.
        BytesRepresent made.items after (more ++ (without_drops mid ++ past))) }
    ensures nothing { result ≢ 0 → (len.new ≡ 0) × (output.new.value ≡ output.old.value) }
{
    *len = 0;
    *word = 0;
    into_output!(alloc, output, len, apply(alloc, older, bytes, word))
}
