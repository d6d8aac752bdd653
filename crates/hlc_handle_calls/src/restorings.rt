//! A restore from bytes that come in pieces of any size.
ghost use Rattle.std.specs.Prelude.{List, ℕ};
ghost use Rattle.hlc_core.specs.Past.{Step};
ghost use Rattle.hlc_saved.specs.Saved.{BytesRepresent};
ghost use Rattle.hlc_handle_calls.specs.Opening.{RestoresPast};
ghost use Rattle.hlc_handle_calls.specs.Restorings.{HasStarted, HasFed, HasReadAll, HasFinished};

use hlc_calls::checkpoints::answered;
use hlc_handle::{Restoring, Slot, Store, opened};
use hlc_saved::CheckpointReader;
use std::alloc::Global;

/// Starts a restore. Returns 0; or 119 where one is under way, which goes on; or 15.
pub fn start(alloc: Global, restoring: &mut Restoring) -> u32
    ensures { HasStarted restoring.old.value restoring.new.value result }
{
    if let Some(reader) = restoring.take(alloc) {
        restoring.put(reader);
        return 119;
    }
    match Box::new(alloc, CheckpointReader::new(alloc)) {
        Ok(reader) => {
            restoring.put(reader);
            0
        }
        Err(_) => 15,
    }
}

/// Adds the next bytes of a checkpoint. Returns 0; or 118 where no restore is under way; or 15, and nothing was added.
pub fn feed(alloc: Global, restoring: &mut Restoring, bytes: &[u8]) -> u32
    ensures { HasFed restoring.old.value restoring.new.value bytes.now result }
{
    match restoring.take(alloc) {
        None => 118,
        Some(taken) => {
            let mut reader = taken;
            let fed = reader.feed(bytes);
            restoring.put(reader);
            match fed {
                Ok(()) => 0,
                Err(_) => 15,
            }
        }
    }
}

/// Ends a restore, and opens a closed store from all its bytes, as `opening::restore` does; or returns 118 where none
/// is under way; or 101 for an open store, which stays unchanged, and the restore goes on.
pub fn finish(alloc: Global, restoring: &mut Restoring, store: &mut Store, word: &mut u64) -> u32
    ensures answer { HasFinished restoring.old.value restoring.new.value
        store.old.value store.new.value result word.new }
    ensures represents { (fed : List ℕ) (saved : ℕ) (past : List Step) → HasReadAll restoring.old.value fed
        → BytesRepresent fed saved past → RestoresPast store.old.value store.new.value saved past result word.new }
{
    *word = 0;
    let Some(reader) = restoring.take(alloc) else {
        return 118;
    };
    if let Some(handle) = store.take(alloc) {
        store.put(handle);
        restoring.put(reader);
        return 101;
    }
    let made = answered(Box::into_inner(reader).finish(), word);
    opened(alloc, store, made, word)
}
