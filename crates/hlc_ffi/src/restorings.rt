//! A restore from bytes that come in pieces of any size.
ghost use Rattle.std.specs.Prelude.{◌≡◌, ℕ, List, None};
ghost use Rattle.hlc_core.specs.Past.{Step};
ghost use Rattle.hlc_saved.specs.Saved.{BytesRepresent};
ghost use Rattle.hlc_handle_calls.specs.Opening.{RestoresPast};
ghost use Rattle.hlc_handle_calls.specs.Restorings.{HasStarted, HasFed, HasReadAll, HasFinished};

use hlc_handle::{Restoring, Slot, Store};
use hlc_handle_calls::restorings::{feed, finish, start};
use std::alloc::Global;

/// Starts a restore. Returns 0; or 119 where one is under way, which goes on; or 15.
#[unsafe(no_mangle)]
pub extern "C" fn hlc_restoring_start(alloc: Global, restoring: &mut Restoring) -> u32
    ensures { HasStarted restoring.old.value restoring.new.value result }
{
    start(alloc, restoring)
}

/// Adds the next bytes of a checkpoint. Returns 0; or 118 where no restore is under way; or 15, and nothing was added.
#[unsafe(no_mangle)]
pub extern "C" fn hlc_restoring_feed(alloc: Global, restoring: &mut Restoring, bytes: &[u8]) -> u32
    ensures { HasFed restoring.old.value restoring.new.value bytes.now result }
{
    feed(alloc, restoring, bytes)
}

/// Ends a restore as `hlc_store_restore` of all its bytes; or returns 118 for none under way; or 101, and it goes on.
#[unsafe(no_mangle)]
pub extern "C" fn hlc_restoring_finish(
    alloc: Global,
    restoring: &mut Restoring,
    store: &mut Store,
    word: &mut u64,
) -> u32
    ensures answer { HasFinished restoring.old.value restoring.new.value
        store.old.value store.new.value result word.new }
    ensures represents { (fed : List ℕ) (saved : ℕ) (past : List Step) → HasReadAll restoring.old.value fed
        → BytesRepresent fed saved past → RestoresPast store.old.value store.new.value saved past result word.new }
{
    finish(alloc, restoring, store, word)
}

/// Ends a restore, and frees what it has read.
#[unsafe(no_mangle)]
pub extern "C" fn hlc_restoring_drop(alloc: Global, restoring: &mut Restoring)
    ensures { restoring.new.value ≡ None }
{
    let _ = restoring.take(alloc);
}
