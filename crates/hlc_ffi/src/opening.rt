//! A store that is opened, with its nodes or from the bytes of a checkpoint, and closed.
ghost use Rattle.std.specs.Prelude.{◌≡◌, None, List, ℕ};
ghost use Rattle.hlc_core.specs.Past.{Step};
ghost use Rattle.hlc_saved.specs.Saved.{BytesRepresent};
ghost use Rattle.hlc_handle_calls.specs.Opening.{IsOpening, IsRestoring, RestoresPast};

use hlc_handle::{Slot, Store};
use hlc_handle_calls::opening::{open, restore};
use std::alloc::Global;

/// Opens a closed store of 1 to 64 nodes. Returns 0, 114, 15, or 101 for an open store, which stays unchanged.
#[unsafe(no_mangle)]
pub extern "C" fn hlc_store_open(alloc: Global, store: &mut Store, count: u16) -> u32
    ensures { IsOpening store.old.value store.new.value count result }
{
    open(alloc, store, count)
}

/// Closes a store, and frees what it contains. A closed one stays closed.
#[unsafe(no_mangle)]
pub extern "C" fn hlc_store_close(alloc: Global, store: &mut Store)
    ensures { store.new.value ≡ None }
{
    let _ = store.take(alloc);
}

/// Opens a closed store from the bytes of `hlc_checkpoint_make`. Returns 0 and their tag; or 101 for an open store,
/// which stays as it is; or 106 and the first fault of the bytes, 107 and the first reason against their content, or
/// 15.
#[unsafe(no_mangle)]
pub extern "C" fn hlc_store_restore(
    alloc: Global,
    store: &mut Store,
    bytes: &[u8],
    word: &mut u64,
) -> u32
    ensures answer { IsRestoring store.old.value store.new.value bytes.now result word.new }
    ensures represents { (saved : ℕ) (past : List Step) → BytesRepresent bytes.now saved past
        → RestoresPast store.old.value store.new.value saved past result word.new }
{
    restore(alloc, store, bytes, word)
}
