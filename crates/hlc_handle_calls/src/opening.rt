//! A store that is opened, with its nodes or from the bytes of a checkpoint.
ghost use Rattle.std.specs.Prelude.{List, ℕ};
ghost use Rattle.hlc_core.specs.Past.{Step};
ghost use Rattle.hlc_saved.specs.Saved.{BytesRepresent};
ghost use Rattle.hlc_handle_calls.specs.Opening.{IsOpening, IsRestoring, RestoresPast};

use hlc_calls::checkpoints;
use hlc_core::{Core, CoreFault};
use hlc_handle::{Slot, Store, opened};
use std::alloc::Global;

/// Opens a closed store of 1 to 64 nodes. Returns 0; or 101 for an open store, which stays unchanged; or 114 for
/// another number of nodes; or 15.
pub fn open(alloc: Global, store: &mut Store, count: u16) -> u32
    ensures { IsOpening store.old.value store.new.value count result }
{
    if let Some(handle) = store.take(alloc) {
        store.put(handle);
        return 101;
    }
    let core = match Core::new(alloc, count) {
        Ok(core) => core,
        Err(CoreFault::NoNode) => return 114,
        Err(_) => return 15,
    };
    match Box::new(alloc, core) {
        Ok(handle) => {
            store.put(handle);
            0
        }
        Err(_) => 15,
    }
}

/// Opens a closed store from the bytes of a checkpoint. Returns 0 and their tag; or 101 for an open store, which stays
/// unchanged; or 106 and the number of the first fault of the bytes, 107 and that of the first reason against their
/// content, or 15.
pub fn restore(alloc: Global, store: &mut Store, bytes: &[u8], word: &mut u64) -> u32
    ensures answer { IsRestoring store.old.value store.new.value bytes.now result word.new }
    ensures represents { (saved : ℕ) (past : List Step) → BytesRepresent bytes.now saved past
        → RestoresPast store.old.value store.new.value saved past result word.new }
{
    *word = 0;
    if let Some(handle) = store.take(alloc) {
        store.put(handle);
        return 101;
    }
    let made = checkpoints::restore(alloc, bytes, word);
    opened(alloc, store, made, word)
}
