//! A checkpoint whose bytes are read in pieces of any size.
ghost use Rattle.std.specs.Prelude.{◌≡◌, None};
ghost use Rattle.hlc_ffi.specs.Handle.{OnReader, IsGivenBack};
ghost use Rattle.hlc_handle_calls.specs.Savings.{HasBegun, HasReadOn};

use crate::handle::of_core;
use hlc_handle::{Reader, Saving, Slot};
use hlc_handle_calls::savings::{begin, read_on};
use std::alloc::Global;

/// Begins to save a store and a tag of the caller's. Returns 0 and how many bytes it will be; or 119 where a saving is
/// under way, which goes on; or 15.
#[unsafe(no_mangle)]
pub extern "C" fn hlc_saving_start(
    alloc: Global,
    saving: &mut Saving,
    store: &mut Reader,
    tag: u64,
    len: &mut u64,
) -> u32
    ensures answer { OnReader store.old.room.value ((result ≡ 100) × (len.new ≡ 0) × (saving.new.value ≡
        saving.old.value)) (λ core. HasBegun saving.old.value saving.new.value tag core result len.new) }
    ensures same { IsGivenBack store.old.room store.new.room }
{
    of_core!(store, [len], |core| begin(alloc, saving, core, tag, len))
}

/// Reads the next bytes of a saving, as many as fit. Returns 0 where they are the last, and the saving has ended; or
/// 104 where bytes are left; or 118 where none is under way; or 112 for a store that changed, or 15.
#[unsafe(no_mangle)]
pub extern "C" fn hlc_saving_read(
    alloc: Global,
    saving: &mut Saving,
    store: &mut Reader,
    out: &mut [u8],
    len: &mut usize,
) -> u32
    ensures answer { OnReader store.old.room.value
        ((result ≡ 100) × (len.new ≡ 0) × (saving.new.value ≡ saving.old.value) × (out.new ≡ out.old))
        (λ core. HasReadOn saving.old.value saving.new.value core result len.new out.old out.new) }
    ensures same { IsGivenBack store.old.room store.new.room }
{
    of_core!(store, [len], |core| read_on(alloc, saving, core, out, len))
}

/// Ends a saving, and frees what it has.
#[unsafe(no_mangle)]
pub extern "C" fn hlc_saving_drop(alloc: Global, saving: &mut Saving)
    ensures { saving.new.value ≡ None }
{
    let _ = saving.take(alloc);
}
