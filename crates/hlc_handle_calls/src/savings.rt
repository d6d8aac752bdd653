//! A saving in pieces.
ghost use Rattle.std.specs.Prelude.{◌≡◌};
ghost use Rattle.hlc_handle_calls.specs.Savings.{HasBegun, HasReadOn};

use hlc_core::Core;
use hlc_handle::{Saving, Slot};
use hlc_saved::Saver;
use std::alloc::Global;

/// Begins to save a store and a tag of the caller's, where no saving is under way, and puts into `len` how many bytes
/// it will be. Returns 0; or 119 where one is under way, which goes on; or 15.
pub fn begin(alloc: Global, saving: &mut Saving, core: &Core, tag: u64, len: &mut u64) -> u32
    requires { len.old ≡ 0 }
    ensures { HasBegun saving.old.value saving.new.value tag core.now result len.new }
{
    if let Some(saver) = saving.take(alloc) {
        saving.put(saver);
        return 119;
    }
    let Ok((saver, many)) = Saver::start(alloc, core, tag) else {
        return 15;
    };
    let Ok(boxed) = Box::new(alloc, saver) else {
        return 15;
    };
    saving.put(boxed);
    *len = many;
    0
}

/// Reads the next bytes of a saving, as many as fit, and puts into `len` how many these are. Returns 0 with the last
/// ones, and the saving has ended; or 104 where bytes are left; or 118 where no saving is under way. A store that
/// changed is refused with 112, and 15 comes where memory ran out before a byte was read: then the saving is as it was.
pub fn read_on(
    alloc: Global,
    saving: &mut Saving,
    core: &Core,
    out: &mut [u8],
    len: &mut usize,
) -> u32
    requires { len.old ≡ 0 }
    ensures { HasReadOn saving.old.value saving.new.value core.now result len.new out.old out.new }
{
    let Some(taken) = saving.take(alloc) else {
        return 118;
    };
    let mut saver = taken;
    match saver.read(core, out) {
        Ok(many) => {
            *len = many;
            if saver.is_read() {
                return 0;
            }
            saving.put(saver);
            104
        }
        Err(error) => {
            saving.put(saver);
            error.code()
        }
    }
}
