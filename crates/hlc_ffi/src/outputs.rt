//! The bytes that a call made: a certificate, a checkpoint or an increment.
ghost use Rattle.std.specs.Prelude.{◌≡◌, None};
ghost use Rattle.hlc_calls.specs.Output.{ReturnsPiece};
ghost use Rattle.hlc_handle_calls.specs.Outputs.{bytes_in};

use hlc_handle::{Output, Slot};
use hlc_handle_calls::outputs::read;
use std::alloc::Global;

/// Reads bytes from a place on, as many as fit, and writes how many these are. Returns 0, or 104 if some are left.
#[unsafe(no_mangle)]
pub extern "C" fn hlc_output_read(
    alloc: Global,
    output: &mut Output,
    from: usize,
    out: &mut [u8],
    len: &mut usize,
) -> u32
    ensures piece { ReturnsPiece (bytes_in output.old.value) from result len.new out.old out.new }
    ensures same { output.new.value ≡ output.old.value }
{
    read(alloc, output, from, out, len)
}

/// Frees the bytes of an output.
#[unsafe(no_mangle)]
pub extern "C" fn hlc_output_drop(alloc: Global, output: &mut Output)
    ensures { output.new.value ≡ None }
{
    let _ = output.take(alloc);
}
