//! The bytes that a call made, in pieces.
ghost use Rattle.std.specs.Prelude.{◌≡◌};
ghost use Rattle.hlc_calls.specs.Output.{ReturnsPiece};
ghost use Rattle.hlc_handle_calls.specs.Outputs.{bytes_in};

use hlc_calls::outputs::read_piece;
use hlc_handle::{Output, Slot};
use std::alloc::Global;

/// Reads bytes of an output from a place on, as many as fit, and writes how many these are. Returns 0 where they are
/// the last, or 104 where bytes are left. One without bytes has none to read.
pub fn read(alloc: Global, output: &mut Output, from: usize, out: &mut [u8], len: &mut usize) -> u32
    ensures piece { ReturnsPiece (bytes_in output.old.value) from result len.new out.old out.new }
    ensures same { output.new.value ≡ output.old.value }
{
    match output.take(alloc) {
        None => read_piece(&[], from, out, len),
        Some(bytes) => {
            let code = read_piece(bytes.as_slice(), from, out, len);
            output.put(bytes);
            code
        }
    }
}
