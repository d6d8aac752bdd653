//! The calls that make and check certificates.
ghost use Rattle.std.specs.Prelude.{◌≡◌, ◌≢◌, List};
ghost use Rattle.hlc_core.specs.{Past.Step, StoreView.Represents};
ghost use Rattle.hlc_calls.specs.{Check.ReturnsCheck, Certified.ReturnsCertificate, Certified.ReturnsNoCertificate};
ghost use Rattle.hlc_ffi.specs.{Handle.OnReader, Handle.IsGivenBack, Outputs.OnOutput};

use crate::handle::{into_output, of_core};
use hlc_calls::certificates::{certify, check};
use hlc_core::Stamp;
use hlc_handle::{Output, Reader, Slot};
use std::alloc::Global;

/// Puts the certificate of the rows at or below a stamp into an output: it changes nothing, and is what a vacuum to the
/// stamp would show if it dropped no row. Returns 0, these rows, their cost and the certificate's length in bytes; or
/// 108 where the output has bytes, 8 and the floor, 9 and the horizon, 109 where a row would be dropped, or 15.
#[unsafe(no_mangle)]
pub extern "C" fn hlc_certificate_make(
    alloc: Global,
    store: &mut Reader,
    stamp: u64,
    word: &mut u64,
    kept: &mut u64,
    bytes: &mut u64,
    output: &mut Output,
    len: &mut usize,
) -> u32
    ensures answer { OnReader store.old.room.value ((result ≡ 100) × (word.new ≡ 0)) (λ core.
        OnOutput output.old.value output.new.value result len.new (word.new ≡ 0)
        (λ text. (past : List Step) → Represents core past
        → ReturnsCertificate core stamp past word.new kept.new bytes.new text)
        ((past : List Step) → Represents core past → ReturnsNoCertificate core stamp past result word.new)) }
    ensures nothing { result ≢ 0 → (kept.new ≡ 0) × (bytes.new ≡ 0) × (len.new ≡ 0)
        × (output.new.value ≡ output.old.value) }
    ensures same { IsGivenBack store.old.room store.new.room }
{
    let at = Stamp::from_bits(stamp);
    of_core!(store, [word, kept, bytes, len], |core| {
        into_output!(
            alloc,
            output,
            len,
            certify(alloc, core, at, word, kept, bytes)
        )
    })
}

/// Checks the text of a certificate, whoever made it. Returns 0, how many rows it shows to be the fewest, and their
/// cost in bytes; or 22 and the first reason against it, 16 and the first bad line, or 15.
#[unsafe(no_mangle)]
pub extern "C" fn hlc_certificate_check(
    alloc: Global,
    text: &[u8],
    rows: &mut u64,
    bytes: &mut u64,
    word: &mut u64,
) -> u32
    ensures { ReturnsCheck text.now result rows.new bytes.new word.new }
{
    check(alloc, text, rows, bytes, word)
}
