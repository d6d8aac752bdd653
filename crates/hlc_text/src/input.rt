//! The whole input of a run or a check, and its first line.
ghost use Rattle.std.specs.Prelude.{◌≡◌, ◌<◌, ◌≤◌, ◌∷◌, ◌↔◌, ◌^◌, Err, false, true, length, vec_len, IfOk, IfErr};
ghost use Rattle.std.specs.Io.KnownBytes.{Consumes};
ghost use Rattle.hlc_text.specs.{Watched.inner_of, Watched.has_failed, declared.input.TheConstants.INPUT_LIMIT};
ghost use Rattle.hlc_text.specs.{Lines.lines_of, Text.printed, Printing.Prints};
ghost use Rattle.hlc_text.specs.Input.{IsInput, IsNotLoaded, fault_line};

use crate::printer::Printer;
use crate::watched::Watched;
use crate::words::cut;
use std::alloc::Global;
use std::io::{Read, Write};

/// The maximum number of bytes of an input.
pub const INPUT_LIMIT: usize = 16_777_216;

/// States that an input has at most 16,777,216 bytes.
pub fn inputs_have_a_limit()
    ensures { INPUT_LIMIT ≡ 2 ^ 24 }
{}

/// Why there is no input.
#[derive(Clone, Copy, Debug, PartialEq, Eq)]
pub enum InputFault {
    /// Out of memory.
    NoMemory,
    /// A read failed.
    ReadFault,
    /// It has too many bytes.
    TooLong,
}

/// Prints the line for a fault.
pub fn put_fault<W: Write>(printer: &mut Printer<'_, W>, fault: InputFault)
    ensures { Prints W.contents printer.old printer.new (printed (fault_line fault)) }
{
    match fault {
        InputFault::NoMemory => printer.put(b"refused 15\n"),
        InputFault::ReadFault => printer.put(b"refused 18\n"),
        InputFault::TooLong => printer.put(b"refused 20\n"),
    }
}

/// Reads all that the reader has left. The fault is the first one that occurs.
pub fn read_input<R: Read>(alloc: Global, reader: &mut Watched<R>) -> Result<Vec<u8>, InputFault>
    requires { has_failed reader.old ≡ false }
    ensures ok { IfOk result (λ input. IsInput (R.remaining (inner_of reader.old)) input.items
        × Consumes (R.remaining (inner_of reader.old))
        (R.remaining (inner_of reader.new)) input.items
        × (vec_len input ≤ INPUT_LIMIT)) }
    ensures failed { (result ≡ Err InputFault.ReadFault) ↔ (has_failed reader.new ≡ true) }
    ensures err { IfErr result (λ fault.
        IsNotLoaded (R.remaining (inner_of reader.old)) (R.remaining (inner_of reader.new)) fault) }
{
    let mut input = Vec::new(alloc);
    let mut block = [0u8; 32768];
    'reading: loop {
        let Ok(taken) = reader.read(&mut block) else {
            return Err(InputFault::ReadFault);
        };
        if taken == 0 {
            return Ok(input);
        }
        if taken > INPUT_LIMIT - input.len() {
            return Err(InputFault::TooLong);
        }
        if input.extend_from_slice(&block[..taken]).is_err() {
            return Err(InputFault::NoMemory);
        }
    }
}

/// Returns the first line, and the text after it. The last line may have no line feed.
pub fn first_line(text: &[u8]) -> (&[u8], &[u8])
    requires { 0 < length text.now }
    ensures line { lines_of text.now ≡ result.0.now ∷ lines_of result.1.now }
    ensures shorter { length result.1.now < length text.now }
{
    match cut(text, b'\n') {
        Some((line, rest)) => (line, rest),
        None => (text, &text[text.len()..]),
    }
}
