//! What follows a run on standard error.
ghost use Rattle.hlc_text.specs.{Printing.Prints, Printing.Writes, Text.printed};
ghost use Rattle.hlc_explain.specs.Explained.{Explains, explained};

use crate::ending::sentence_for;
use crate::kept::Kept;
use crate::usage::USAGE;
use hlc_text::printer::Printer;
use hlc_text::watched::Watched;
use std::alloc::Global;
use std::io::Write;

/// Writes a sentence on a run with this exit status: nothing where all was answered, and after words that were refused
/// also how the program is used.
///
/// The words are those after the program's name, or none where it ran out of memory for them.
pub fn explain<R, W: Write>(
    alloc: Global,
    errors: &mut Watched<W>,
    words: Option<&[String]>,
    input: &Kept<R>,
    status: u8,
)
    ensures { Explains W.contents errors.old errors.new status }
{
    let sentence = sentence_for(alloc, words, input.text(), input.last(), status);
    put_explanation(errors, sentence.as_slice(), status);
}

/// Writes what follows a run with this status.
fn put_explanation<W: Write>(errors: &mut Watched<W>, sentence: &[u8], status: u8)
    ensures { Writes W.contents errors.old errors.new (explained status sentence.now) }
{
    let mut printer = Printer::new(errors);
    put_explained(&mut printer, sentence, status);
    printer.finish();
}

/// Prints what follows a run with this status.
fn put_explained<W: Write>(printer: &mut Printer<'_, W>, sentence: &[u8], status: u8)
    ensures { Prints W.contents printer.old printer.new (explained status sentence.now) }
{
    if status == 0 {
        return;
    }
    if status == 1 {
        put_line(printer, sentence);
        printer.put(USAGE);
        return;
    }
    put_line(printer, sentence);
}

/// Prints a line.
fn put_line<W: Write>(printer: &mut Printer<'_, W>, line: &[u8])
    ensures { Prints W.contents printer.old printer.new (printed line.now) }
{
    printer.put(line);
    printer.put(b"\n");
}
