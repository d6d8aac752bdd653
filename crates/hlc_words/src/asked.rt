//! What becomes of the words: they ask for something, or they are refused.
ghost use Rattle.std.specs.{Prelude.◌≡◌, Prelude.codes, Option.option_map};
ghost use Rattle.hlc_text.specs.{Text.printed, Printing.Writes};
ghost use Rattle.hlc_words.specs.Words.{Asks, bytes_of};

use crate::words::{Words, read_words};
use hlc_text::printer::Printer;
use hlc_text::watched::Watched;
use std::io::Write;

/// Returns what the words ask for, or none where that is nothing that the program does. The words are none where the
/// program ran out of memory for them.
pub fn words_asked(words: Option<&[String]>) -> Option<Words>
    ensures { Asks (option_map (λ words. bytes_of words.now) words.entry) result }
{
    read_words(words?).ok()
}

/// Writes that the words are refused, and returns the status for that, even where the writer fails.
pub fn refuse_words<W: Write>(writer: &mut Watched<W>) -> u8
    ensures written { Writes W.contents writer.old writer.new (printed (codes "refused 25")) }
    ensures status { result ≡ 1 }
{
    let mut printer = Printer::new(writer);
    printer.put(b"refused 25\n");
    printer.finish();
    1
}
