//! What the words after the program's name ask of one thread.
ghost use Rattle.std.specs.Prelude.{◌≡◌, false};
ghost use Rattle.hlc_text.specs.Watched.{has_failed};
ghost use Rattle.hlc_script.specs.Asked.{AnswersInput};

use crate::run::run_script;
use hlc_certificate::run_check;
use hlc_text::watched::Watched;
use hlc_words::{Words, refuse_words};
use std::alloc::Global;
use std::io::{Read, Write};

/// Answers the input that the reader has left, and returns the exit status: a script for `run`, a certificate for
/// `check`. Words that ask for anything else, a storm among them, are refused with status 1, before anything is read.
pub fn answer_asked<R: Read, W: Write>(
    alloc: Global,
    asked: Option<Words>,
    reader: &mut Watched<R>,
    writer: &mut Watched<W>,
) -> u8
    requires reader_well { has_failed reader.old ≡ false }
    requires writer_well { has_failed writer.old ≡ false }
    ensures { AnswersInput R.remaining W.contents asked reader.old reader.new
        writer.old writer.new result }
{
    match asked {
        Some(Words::Run) => run_script(alloc, reader, writer).status(),
        Some(Words::Check) => run_check(alloc, reader, writer).status(),
        Some(Words::Storm(_)) | None => refuse_words(writer),
    }
}
