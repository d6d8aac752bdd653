//! The program: what it does for the words after its name.
ghost use Rattle.std.specs.{Prelude.◌≡◌, Prelude.false, Prelude.Option, Option.option_map};
ghost use Rattle.hlc_text.specs.Watched.{has_failed};
ghost use Rattle.hlc_words.specs.Words.{Asks, bytes_of};
ghost use Rattle.hlcstore.specs.Program.{RunsCommand};

use hlc_script::answer_asked;
use hlc_storm::{print_storm, storm};
use hlc_text::watched::Watched;
use hlc_words::{Words, words_asked};
use std::alloc::Global;
use std::io::{Read, Write};
use std::sync::Wait;
use std::thread::Threads;

/// Does what the words ask for, and returns the exit status. The words are none where the program ran out of memory for
/// them.
///
/// For `run` it answers the script that the reader has left, for `check` the certificate. For `storm` and its sizes it
/// starts threads, joins them all and prints what came of it; nothing is read. Any other words are refused with status
/// 1, before anything is read.
pub fn run_program<H: Threads + Wait + Sync, R: Read, W: Write>(
    rt: &H,
    alloc: Global,
    words: Option<&[String]>,
    reader: &mut Watched<R>,
    writer: &mut Watched<W>,
) -> u8
    requires reader_well { has_failed reader.old ≡ false }
    requires writer_well { has_failed writer.old ≡ false }
    ensures { (asked : Option Words)
        × Asks (option_map (λ words. bytes_of words.now) words.entry) asked
        × RunsCommand R.remaining W.contents asked reader.old reader.new writer.old writer.new result }
{
    let asked = words_asked(words);
    if let Some(Words::Storm(plan)) = asked {
        return print_storm(writer, &storm(rt, alloc, plan));
    }
    answer_asked(alloc, asked, reader, writer)
}
