//! How the program is used, and why words ask for nothing that it does.
ghost use Rattle.std.specs.Prelude.{◌≤◌, IsTrue};

use crate::sentence::Sentence;
use hlc_text::number::between;
use hlc_words::words_asked;
use std::env;
use std::rt::Env;

/// How the program is used. It follows the sentence on words that were refused.
pub const USAGE: &[u8] =
    b"usage: hlcstore run < SCRIPT           answers the events of a script, on standard output
       hlcstore check < CERTIFICATE    checks the certificate of a vacuum
       hlcstore storm --nodes N --writes W --keys K --readers R
                                       writes, reads and vacuums one store in threads:
                                       N 1 to 64, W 0 to 1000, K 1 to 1000, R 0 to 64
HLCSTORE_EXPLAIN=1 explains a refusal here, which is done anyhow where this is a terminal.
";

/// Puts why the words ask for nothing that the program does. The words are none where it ran out of memory for them.
/// Where they ask for something, that is a storm, which the smaller program has not.
pub(crate) fn put_words_fault(sentence: &mut Sentence, words: Option<&[String]>) {
    if words_asked(words).is_some() {
        sentence.put(b"hlcscript has no storm: hlcstore has");
        return;
    }
    let Some(words) = words else {
        sentence.put(b"the words after the program's name are not UTF-8, or found no memory");
        return;
    };
    match words.split_first() {
        None => sentence.put(b"a command is expected"),
        Some((verb, others)) => put_verb_fault(sentence, verb.as_bytes(), others),
    }
}

/// Puts why a first word and the others ask for nothing.
fn put_verb_fault(sentence: &mut Sentence, verb: &[u8], others: &[String]) {
    match verb {
        b"run" | b"check" => put_extra_fault(sentence, verb, others),
        b"storm" => put_storm_fault(sentence, others),
        b"--help" | b"-h" | b"help" => sentence.put(b"this is how it is used"),
        _ if is_file_name(verb) => {
            sentence.put(b"no file is read by its name, but standard input: hlcstore run < ");
            sentence.put_quoted(verb);
        }
        _ => {
            sentence.put_quoted(verb);
            sentence.put(b" is no command");
        }
    }
}

/// Returns whether a word looks like the name of a file: it has a stop or a slash, and is no option.
fn is_file_name(word: &[u8]) -> bool {
    !word.starts_with(b"-") && word.iter().any(|byte| *byte == b'.' || *byte == b'/')
}

/// Puts that a command takes no further word.
fn put_extra_fault(sentence: &mut Sentence, verb: &[u8], others: &[String]) {
    sentence.put(verb);
    sentence.put(b" takes no further word, but reads standard input: hlcstore ");
    sentence.put(verb);
    sentence.put(b" < ");
    match others.first() {
        Some(word) => sentence.put_quoted(word.as_bytes()),
        None => sentence.put(b"FILE"),
    }
}

/// Puts the first reason why the words are not the sizes of a storm.
fn put_storm_fault(sentence: &mut Sentence, words: &[String]) {
    if put_size_fault(sentence, words, 0, b"--nodes", 1, 64)
        || put_size_fault(sentence, words, 2, b"--writes", 0, 1000)
        || put_size_fault(sentence, words, 4, b"--keys", 1, 1000)
        || put_size_fault(sentence, words, 6, b"--readers", 0, 64)
    {
        return;
    }
    match words.get(8) {
        Some(word) => sentence.put_quoted(word.as_bytes()),
        None => sentence.put(b"a word"),
    }
    sentence.put(b" is one word too many for a storm");
}

/// Puts why the word at a place and the next are not a name and a number in its range, and returns whether it puts
/// anything.
fn put_size_fault(
    sentence: &mut Sentence,
    words: &[String],
    place: usize,
    name: &[u8],
    low: u64,
    high: u64,
) -> bool
    requires { place ≤ 6 }
{
    let word = word_at(words, place);
    if word != name {
        sentence.put(b"a storm has ");
        sentence.put(name);
        sentence.put(b" as its word ");
        sentence.put_number(place as u64 + 2);
        if !word.is_empty() {
            sentence.put(b", not ");
            sentence.put_quoted(word);
        }
        return true;
    }
    let number = word_at(words, place + 1);
    if between(number, low, high).is_some() {
        return false;
    }
    sentence.put(name);
    sentence.put(b" ");
    sentence.put_quoted(number);
    sentence.put(b" is not a number from ");
    sentence.put_number(low);
    sentence.put(b" to ");
    sentence.put_number(high);
    true
}

/// Returns the word at a place, or no bytes where there is none.
fn word_at(words: &[String], place: usize) -> &[u8] {
    match words.get(place) {
        Some(word) => word.as_bytes(),
        None => b"",
    }
}

/// Returns whether refusals are explained: where standard error is a terminal, or HLCSTORE_EXPLAIN is 1.
pub fn explains<R: Env + AllocGlobal>(rt: &R, is_terminal: bool) -> bool
    ensures { IsTrue is_terminal → IsTrue result }
{
    if is_terminal {
        return true;
    }
    match env::var(rt, "HLCSTORE_EXPLAIN") {
        Ok(value) => value.as_str() == "1",
        Err(_) => false,
    }
}
