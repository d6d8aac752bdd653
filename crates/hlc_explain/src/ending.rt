//! The sentence for a run.

use crate::form::{
    is_header, put_certificate_fault, put_event_fault, put_header_fault, put_header_form,
};
use crate::kept::Last;
use crate::line::{bad_line, line_behind};
use crate::sentence::Sentence;
use crate::usage::put_words_fault;
use hlc_certificate::{CheckEnd, check_input};
use hlc_text::input::{INPUT_LIMIT, first_line};
use hlc_words::{Words, words_asked};
use std::alloc::Global;

/// Returns the sentence for a run with this status. The text is what was read, if it was kept, and `last` is what came
/// of the last read.
pub(crate) fn sentence_for(
    alloc: Global,
    words: Option<&[String]>,
    text: Option<&[u8]>,
    last: Last,
    status: u8,
) -> Sentence {
    let mut sentence = Sentence::new();
    sentence.put(b"hlcstore: ");
    match status {
        1 => put_words_fault(&mut sentence, words),
        2 => put_stop(alloc, &mut sentence, words, text, last),
        _ => sentence.put(b"standard output could not be written: the replies are cut off"),
    }
    sentence
}

/// Puts why a run ended with the status 2.
fn put_stop(
    alloc: Global,
    sentence: &mut Sentence,
    words: Option<&[String]>,
    text: Option<&[u8]>,
    last: Last,
) {
    match words_asked(words) {
        Some(Words::Run) => match whole_text(sentence, text, last) {
            Some(text) => put_script_stop(sentence, text),
            None => {}
        },
        Some(Words::Check) => match whole_text(sentence, text, last) {
            Some(text) => put_check_stop(alloc, sentence, text),
            None => {}
        },
        _ => sentence.put(b"the storm did not settle; docs/refusals.md says more of the number"),
    }
}

/// Returns the input, if it was read whole and kept; else it puts why it was not.
fn whole_text<'a>(sentence: &mut Sentence, text: Option<&'a [u8]>, last: Last) -> Option<&'a [u8]> {
    if let Last::Failed = last {
        sentence.put(b"standard input could not be read; it may be a folder, or closed");
        return None;
    }
    let Some(text) = text else {
        put_shortage(sentence);
        return None;
    };
    if text.len() > INPUT_LIMIT {
        sentence.put(b"the input has more than 16777216 bytes, and none of it was answered");
        return None;
    }
    match last {
        Last::End => Some(text),
        _ => {
            put_shortage(sentence);
            None
        }
    }
}

/// Puts that memory ran out.
fn put_shortage(sentence: &mut Sentence) {
    sentence.put(b"out of memory");
}

/// Puts why a script was not answered to its end.
fn put_script_stop(sentence: &mut Sentence, text: &[u8]) {
    if text.is_empty() {
        sentence.put(b"line 1: there is none");
        put_header_form(sentence);
        return;
    }
    let (header, rest) = first_line(text);
    if !is_header(header) {
        put_line(sentence, 0, header);
        put_header_fault(sentence, header);
        return;
    }
    match bad_line(rest) {
        Some((before, line)) => {
            put_line(sentence, before.saturating_add(1), line);
            put_event_fault(sentence, line);
        }
        None => put_shortage(sentence),
    }
}

/// Puts why a certificate shows nothing.
fn put_check_stop(alloc: Global, sentence: &mut Sentence, text: &[u8]) {
    match check_input(alloc, text) {
        CheckEnd::BadLine(number) => put_bad_line(sentence, text, number.saturating_sub(1)),
        CheckEnd::NotShown(reason) => {
            sentence.put(b"the certificate does not show that its rows are the fewest: ");
            if let Ok(reason) = reason.to_string(alloc) {
                sentence.put(reason.as_bytes());
            }
        }
        _ => put_shortage(sentence),
    }
}

/// Puts why the line after the first `before` lines is not that of a certificate.
fn put_bad_line(sentence: &mut Sentence, text: &[u8], before: u64) {
    if let Some(line) = line_behind(text, before) {
        put_line(sentence, before, line);
        put_certificate_fault(sentence, line);
    }
}

/// Puts the number of the line after the first `before` lines, and the line.
fn put_line(sentence: &mut Sentence, before: u64, line: &[u8]) {
    sentence.put(b"line ");
    sentence.put_number(before.saturating_add(1));
    sentence.put(b": ");
    sentence.put_quoted(line);
    sentence.put(b": ");
}
