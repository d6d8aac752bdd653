//! Why a line is not of a form: which word is wrong, and what was expected there.

use crate::look::{line_look, put_look};
use crate::sentence::Sentence;
use crate::word::put_word_fault;
use hlc_certificate::read_check_line;
use hlc_text::number::between;
use hlc_text::words::LineWords;

/// The first words of the events.
const EVENTS: &[u8] =
    b"write, delete, report, retire, join, send, receive, observe, deliver, open, read, \
    list, close, floor, vacuum or rows";

/// Returns the form of the events with this first word, if it is that of an event.
fn event_form(verb: &[u8]) -> Option<&'static str> {
    match verb {
        b"write" => Some("write NODE READING KEY VALUE"),
        b"delete" => Some("delete NODE READING KEY"),
        b"report" => Some("report NODE READING"),
        b"retire" => Some("retire NODE READING"),
        b"join" => Some("join"),
        b"send" => Some("send NODE READING"),
        b"receive" => Some("receive NODE READING MESSAGE"),
        b"observe" => Some("observe NODE READING SNAPSHOT"),
        b"deliver" => Some("deliver NODE ITEM"),
        b"open" => Some("open floor|STAMP"),
        b"read" => Some("read SNAPSHOT KEY"),
        b"list" => Some("list SNAPSHOT"),
        b"close" => Some("close SNAPSHOT"),
        b"floor" => Some("floor"),
        b"vacuum" => Some("vacuum"),
        b"rows" => Some("rows"),
        _ => None,
    }
}

/// Returns the form of the lines of a certificate with this first word, if it is that of one. A row has two forms.
fn certificate_form(verb: &[u8], is_deletion: bool) -> Option<&'static str> {
    match verb {
        b"point" => Some("point STAMP"),
        b"row" if is_deletion => Some("row KEY STAMP NODE delete"),
        b"row" => Some("row KEY STAMP NODE value VALUE"),
        b"witness" => Some("witness KEY none|STAMP STAMP"),
        _ => None,
    }
}

/// Puts why a line is not that of an event.
pub(crate) fn put_event_fault(sentence: &mut Sentence, line: &[u8]) {
    if put_look(sentence, line_look(line)) {
        return;
    }
    let verb = first_word(line);
    if let Some(form) = event_form(verb) {
        put_form_fault(sentence, line, form);
        return;
    }
    if verb == b"nodes".as_slice() {
        sentence.put(b"the header is the first line, and comes once");
        return;
    }
    put_verb_fault(sentence, verb);
    sentence.put(EVENTS);
}

/// Returns whether a line is the header.
pub(crate) fn is_header(line: &[u8]) -> bool {
    let mut words = LineWords::of(line);
    let Some(verb) = words.next() else {
        return false;
    };
    if verb != b"nodes".as_slice() {
        return false;
    }
    match words.last() {
        Some(word) => between(word, 1, 64).is_some(),
        None => false,
    }
}

/// Puts why a line is not the header.
pub(crate) fn put_header_fault(sentence: &mut Sentence, line: &[u8]) {
    if !put_look(sentence, line_look(line)) {
        let verb = first_word(line);
        if certificate_form(verb, false).is_some() {
            sentence.put(b"this is a certificate, which hlcstore check reads");
        } else if verb == b"nodes".as_slice() {
            put_first_fault(sentence, line, b"nodes N");
        } else {
            sentence.put(b"it is not the header");
        }
    }
    put_header_form(sentence);
}

/// Puts what the header is.
pub(crate) fn put_header_form(sentence: &mut Sentence) {
    sentence.put(b"; expected 'nodes N' as the first line, N from 1 to 64");
}

/// Puts why a line is not that of a certificate, or comes too late in it.
pub(crate) fn put_certificate_fault(sentence: &mut Sentence, line: &[u8]) {
    if put_look(sentence, line_look(line)) {
        return;
    }
    let verb = first_word(line);
    if let Some(form) = certificate_form(verb, fifth_word(line) == b"delete".as_slice()) {
        if read_check_line(line).is_some() {
            sentence.put(
                b"it comes too late; expected all points first, then all rows, then all witnesses",
            );
        } else {
            put_form_fault(sentence, line, form);
        }
        return;
    }
    if verb == b"nodes".as_slice() {
        sentence.put(b"this is a script, which hlcstore run reads");
        return;
    }
    put_verb_fault(sentence, verb);
    sentence.put(b"point, row or witness");
}

/// Puts that a line does not begin with one of the words that follow.
fn put_verb_fault(sentence: &mut Sentence, verb: &[u8]) {
    if verb.is_empty() {
        sentence.put(b"it begins with a space");
    } else {
        sentence.put_quoted(verb);
        sentence.put(b" begins no line");
    }
    sentence.put(b"; expected ");
}

/// Returns the first word of a line.
fn first_word(line: &[u8]) -> &[u8] {
    let mut words = LineWords::of(line);
    words.next().unwrap_or(b"")
}

/// Returns the fifth word of a line, or no bytes where it has fewer.
fn fifth_word(line: &[u8]) -> &[u8] {
    let mut words = LineWords::of(line);
    for _ in 0..4 {
        let _ = words.next();
    }
    words.next().unwrap_or(b"")
}

/// Puts the first reason why the words of a line behind the first one are not those of a form, and the form.
fn put_form_fault(sentence: &mut Sentence, line: &[u8], form: &str) {
    put_first_fault(sentence, line, form.as_bytes());
    sentence.put(b"; expected '");
    sentence.put(form.as_bytes());
    sentence.put(b"'");
}

/// Puts the first reason why the words of a line behind the first one are not those of a form, which has at most six.
fn put_first_fault(sentence: &mut Sentence, line: &[u8], form: &[u8]) {
    let mut words = LineWords::of(line);
    let mut parts = LineWords::of(form);
    let _ = words.next();
    let _ = parts.next();
    for _ in 0..6 {
        let part = parts.next();
        let word = words.next();
        if put_part_fault(sentence, part, word) {
            return;
        }
    }
    sentence.put(b"it is not of this form");
}

/// Puts why a word is not what the part of a form at its place says, and returns whether it puts anything. There may be
/// no word or no part left.
fn put_part_fault(sentence: &mut Sentence, part: Option<&[u8]>, word: Option<&[u8]>) -> bool {
    let Some(part) = part else {
        let Some(word) = word else {
            return false;
        };
        sentence.put_quoted(word);
        sentence.put(b" is one word too many");
        return true;
    };
    let Some(word) = word else {
        sentence.put(b"it ends before ");
        sentence.put(part);
        return true;
    };
    put_word_fault(sentence, part, word)
}
