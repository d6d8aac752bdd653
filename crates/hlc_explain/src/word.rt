//! Why a word is not what a form expects at its place.
ghost use Rattle.std.specs.Prelude.{◌<◌, length, IfSome};

use crate::sentence::Sentence;
use hlc_text::bytes::bytes;
use hlc_text::number;
use hlc_text::stamp::stamp;
use hlc_text::words::cut;

/// The greatest physical part of a stamp.
const GREATEST_READING: u64 = 281_474_976_710_655;

/// Puts why a word is not what the part of a form says, and returns whether it puts anything: nothing where the word
/// fits.
///
/// A part in capitals names a value: `NODE`, `KEY`, `VALUE`, `STAMP`, or another name for a number. `a|STAMP` is the
/// word `a` or a stamp, and any other part is the word itself.
pub(crate) fn put_word_fault(sentence: &mut Sentence, part: &[u8], word: &[u8]) -> bool {
    if fits(part, word) {
        return false;
    }
    sentence.put(part);
    sentence.put(b" ");
    sentence.put_quoted(word);
    if word.is_empty() {
        sentence.put(b" is empty: one space stands between two words, and none at an end");
        return true;
    }
    match part {
        b"NODE" => put_number_fault(sentence, word, 65535),
        b"N" => put_count_fault(sentence, word),
        b"KEY" | b"VALUE" => put_bytes_fault(sentence, word),
        b"STAMP" => put_stamp_fault(sentence, word),
        _ => put_other_fault(sentence, part, word),
    }
    true
}

/// Puts why a word is none of the other parts.
fn put_other_fault(sentence: &mut Sentence, part: &[u8], word: &[u8]) {
    match cut(part, b'|') {
        Some(_) => put_stamp_fault(sentence, word),
        None if is_name(part) => put_number_fault(sentence, word, u64::MAX),
        None => sentence.put(b" is another word"),
    }
}

/// Returns whether a word is what the part of a form says.
fn fits(part: &[u8], word: &[u8]) -> bool {
    match part {
        b"NODE" => number::node(word).is_some(),
        b"N" => number::between(word, 1, 64).is_some(),
        b"KEY" | b"VALUE" => bytes(word).is_some(),
        b"STAMP" => stamp(word).is_some(),
        _ => match cut(part, b'|') {
            Some((literal, _)) => word == literal || stamp(word).is_some(),
            None if is_name(part) => number::number(word).is_some(),
            None => word == part,
        },
    }
}

/// Returns whether the part of a form names a value, and is not the word itself.
fn is_name(part: &[u8]) -> bool {
    match part.first() {
        Some(byte) => byte.is_ascii_uppercase(),
        None => false,
    }
}

/// Puts why a word is no number up to the greatest one.
pub(crate) fn put_number_fault(sentence: &mut Sentence, word: &[u8], greatest: u64) {
    if !word.iter().all(|byte| byte.is_ascii_digit()) || word.is_empty() {
        sentence.put(b" is not a number: only digits are expected, without a sign or a stop");
        return;
    }
    if word[0] == b'0' && word.len() > 1 {
        sentence.put(b" has a zero in front");
        return;
    }
    sentence.put(b" is out of range: the greatest is ");
    sentence.put_number(greatest);
}

/// Puts why a word is no count of nodes.
fn put_count_fault(sentence: &mut Sentence, word: &[u8]) {
    if word == b"0".as_slice() {
        sentence.put(b" is out of range: the least is 1");
    } else {
        put_number_fault(sentence, word, 64);
    }
}

/// Puts why a word is no stamp.
fn put_stamp_fault(sentence: &mut Sentence, word: &[u8]) {
    let Some((l, c)) = cut(word, b'.') else {
        sentence.put(b" is not a stamp: two numbers with a full stop between are expected, as 5.0");
        return;
    };
    if number::between(l, 0, GREATEST_READING).is_none() {
        put_stamp_part_fault(sentence, b": its physical part ", l, GREATEST_READING);
        return;
    }
    put_stamp_part_fault(sentence, b": its counter ", c, 65535);
}

/// Puts why a part of a stamp is wrong.
fn put_stamp_part_fault(sentence: &mut Sentence, name: &[u8], part: &[u8], greatest: u64) {
    sentence.put(name);
    sentence.put_quoted(part);
    put_number_fault(sentence, part, greatest);
}

/// Puts why a word spells no bytes: the first byte that is not spelled so.
fn put_bytes_fault(sentence: &mut Sentence, word: &[u8]) {
    let mut rest = word;
    while !rest.is_empty() {
        let first = rest[0];
        if first == b'%' {
            let Some((high, low, after)) = escape(rest) else {
                put_escape_fault(sentence);
                return;
            };
            if put_spelling_fault(sentence, high, low) {
                return;
            }
            rest = after;
        } else if first <= 32 || first > 126 {
            put_byte_fault(sentence, first);
            return;
        } else {
            rest = &rest[1..];
        }
    }
    sentence.put(b" does not spell bytes");
}

/// Returns the two bytes behind a percent sign, if they are hexadecimal digits, and what follows.
fn escape(text: &[u8]) -> Option<(u8, u8, &[u8])>
    ensures { IfSome result (λ x. length x.2.now < length text.now) }
{
    if text.len() < 3 {
        return None;
    }
    if !text[1].is_ascii_hexdigit() || !text[2].is_ascii_hexdigit() {
        return None;
    }
    Some((text[1], text[2], &text[3..]))
}

/// Puts what an escape is.
fn put_escape_fault(sentence: &mut Sentence) {
    sentence.put(
        b": a percent sign stands before two hexadecimal digits, as in %0A; for itself it is written %25",
    );
}

/// Puts that a byte is written with an escape.
fn put_byte_fault(sentence: &mut Sentence, byte: u8) {
    sentence.put(b": its byte ");
    sentence.put_quoted(&[byte]);
    sentence.put(b" is written as ");
    sentence.put_escape(byte);
}

/// Puts how a byte is written, where these two hexadecimal digits are not its spelling, and returns whether they are
/// not.
fn put_spelling_fault(sentence: &mut Sentence, high: u8, low: u8) -> bool {
    let byte = 16 * hex_value(high) + hex_value(low);
    let escaped = byte <= 32 || byte > 126 || byte == b'%';
    if escaped && !high.is_ascii_lowercase() && !low.is_ascii_lowercase() {
        return false;
    }
    sentence.put(b": ");
    sentence.put_quoted(&[b'%', high, low]);
    sentence.put(b" is written as ");
    if escaped {
        sentence.put_escape(byte);
    } else {
        sentence.put_quoted(&[byte]);
    }
    true
}

/// Returns the value of a hexadecimal digit, and 0 of another byte.
fn hex_value(digit: u8) -> u8
    ensures { result < 16 }
{
    match digit {
        b'0'..=b'9' => digit - b'0',
        b'A'..=b'F' => digit - b'A' + 10,
        b'a'..=b'f' => digit - b'a' + 10,
        _ => 0,
    }
}
