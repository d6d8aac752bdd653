//! The lines of the input, and their words: a name, a number, a stamp's word, or bytes in hexadecimal digits.
use hlc_core::{Bytes, Stamp};
use hlc_text::number::number;
use hlc_text::words::{LineWords, cut};
use std::alloc::Global;
use std::str;

/// The lines that are left.
#[derive(Drop)]
pub(crate) struct Lines<'a> {
    rest: &'a [u8],
}

impl<'a> Lines<'a> {
    pub(crate) fn of(text: &'a [u8]) -> Lines<'a> {
        Lines { rest: text }
    }

    /// Returns at most how many lines are left.
    pub(crate) fn most(&self) -> usize {
        self.rest.len()
    }

    /// Returns the next line.
    pub(crate) fn next(&mut self) -> Option<&'a [u8]> {
        if self.rest.is_empty() {
            return None;
        }
        Some(self.up_to(b'\n'))
    }

    /// Returns all that comes before the next such byte, and goes on behind it.
    pub(crate) fn up_to(&mut self, byte: u8) -> &'a [u8] {
        let text = self.rest;
        let (before, rest) = match cut(text, byte) {
            Some(both) => both,
            None => (text, &text[text.len()..]),
        };
        self.rest = rest;
        before
    }
}

/// The most bytes of a key.
pub(crate) const LONGEST: usize = 255;

/// Returns the next word, or no bytes.
pub(crate) fn next_word<'a>(words: &mut LineWords<'a>) -> &'a [u8] {
    match words.next() {
        Some(word) => word,
        None => b"",
    }
}

/// Returns the next word as a name.
pub(crate) fn next_name<'a>(words: &mut LineWords<'a>) -> &'a str {
    match str::from_utf8(next_word(words)) {
        Ok(name) => name,
        Err(_) => "",
    }
}

/// Returns the next word as a number, or 0.
pub(crate) fn next_number(words: &mut LineWords<'_>) -> u64 {
    number(next_word(words)).unwrap_or(0)
}

/// Returns the next word as a node, or 0.
pub(crate) fn next_node(words: &mut LineWords<'_>) -> u16 {
    u16::try_from(next_number(words)).unwrap_or(0)
}

/// Returns the next word as the word of a stamp.
pub(crate) fn next_stamp(words: &mut LineWords<'_>) -> Stamp {
    Stamp::from_bits(next_number(words))
}

/// Returns the bytes that the next word spells, or none where memory runs out, or where it spells none.
pub(crate) fn next_bytes(alloc: Global, words: &mut LineWords<'_>) -> Option<Vec<u8>> {
    hex::decode(alloc, next_word(words)).ok()
}

/// Returns the key that the next word spells, without memory but this room.
pub(crate) fn next_key<'a>(words: &mut LineWords<'_>, room: &'a mut [u8; LONGEST]) -> &'a [u8] {
    let word = next_word(words);
    let key = &mut room[..(word.len() / 2).min(LONGEST)];
    let _ = hex::decode_to_slice(word, key);
    key
}

/// Returns the bytes that the next word spells as a key or a value, or none where memory runs out.
pub(crate) fn next_text(alloc: Global, words: &mut LineWords<'_>) -> Option<Bytes> {
    let bytes = next_bytes(alloc, words)?;
    Bytes::from_slice(alloc, bytes.as_slice()).ok()
}
