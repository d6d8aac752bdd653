//! A sentence: one line of text that a terminal shows as it is, of a limited length. It takes no memory.
ghost use Rattle.std.specs.Prelude.{◌≡◌, ◌≤◌, ◌<◌, [], true, length, decimal};
ghost use Rattle.std.specs.{Fmt.digit_glyph, List.list_all, List.flat_map};
ghost use Rattle.hlc_explain.specs.Sentence.{is_shown, with_byte, with_bytes, hex, escape, quoted_byte, quoted};

use arrayvec::ArrayVec;
use itoa::Buffer;
use std::marker::Model;

/// The maximum number of bytes of a sentence.
pub const SENTENCE_LIMIT: usize = 1000;

/// How many bytes of a line or a word are quoted.
const QUOTED: usize = 80;

/// Text of at most 1,000 bytes from a space to a tilde, without a line feed. Contracts see it as its bytes.
#[derive(Drop)]
pub struct Sentence {
    text: ArrayVec<u8, SENTENCE_LIMIT>,
}

impl Model for Sentence {
    ghost use Rattle.std.specs.Prelude.{List, ℕ};
    ghost use Rattle.hlc_explain.specs.Sentence.{IsSentence};

    ghost Value = { List ℕ };

    ghost view = { λ sentence. sentence.text.items };

    ghost invariant = { λ sentence. IsSentence sentence.text.items };
}

/// Returns whether a terminal shows the byte as it is.
fn is_shown(byte: u8) -> bool
    ensures { result ≡ is_shown byte }
{
    32 <= byte && byte <= 126
}

/// Returns the capital hexadecimal digit of a number, or a question mark for 16 and more.
fn hex_digit(number: u8) -> u8
    ensures { number < 16 → result ≡ digit_glyph true number }
{
    match number {
        0..=9 => b'0' + number,
        10..=15 => b'A' + (number - 10),
        _ => b'?',
    }
}

impl Sentence {
    /// Returns an empty sentence.
    pub fn new() -> Sentence
        ensures { result ≡ [] }
    {
        Sentence {
            text: ArrayVec::new(),
        }
    }

    /// Returns its bytes.
    pub fn as_slice(&self) -> &[u8]
        ensures text { result.now ≡ self.now }
        ensures short { length result.now ≤ 1000 }
        ensures shown { list_all is_shown result.now ≡ true }
    {
        self.text.as_slice()
    }

    /// Appends a byte, if a terminal shows it and there is room.
    pub fn put_byte(&mut self, byte: u8)
        ensures { self.new ≡ with_byte self.old byte }
    {
        if is_shown(byte) && !self.text.is_full() {
            self.text.push(byte);
        }
    }

    /// Appends the bytes of a text, as `put_byte` does.
    pub fn put(&mut self, text: &[u8])
        ensures { self.new ≡ with_bytes self.old text.now }
    {
        for byte in text {
            self.put_byte(*byte);
        }
    }

    /// Appends the digits of a number.
    pub fn put_number(&mut self, number: u64)
        ensures { self.new ≡ with_bytes self.old (decimal number) }
    {
        let mut buffer = Buffer::new();
        self.put(buffer.format(number).as_bytes());
    }

    /// Appends two capital hexadecimal digits.
    fn put_hex(&mut self, byte: u8)
        ensures { self.new ≡ with_bytes self.old (hex byte) }
    {
        self.put_byte(hex_digit(byte / 16));
        self.put_byte(hex_digit(byte % 16));
    }

    /// Appends a byte as a percent sign and two digits.
    pub fn put_escape(&mut self, byte: u8)
        ensures { self.new ≡ with_bytes self.old (escape byte) }
    {
        self.put(b"%");
        self.put_hex(byte);
    }

    /// Appends a byte of a quoted text: as `\xHH` where a terminal does not show it.
    fn put_quoted_byte(&mut self, byte: u8)
        ensures { self.new ≡ with_bytes self.old (quoted_byte byte) }
    {
        if is_shown(byte) {
            self.put_byte(byte);
        } else {
            self.put(b"\\x");
            self.put_hex(byte);
        }
    }

    /// Appends each byte of a quoted text.
    fn put_quoted_bytes(&mut self, text: &[u8])
        ensures { self.new ≡ with_bytes self.old (flat_map quoted_byte text.now) }
    {
        for byte in text {
            self.put_quoted_byte(*byte);
        }
    }

    /// Appends the first 80 bytes of a text in quotation marks, and two stops where it has more.
    pub fn put_quoted(&mut self, text: &[u8])
        ensures { self.new ≡ with_bytes self.old (quoted text.now) }
    {
        self.put(b"'");
        let count = text.len().min(QUOTED);
        self.put_quoted_bytes(&text[..count]);
        self.put(b"'");
        if count < text.len() {
            self.put(b"..");
        }
    }
}
