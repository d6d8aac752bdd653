//! A printer: a watched writer, and a buffer of text for it. It takes no memory.
//!
//! Each call prints one text, whatever happens to the writer: one that has failed takes nothing more. So a caller
//! prints all of its text, then calls `finish`, and then asks the writer once whether it failed. Before `finish` at
//! least 32,768 bytes are written at once; only where the writer takes a part of them, the rest is written alone.
ghost use Rattle.std.specs.Prelude.{◌≡◌, ◌<◌, ◌≤◌, ◌+◌, decimal, ◌++◌, [], length, flat_map};
ghost use Rattle.hlc_clock.specs.Stamp.{stamp_text};
ghost use Rattle.hlc_text.specs.Text.{byte_token, bytes_token, printed};
ghost use Rattle.hlc_text.specs.Printing.{StartsAt, Prints, Finishes, Writes};

use crate::plainness::is_own_spelling;
use crate::waiting::Waiting;
use crate::watched::Watched;
use hlc_clock::Stamp;
use itoa::Buffer;
use percent_encoding::{AsciiSet, CONTROLS, ascii_set, percent_encode};
use std::io::Write;

/// The bytes below 128 that are escaped.
const ESCAPED: AsciiSet = ascii_set!(CONTROLS.add(b' ').add(b'%'));

/// Prints to a writer through a buffer of text that waits.
#[derive(Drop)]
pub struct Printer<'a, W> {
    writer: &'a mut Watched<W>,
    waiting: Waiting,
}

impl<'a, W: Write> Printer<'a, W> {
    /// Returns a printer for the writer. No text waits.
    #[inline(always)]
    pub fn new(writer: &'a mut Watched<W>) -> Printer<'a, W>
        ensures same_writer { result.writer.ghost_name ≡ writer.entry.ghost_name }
        ensures start { StartsAt writer.old result }
    {
        Printer {
            writer,
            waiting: Waiting::new(),
        }
    }

    /// Writes the text that waits, so that none waits any more. It does not flush the writer.
    pub fn finish(&mut self)
        ensures { Finishes W.contents self.old self.new }
    {
        send(self.writer, self.waiting.as_slice());
        self.waiting.clear();
    }

    /// Makes room for a line of 128 bytes, at least.
    #[inline(always)]
    fn make_room(&mut self)
        ensures nothing { Prints W.contents self.old self.new [] }
        ensures room { length self.new.waiting ≤ 32768 }
    {
        if self.waiting.room() < 128 {
            self.finish();
        }
    }

    /// Prints the text, which waits where there is room for it.
    #[inline(always)]
    pub fn put(&mut self, text: &[u8])
        ensures { Prints W.contents self.old self.new text.now }
    {
        if text.len() <= self.waiting.room() {
            self.waiting.put(text);
        } else {
            self.put_beyond(text);
        }
    }

    /// Prints a text for which there is no room.
    fn put_beyond(&mut self, text: &[u8])
        requires { 32896 < length self.old.waiting + length text.now }
        ensures { Prints W.contents self.old self.new text.now }
    {
        // A full buffer is written, so that no small block is written before the end.
        let (front, back) = text.split_at(self.waiting.room());
        self.waiting.put(front);
        self.finish();
        self.put_first(back);
    }

    /// Prints the text where nothing waits.
    fn put_first(&mut self, text: &[u8])
        requires { self.old.waiting ≡ [] }
        ensures { Prints W.contents self.old self.new text.now }
    {
        if text.len() <= 32896 {
            self.waiting.put(text);
        } else {
            send(self.writer, text);
        }
    }

    /// Prints the digits of the number.
    pub fn put_number(&mut self, number: u64)
        ensures { Prints W.contents self.old self.new (decimal number) }
    {
        self.make_room();
        self.waiting.put_number(number);
    }

    /// Prints the parts of the stamp.
    pub fn put_stamp(&mut self, stamp: Stamp)
        ensures { Prints W.contents self.old self.new (stamp_text stamp) }
    {
        self.make_room();
        self.waiting.put_stamp(stamp);
    }

    /// Prints a line: some words, followed by the stamp.
    #[inline(always)]
    pub fn put_stamp_line(&mut self, name: &[u8], stamp: Stamp)
        requires { length name.now ≤ 24 }
        ensures { Prints W.contents self.old self.new (printed (name.now ++ stamp_text stamp)) }
    {
        self.make_room();
        self.waiting.put(name);
        self.waiting.put_stamp(stamp);
        self.waiting.put(b"\n");
    }

    /// Prints a line: some words, followed by the stamp, more words, and the number.
    #[inline(always)]
    pub fn put_numbered_stamp_line(&mut self, name: &[u8], stamp: Stamp, middle: &[u8], number: u64)
        requires { length name.now + length middle.now ≤ 24 }
        ensures { Prints W.contents self.old self.new
            (printed ((name.now ++ stamp_text stamp) ++ middle.now ++ decimal number)) }
    {
        self.make_room();
        self.waiting.put(name);
        self.waiting.put_stamp(stamp);
        self.waiting.put(middle);
        self.waiting.put_number(number);
        self.waiting.put(b"\n");
    }

    /// Prints the word that spells the bytes.
    #[inline]
    pub fn put_bytes(&mut self, bytes: &[u8])
        ensures { Prints W.contents self.old self.new (bytes_token bytes.now) }
    {
        if is_own_spelling(bytes) {
            self.put(bytes);
        } else {
            self.put_spelled(bytes);
        }
    }

    /// Prints the word that spells some bytes, of which one may be escaped.
    fn put_spelled(&mut self, bytes: &[u8])
        ensures { Prints W.contents self.old self.new (bytes_token bytes.now) }
    {
        if bytes.is_empty() {
            self.put(b"%");
        } else {
            self.put_each_byte(bytes);
        }
    }

    /// Prints the spellings of some bytes, one after another.
    fn put_each_byte(&mut self, bytes: &[u8])
        ensures { Prints W.contents self.old self.new (flat_map byte_token bytes.now) }
    {
        for piece in percent_encode(bytes, ESCAPED) {
            self.put(piece.as_bytes());
        }
    }

    /// Prints some words, followed by the number.
    #[inline(always)]
    pub fn put_named_number(&mut self, name: &[u8], number: u64)
        ensures { Prints W.contents self.old self.new (name.now ++ decimal number) }
    {
        self.put(name);
        self.put_number(number);
    }

    /// Prints some words, followed by the count.
    pub fn put_named_count(&mut self, name: &[u8], count: u128)
        ensures { Prints W.contents self.old self.new (name.now ++ decimal count) }
    {
        self.put(name);
        self.put_count(count);
    }

    /// Prints the digits of the count.
    fn put_count(&mut self, count: u128)
        ensures { Prints W.contents self.old self.new (decimal count) }
    {
        let mut buffer = Buffer::new();
        self.put(buffer.format(count).as_bytes());
    }

    /// Prints some words, followed by the stamp.
    #[inline(always)]
    pub fn put_named_stamp(&mut self, name: &[u8], stamp: Stamp)
        ensures { Prints W.contents self.old self.new (name.now ++ stamp_text stamp) }
    {
        self.put(name);
        self.put_stamp(stamp);
    }

    /// Prints some words, followed by the word that spells the bytes.
    #[inline(always)]
    pub fn put_named_bytes(&mut self, name: &[u8], bytes: &[u8])
        ensures { Prints W.contents self.old self.new (name.now ++ bytes_token bytes.now) }
    {
        self.put(name);
        self.put_bytes(bytes);
    }
}

/// Writes the text at once, unless the writer has failed.
fn send<W: Write>(writer: &mut Watched<W>, text: &[u8])
    ensures { Writes W.contents writer.old writer.new text.now }
{
    let mut rest = text;
    while !writer.failed() && !rest.is_empty() {
        if let Ok(taken) = writer.write(rest) {
            rest = &rest[taken..];
        }
    }
}
