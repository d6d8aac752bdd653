//! A reader that keeps what it gave, so that a line of it can be shown after it was refused.
ghost use Rattle.std.specs.Prelude.{◌≡◌, ◌++◌, [], length, IsTrue, MatchOption, IfOk, OnErr};
ghost use Rattle.std.specs.Io.{ReadsAtMost, KnownBytes.ReadConsumes};
ghost use Rattle.hlc_explain.specs.Kept.{source_of, is_whole, kept_bytes, last_read, last_of, Adds};

use std::alloc::Global;
use std::io;
use std::io::Read;

/// What came of the last read.
#[derive(Clone, Copy, Debug)]
pub enum Last {
    /// There was none, or it gave some bytes.
    More,
    /// It gave no bytes: the input is at its end, or nothing was asked for, with an empty buffer.
    End,
    /// It failed.
    Failed,
}

/// A reader, and the bytes that it gave, if they are kept and memory sufficed for them.
#[derive(Drop)]
pub struct Kept<R> {
    inner: R,
    bytes: Vec<u8>,
    is_whole: bool,
    last: Last,
}

impl<R> Kept<R> {
    /// Wraps a reader. Its bytes are kept if `keeps`; otherwise a read takes no memory and costs one test more.
    pub fn new(alloc: Global, inner: R, keeps: bool) -> Kept<R>
        ensures source { source_of result ≡ inner }
        ensures whole { is_whole result ≡ keeps }
        ensures bytes { kept_bytes result ≡ [] }
        ensures last { last_read result ≡ Last.More }
    {
        Kept {
            inner,
            bytes: Vec::new(alloc),
            is_whole: keeps,
            last: Last::More,
        }
    }

    /// Returns what came of the last read.
    pub fn last(&self) -> Last
        ensures { result ≡ last_read self.now }
    {
        self.last
    }

    /// Returns all bytes that the reader gave since it was wrapped, if they were kept.
    pub fn text(&self) -> Option<&[u8]>
        ensures { MatchOption result (¬ (IsTrue (is_whole self.now)))
            (λ text. IsTrue (is_whole self.now) × (text.now ≡ kept_bytes self.now)) }
    {
        if self.is_whole {
            Some(self.bytes.as_slice())
        } else {
            None
        }
    }

    /// Keeps some bytes more, or none from then on where memory runs out.
    fn keep(&mut self, given: &[u8])
        ensures source { source_of self.new ≡ source_of self.old }
        ensures bytes { IsTrue (is_whole self.new)
            → kept_bytes self.new ≡ kept_bytes self.old ++ given.now }
        ensures whole { IsTrue (is_whole self.new) → IsTrue (is_whole self.old) }
        ensures last { last_read self.new ≡ last_of (length given.now) }
    {
        self.last = if given.is_empty() {
            Last::End
        } else {
            Last::More
        };
        if !self.is_whole {
            return;
        }
        if self.bytes.extend_from_slice(given).is_err() {
            self.is_whole = false;
        }
    }
}

impl<R: Read> Read for Kept<R> {
    ghost remaining = { λ kept. R.remaining (source_of kept) };

    fn read(&mut self, buf: &mut [u8]) -> io::Result<usize>
        ensures bound { ReadsAtMost result buf.new }
        ensures bytes { ReadConsumes (R.remaining (source_of self.old))
            (R.remaining (source_of self.new)) result buf.new }
        ensures kept { IsTrue (is_whole self.new)
            → Adds (kept_bytes self.old) (kept_bytes self.new) result buf.new }
        ensures whole { IsTrue (is_whole self.new) → IsTrue (is_whole self.old) }
        ensures last { IfOk result (λ n. last_read self.new ≡ last_of n) }
        ensures failed { OnErr result (last_read self.new ≡ Last.Failed) }
    {
        match self.inner.read(buf) {
            Ok(count) => {
                self.keep(&buf[..count]);
                Ok(count)
            }
            Err(error) => {
                self.last = Last::Failed;
                Err(error)
            }
        }
    }
}
