//! A reader and a writer that fail once and then work again, and that return or take little at a time.
ghost use Rattle.std.specs.Prelude.{◌≡◌, ◌↔◌, ◌+◌, ◌^◌, ◌<◌, [], false, IsTrue};

use std::alloc::Global;
use std::io;
use std::io::{ErrorKind, Read, Write};

/// The failure of one call.
#[derive(Clone, Copy, Debug, PartialEq, Eq)]
pub enum Fault {
    Error(ErrorKind),
    TakesNone,
}

/// Counts calls, of which the one with one number fails. They are numbered from 1: at 0 none fails.
#[derive(Drop)]
pub struct Calls {
    pub made: u64,
    at: u64,
}

impl Calls {
    pub fn new(at: u64) -> Calls
        ensures { result ≡ record { made = 0; at = at } }
    {
        Calls { made: 0, at }
    }

    /// Counts a call, and returns whether it is the one that fails.
    fn make(&mut self) -> bool
        ensures at { self.new.at ≡ self.old.at }
        ensures counted { self.old.made + 1 < 2 ^ 64 → self.new.made ≡ self.old.made + 1 }
        ensures fails { IsTrue result ↔ (self.new.made ≡ self.old.at) }
        ensures never { self.old.at ≡ 0 → result ≡ false }
    {
        self.made = self.made.saturating_add(1);
        self.made == self.at
    }
}

/// Returns a text, this many bytes in a call, and counts its calls. One call may fail, and the later ones work.
#[derive(Drop)]
pub struct Giving<'a> {
    pub text: &'a [u8],
    pub most: usize,
    pub kind: ErrorKind,
    pub calls: Calls,
}

impl<'a> Giving<'a> {
    /// Returns a reader of the text that never fails.
    pub fn whole(text: &'a [u8]) -> Giving<'a>
        ensures text { result.text.now ≡ text.now }
        ensures calls { result.calls ≡ record { made = 0; at = 0 } }
    {
        Giving {
            text,
            most: 4096,
            kind: ErrorKind::Other,
            calls: Calls::new(0),
        }
    }
}

impl<'a> Read for Giving<'a> {
    fn read(&mut self, buf: &mut [u8]) -> io::Result<usize> {
        if self.calls.make() {
            return Err(io::Error::from(self.kind));
        }
        let count = self.most.min(buf.len()).min(self.text.len());
        buf[..count].copy_from_slice(&self.text[..count]);
        self.text = &self.text[count..];
        Ok(count)
    }
}

/// Takes this many bytes in a call, and counts its calls. One call may fail or take none, and the later ones work.
#[derive(Drop)]
pub struct Taking {
    pub taken: Vec<u8>,
    pub most: usize,
    pub fault: Fault,
    pub calls: Calls,
}

impl Taking {
    /// Returns a writer that takes all and never fails.
    pub fn whole(alloc: Global) -> Taking
        ensures empty { result.taken.items ≡ [] }
        ensures calls { result.calls ≡ record { made = 0; at = 0 } }
    {
        Taking {
            taken: Vec::new(alloc),
            most: usize::MAX,
            fault: Fault::TakesNone,
            calls: Calls::new(0),
        }
    }
}

impl Write for Taking {
    fn write(&mut self, buf: &[u8]) -> io::Result<usize> {
        if self.calls.make() {
            return match self.fault {
                Fault::Error(kind) => Err(io::Error::from(kind)),
                Fault::TakesNone => Ok(0),
            };
        }
        let count = self.most.min(buf.len());
        if self.taken.extend_from_slice(&buf[..count]).is_err() {
            return Err(io::Error::from(ErrorKind::OutOfMemory));
        }
        Ok(count)
    }

    fn flush(&mut self) -> io::Result<()> {
        if self.calls.make() {
            return Err(io::Error::from(ErrorKind::Other));
        }
        Ok(())
    }
}
