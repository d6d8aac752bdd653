//! Writes that are lent, as a slice or as their bytes.
ghost use Rattle.std.specs.Prelude.{◌≡◌, length, take, drop, option_copied, [], ◌∷◌, MatchOption};
ghost use Rattle.hlc_rows.specs.Spelled.{key_in, long_in, value_in, writes_in, write_seen};

use crate::write::Write;
use hlc_bytes::value_slice;
use std::marker::Model;

/// A write that borrows its key, with a value or with a deletion mark.
#[derive(Clone, Copy, Debug)]
pub struct Written<'a> {
    pub key: &'a [u8],
    pub value: Option<&'a [u8]>,
}

/// Writes that are lent, as a slice, or as bytes that are read when a write is asked for. In contracts it is the list
/// of them. None of its calls needs memory.
#[derive(Debug, Drop)]
pub struct Writes<'a> {
    form: Form<'a>,
}

/// Where the writes are.
#[derive(Debug, Drop)]
pub(crate) enum Form<'a> {
    Slice(&'a [Write]),
    /// A count of writes, and their bytes.
    Bytes(usize, &'a [u8]),
}

impl<'a> Model for Writes<'a> {
    ghost use Rattle.std.specs.Prelude.{List};
    ghost use Rattle.hlc_rows.specs.declared.write.Write.{Write as AWrite};
    ghost use Rattle.hlc_rows.specs.Spelled.{writes_seen};

    ghost Value = { List AWrite };

    ghost view = { λ writes. writes_seen writes.form };
}

impl<'a> Writes<'a> {
    /// Returns these writes.
    #[inline]
    pub fn of(writes: &'a [Write]) -> Writes<'a>
        ensures { result ≡ writes.now }
    {
        Writes {
            form: Form::Slice(writes),
        }
    }

    /// Returns `count` writes from their bytes: for each a byte of length and the key; and 0 for a deletion mark, or 1,
    /// two bytes of length and the value. What is missing at the end counts as empty: nothing is checked here.
    #[inline]
    pub fn spelled(count: usize, bytes: &'a [u8]) -> Writes<'a>
        ensures { result ≡ writes_in count bytes.now }
    {
        Writes {
            form: Form::Bytes(count, bytes),
        }
    }

    /// Returns the same writes, lent once more.
    #[inline]
    pub fn lend(&self) -> Writes<'a>
        ensures { result ≡ self.now }
    {
        match &self.form {
            Form::Slice(writes) => Writes::of(writes),
            Form::Bytes(count, bytes) => Writes::spelled(*count, bytes),
        }
    }

    /// Returns their number.
    #[inline]
    pub fn len(&self) -> usize
        ensures { result ≡ length self.now }
    {
        match &self.form {
            Form::Slice(writes) => writes.len(),
            Form::Bytes(count, _) => *count,
        }
    }

    /// Returns the first write and the others, or none if there are none.
    #[inline]
    pub fn split_first(self) -> Option<(Written<'a>, Writes<'a>)>
        ensures { MatchOption result (self.entry ≡ []) (λ parts. self.entry ≡ write_seen parts.0 ∷ parts.1) }
    {
        let Writes { form } = self;
        match form {
            Form::Slice(writes) => {
                let (first, others) = writes.split_first()?;
                let first = Written {
                    key: first.key.as_slice(),
                    value: value_slice(&first.value),
                };
                Some((first, Writes::of(others)))
            }
            Form::Bytes(count, bytes) => {
                if count == 0 {
                    return None;
                }
                let (key, rest) = key_in(bytes);
                let (value, rest) = value_in(rest);
                Some((Written { key, value }, Writes::spelled(count - 1, rest)))
            }
        }
    }
}

/// Returns the first `count` bytes, or all, and the others.
#[inline]
fn cut(bytes: &[u8], count: usize) -> (&[u8], &[u8])
    ensures first { result.0.now ≡ take count bytes.now }
    ensures others { result.1.now ≡ drop count bytes.now }
{
    if count <= bytes.len() {
        return bytes.split_at(count);
    }
    (bytes, &[])
}

/// Returns the key at the front of some bytes, and the bytes after it.
#[tactic(auto, unfolding(crate::specs::Spelled::key_in))]
#[inline]
fn key_in(bytes: &[u8]) -> (&[u8], &[u8])
    ensures { (result.0.now, result.1.now) ≡ key_in bytes.now }
{
    match bytes {
        [] => (&[], &[]),
        [count, rest @ ..] => cut(rest, *count as usize),
    }
}

/// Returns the value or deletion mark at the front of some bytes, and the bytes after it.
#[tactic(auto, unfolding(crate::specs::Spelled::value_in))]
#[inline]
fn value_in(bytes: &[u8]) -> (Option<&[u8]>, &[u8])
    ensures { (option_copied result.0, result.1.now) ≡ value_in bytes.now }
{
    match bytes {
        [] => (None, &[]),
        [0, rest @ ..] => (None, rest),
        [_, rest @ ..] => long_in(rest),
    }
}

/// Returns the value at the front of some bytes, after the byte 1, and the bytes after it.
#[tactic(auto, unfolding(crate::specs::Spelled::long_in))]
#[inline]
fn long_in(bytes: &[u8]) -> (Option<&[u8]>, &[u8])
    ensures { (option_copied result.0, result.1.now) ≡ long_in bytes.now }
{
    match bytes {
        [] | [_] => (None, &[]),
        [high, low, rest @ ..] => {
            let (value, rest) = cut(rest, u16::from_be_bytes([*high, *low]) as usize);
            (Some(value), rest)
        }
    }
}
