//! A key or a value.
ghost use Rattle.std.specs.Prelude.{◌≡◌, ◌==◌, ◌<◌, ◌≤◌, ◌^◌, ℕ, length, option_copied, IsOk, IfOk, MatchResult};
ghost use Rattle.std.{proofs.Common.rules, specs.Iterator.Runs.EveryRun, specs.Iterator.Runs.ItemsMapTo};
ghost use Rattle.std.specs.Cmp.{Rules.comparing, Lexicographic.lists_per, Lexicographic.lists_equiv};
ghost use Rattle.std.specs.{Slice.Iter.iter_rest, Slice.Iter.iter_steps, Str.bytes_eq};
ghost use Rattle.hlc_bytes.specs.Storage.{bytes_of};

use crate::short::{MAX_SHORT_BYTES, Short};
use hlc_values::NoMemory;
use std::alloc::{AllocFailed, Global};
use std::fmt::{Debug, Formatter, Write};
use std::marker::Model;
use std::{fmt, slice};

/// A key or a value. In contracts it is the list of its bytes.
///
/// Up to 30 bytes are stored in place, without a heap allocation. Bytes that are made from a vector
/// keep that vector, however short it is, and return it.
#[derive(Drop)]
pub struct Bytes {
    storage: Storage,
}

/// Where the bytes are stored.
#[derive(Drop)]
pub(crate) enum Storage {
    Here(Short),
    There(Vec<u8>),
}

impl Model for Bytes {
    ghost use Rattle.std.specs.Prelude.{List, ℕ};
    ghost use Rattle.std.specs.Coded.{coded_list, coded_ℕ};
    ghost use Rattle.hlc_bytes.specs.Storage.{bytes_of};

    ghost Value = { List ℕ };

    ghost coded = { coded_list coded_ℕ };

    ghost view = { λ bytes. bytes_of bytes.storage };
}

impl Bytes {
    /// Copies these bytes. Up to 30 bytes need no memory, so copying them is never refused.
    #[inline]
    pub fn from_slice(alloc: Global, bytes: &[u8]) -> Result<Bytes, NoMemory>
        ensures bytes { IfOk result (λ copy. copy ≡ bytes.now) }
        ensures short { length bytes.now ≤ 30 → IsOk result }
    {
        if bytes.len() <= MAX_SHORT_BYTES {
            return Ok(Bytes {
                storage: Storage::Here(Short::of(bytes)),
            });
        }
        let storage = Storage::There(Vec::from_slice(alloc, bytes)?);
        Ok(Bytes { storage })
    }

    /// Returns the bytes that are stored there.
    #[inline]
    pub(crate) fn of_storage(storage: Storage) -> Bytes
        ensures { result ≡ bytes_of storage }
    {
        Bytes { storage }
    }

    /// Returns where the bytes are stored.
    #[inline]
    pub(crate) fn into_storage(self) -> Storage
        ensures { bytes_of result ≡ self }
    {
        let Bytes { storage } = self;
        storage
    }

    /// Returns the bytes of a vector, which keep that vector.
    pub fn from_vec(storage: Vec<u8>) -> Bytes
        ensures { result ≡ storage.items }
    {
        let storage = Storage::There(storage);
        Bytes { storage }
    }

    /// Returns a vector of the bytes: the vector that they were made from, or a new one if the bytes are stored in
    /// place. Only a new one needs memory; if there is none, the error returns the bytes.
    pub fn into_vec(self, alloc: Global) -> Result<Vec<u8>, AllocFailed<Bytes>>
        ensures bytes { MatchResult result (λ vec. vec.items ≡ self) (λ refused. refused.value ≡ self) }
        ensures long { 30 < length self → IsOk result }
    {
        let Bytes { storage } = self;
        match storage {
            Storage::There(vec) => Ok(vec),
            Storage::Here(short) => match Vec::from_slice(alloc, short.as_slice()) {
                Ok(vec) => Ok(vec),
                Err(_) => Err(AllocFailed {
                    value: Bytes {
                        storage: Storage::Here(short),
                    },
                }),
            },
        }
    }

    /// Returns the bytes as a slice.
    #[inline]
    pub fn as_slice(&self) -> &[u8]
        ensures { result.now ≡ self.now }
    {
        match &self.storage {
            Storage::Here(short) => short.as_slice(),
            Storage::There(vec) => vec.as_slice(),
        }
    }

    /// Returns the number of bytes.
    #[inline]
    pub fn len(&self) -> usize
        ensures { result ≡ length self.now }
    {
        self.as_slice().len()
    }

    /// Returns whether there are no bytes.
    #[inline]
    pub fn is_empty(&self) -> bool
        ensures { result ≡ (length self.now == 0) }
    {
        self.as_slice().is_empty()
    }

    /// Returns an iterator of the bytes in order.
    pub fn iter(&self) -> slice::Iter<'_, u8>
        ensures { iter_rest result ≡ self.now }
    {
        self.as_slice().iter()
    }
}

/// Returns the bytes of a value, or none for a deletion mark.
#[inline]
pub fn value_slice(value: &Option<Bytes>) -> Option<&[u8]>
    ensures { option_copied result ≡ value.now }
{
    match value {
        None => None,
        Some(bytes) => Some(bytes.as_slice()),
    }
}

impl<'a> IntoIterator for &'a Bytes {
    type Item = &'a u8;

    type IntoIter = slice::Iter<'a, u8>;

    ghost into_iter_gives = { λ v it. (iter_rest it ≡ v.now) × (length (iter_rest it) < 2 ^ 64)
        × EveryRun (iter_steps {A = ℕ}) (λ p. ItemsMapTo p (λ x. x.now) (iter_rest p.from)) };

    fn into_iter(self) -> slice::Iter<'a, u8> {
        self.as_slice().iter()
    }
}

impl Clone for Bytes {
    ghost is_clone = { λ bytes copy. copy ≡ bytes };

    ghost is_infallible = { λ bytes. length bytes ≤ 30 };

    fn clone(&self) -> Result<Bytes, NoMemory> {
        match &self.storage {
            Storage::Here(short) => Ok(Bytes {
                storage: Storage::Here(short.copy()),
            }),
            Storage::There(vec) => Bytes::from_slice(*vec.allocator(), vec.as_slice()),
        }
    }
}

impl PartialEq for Bytes {
    ghost eq = { bytes_eq };

    ghost laws = { lists_per (Prim.search (comparing, rules)) };

    fn eq(&self, other: &Bytes) -> bool {
        self.as_slice() == other.as_slice()
    }
}

impl Eq for Bytes {
    ghost laws = { lists_equiv (Prim.search (comparing, rules)) };
}

impl Debug for Bytes {
    fn fmt<W: Write>(&self, f: &mut Formatter<W>) -> fmt::Result {
        self.as_slice().fmt(f)
    }
}
