//! Bytes that are stored in place.
ghost use Rattle.std.specs.Prelude.{◌≡◌, ◌≤◌, length};

use std::marker::Model;

/// The maximum number of bytes that are stored in place, without a heap allocation.
pub const MAX_SHORT_BYTES: usize = 30;

/// At most 30 bytes are stored in place.
pub fn max_short_bytes_are_30()
    ensures { MAX_SHORT_BYTES ≡ 30 }
{}

/// At most 30 bytes, in place. In contracts it is the list of them.
#[derive(Drop)]
pub(crate) struct Short {
    len: u8,
    bytes: [u8; MAX_SHORT_BYTES],
}

impl Model for Short {
    ghost use Rattle.std.specs.Prelude.{List, ℕ, ◌≤◌, take};
    ghost use Rattle.std.specs.Coded.{coded_list, coded_ℕ};

    ghost Value = { List ℕ };

    ghost coded = { coded_list coded_ℕ };

    ghost view = { λ short. take short.len short.bytes };

    ghost invariant = { λ short. short.len ≤ 30 };
}

impl Short {
    /// Copies these bytes.
    #[inline]
    pub(crate) fn of(items: &[u8]) -> Short
        requires { length items.now ≤ 30 }
        ensures { result ≡ items.now }
    {
        let len = items.len();
        let mut bytes = [0; MAX_SHORT_BYTES];
        bytes[..len].copy_from_slice(items);
        Short {
            len: len as u8,
            bytes,
        }
    }

    /// Returns the bytes as a slice.
    #[inline]
    pub(crate) fn as_slice(&self) -> &[u8]
        ensures bytes { result.now ≡ self.now }
        ensures few { length self.now ≤ 30 }
    {
        &self.bytes[..self.len as usize]
    }

    /// Copies the bytes.
    #[inline]
    pub(crate) fn copy(&self) -> Short
        ensures { result ≡ self.now }
    {
        Short {
            len: self.len,
            bytes: self.bytes,
        }
    }
}
