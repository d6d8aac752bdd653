//! What a row stores of its write.
ghost use Rattle.std.specs.Prelude.{◌≡◌, None, option_copied};

use crate::bytes::{Bytes, Storage};
use crate::short::Short;
use std::fmt::{self, Debug, Formatter, Write};
use std::marker::Model;

/// A value, or the mark that there is none. It is as large as a value. In contracts it is an option
/// of the bytes. `new` and `into_value` need no memory.
#[derive(Drop)]
pub struct ValueOrMark {
    storage: StorageOrMark,
}

/// Where the bytes are stored, if there are any.
#[derive(Drop)]
enum StorageOrMark {
    Mark,
    Here(Short),
    There(Vec<u8>),
}

impl Model for ValueOrMark {
    ghost use Rattle.std.specs.Prelude.{Option, List, ℕ};
    ghost use Rattle.std.specs.Coded.{coded_option, coded_list, coded_ℕ};
    ghost use Rattle.hlc_bytes.specs.Storage.{value_of};

    ghost Value = { Option (List ℕ) };

    ghost coded = { coded_option (coded_list coded_ℕ) };

    ghost view = { λ kept. value_of kept.storage };
}

impl Default for ValueOrMark {
    ghost is_default = { λ kept. kept ≡ None };

    fn default() -> ValueOrMark {
        ValueOrMark {
            storage: StorageOrMark::Mark,
        }
    }
}

impl ValueOrMark {
    /// Returns this value, or the mark if there is none.
    #[inline]
    pub fn new(value: Option<Bytes>) -> ValueOrMark
        ensures { result ≡ value }
    {
        let storage = match value {
            None => StorageOrMark::Mark,
            Some(bytes) => match bytes.into_storage() {
                Storage::Here(short) => StorageOrMark::Here(short),
                Storage::There(vec) => StorageOrMark::There(vec),
            },
        };
        ValueOrMark { storage }
    }

    /// Returns the value, or none for the mark.
    #[inline]
    pub fn into_value(self) -> Option<Bytes>
        ensures { result ≡ self }
    {
        let ValueOrMark { storage } = self;
        match storage {
            StorageOrMark::Mark => None,
            StorageOrMark::Here(short) => Some(Bytes::of_storage(Storage::Here(short))),
            StorageOrMark::There(vec) => Some(Bytes::of_storage(Storage::There(vec))),
        }
    }

    /// Returns the bytes of the value, or none for the mark.
    #[inline]
    pub fn as_slice(&self) -> Option<&[u8]>
        ensures { option_copied result ≡ self.now }
    {
        match &self.storage {
            StorageOrMark::Mark => None,
            StorageOrMark::Here(short) => Some(short.as_slice()),
            StorageOrMark::There(vec) => Some(vec.as_slice()),
        }
    }
}

impl Debug for ValueOrMark {
    fn fmt<W: Write>(&self, f: &mut Formatter<W>) -> fmt::Result {
        self.as_slice().fmt(f)
    }
}
