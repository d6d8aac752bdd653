//! What a write may be, and why an item's body is refused.
ghost use Rattle.std.specs.Prelude.{◌≡◌, option_copied};
ghost use Rattle.hlc_rows.specs.{Limits.write_refusal, Faults.body_code};
ghost use Rattle.hlc_rows.specs.declared.limits.TheConstants.{
  MAX_KEY_BYTES,
  MAX_VALUE_BYTES,
  MAX_WRITES,
};

use std::error::Error;
use std::fmt;

/// The maximum number of bytes of a key.
pub const MAX_KEY_BYTES: usize = 255;

/// The maximum number of bytes of a value.
pub const MAX_VALUE_BYTES: usize = 65_535;

/// The maximum number of writes of a batch.
pub const MAX_WRITES: usize = 256;

/// A key has at most 255 bytes.
pub fn max_key_bytes_are_255()
    ensures { MAX_KEY_BYTES ≡ 255 }
{}

/// A value has at most 65,535 bytes.
pub fn max_value_bytes_are_65535()
    ensures { MAX_VALUE_BYTES ≡ 65535 }
{}

/// A batch has at most 256 writes.
pub fn max_writes_are_256()
    ensures { MAX_WRITES ≡ 256 }
{}

/// Why no item may have this body.
#[derive(Clone, Copy, PartialEq, Eq, Debug)]
pub enum BodyFault {
    /// The key has no bytes, or more than 255.
    BadKey,
    /// The value has more than 65,535 bytes.
    ValueTooLong,
    /// The batch has no writes.
    NoWrites,
    /// The batch has more than 256 writes.
    TooManyWrites,
    /// Two writes of the batch are of one key.
    KeyTwice,
}

impl BodyFault {
    /// Returns the number of this refusal: 12, 13, 28, 29 or 30.
    pub fn code(self) -> u32
        ensures { result ≡ body_code self }
    {
        match self {
            BodyFault::BadKey => 12,
            BodyFault::ValueTooLong => 13,
            BodyFault::NoWrites => 28,
            BodyFault::TooManyWrites => 29,
            BodyFault::KeyTwice => 30,
        }
    }
}

impl fmt::Display for BodyFault {
    ghost use Rattle.std.specs.Prelude.{Some};
    ghost use Rattle.hlc_rows.specs.Faults.{body_text};

    ghost output = { λ fault. Some (body_text fault) };

    fn fmt<W: fmt::Write>(&self, f: &mut fmt::Formatter<W>) -> fmt::Result {
        match self {
            BodyFault::BadKey => f.write_str("the key is empty or longer than 255 bytes"),
            BodyFault::ValueTooLong => f.write_str("the value is longer than 65,535 bytes"),
            BodyFault::NoWrites => f.write_str("the batch has no writes"),
            BodyFault::TooManyWrites => f.write_str("the batch has more than 256 writes"),
            BodyFault::KeyTwice => f.write_str("the batch writes a key twice"),
        }
    }
}

impl Error for BodyFault {}

/// Returns the first reason to refuse a write of this value, or deletion mark, to this key.
#[inline]
pub fn write_fault(key: &[u8], value: Option<&[u8]>) -> Option<BodyFault>
    ensures { result ≡ write_refusal key.now (option_copied value.entry) }
{
    if key.is_empty() || key.len() > MAX_KEY_BYTES {
        return Some(BodyFault::BadKey);
    }
    match value {
        Some(bytes) if bytes.len() > MAX_VALUE_BYTES => Some(BodyFault::ValueTooLong),
        _ => None,
    }
}
