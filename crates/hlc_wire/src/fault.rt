//! Why bytes are not read or written.
ghost use Rattle.std.specs.Prelude.{◌≡◌, Some};
ghost use Rattle.hlc_wire.specs.Faults.{fault_code, fault_text, decode_text, encode_text};

use hlc_node::BodyFault;
use std::alloc::{AllocError, AllocFailed};
use std::error::Error;
use std::fmt;

/// What is wrong with some bytes: the first fault from the left.
#[derive(Clone, Copy, Debug, PartialEq, Eq)]
pub enum WireFault {
    /// The bytes end within a field.
    Short,
    /// The first byte is not the version, which is 1.
    Version,
    /// The byte for the kind of item has no meaning.
    Kind,
    /// A key has no bytes.
    EmptyKey,
    /// A flag is neither 0 nor 1.
    Flag,
    /// Bytes follow the last field.
    Trailing,
    /// The digest at the end is not that of the bytes before it. No reader of this crate returns it.
    Damaged,
}

/// Why nothing was read.
#[derive(Clone, Copy, Debug, PartialEq, Eq)]
pub enum DecodeError {
    /// Memory ran out.
    NoMemory,
    /// The bytes are not an encoding.
    Fault(WireFault),
}

/// Why nothing was written.
#[derive(Clone, Copy, Debug, PartialEq, Eq)]
pub enum EncodeError {
    /// No item may have this body.
    BadBody(BodyFault),
    /// Memory ran out.
    NoMemory,
}

impl WireFault {
    /// Returns the number of the fault in outputs: 1 to 7, in the order of the variants.
    pub fn code(self) -> u32
        ensures { result ≡ fault_code self }
    {
        match self {
            WireFault::Short => 1,
            WireFault::Version => 2,
            WireFault::Kind => 3,
            WireFault::EmptyKey => 4,
            WireFault::Flag => 5,
            WireFault::Trailing => 6,
            WireFault::Damaged => 7,
        }
    }
}

impl fmt::Display for WireFault {
    ghost output = { λ fault. Some (fault_text fault) };

    fn fmt<W: fmt::Write>(&self, f: &mut fmt::Formatter<W>) -> fmt::Result {
        f.write_str(match self {
            WireFault::Short => "the bytes end within a field",
            WireFault::Version => "the version is not 1",
            WireFault::Kind => "the kind of item is not known",
            WireFault::EmptyKey => "a key has no bytes",
            WireFault::Flag => "a flag is neither 0 nor 1",
            WireFault::Trailing => "bytes follow the last field",
            WireFault::Damaged => "the digest at the end is not that of the bytes before it",
        })
    }
}

impl fmt::Display for DecodeError {
    ghost output = { λ error. Some (decode_text error) };

    fn fmt<W: fmt::Write>(&self, f: &mut fmt::Formatter<W>) -> fmt::Result {
        match self {
            DecodeError::NoMemory => f.write_str("out of memory"),
            DecodeError::Fault(fault) => write!(f, "{fault}"),
        }
    }
}

impl fmt::Display for EncodeError {
    ghost output = { λ error. Some (encode_text error) };

    fn fmt<W: fmt::Write>(&self, f: &mut fmt::Formatter<W>) -> fmt::Result {
        match self {
            EncodeError::BadBody(fault) => write!(f, "{fault}"),
            EncodeError::NoMemory => f.write_str("out of memory"),
        }
    }
}

impl Error for WireFault {}

impl Error for DecodeError {}

impl Error for EncodeError {}

impl From<WireFault> for DecodeError {
    ghost use Rattle.hlc_wire.specs.declared.fault.DecodeError.TheVariants.{Fault};

    ghost from_gives = { λ fault error. error ≡ Fault fault };

    fn from(fault: WireFault) -> DecodeError {
        DecodeError::Fault(fault)
    }
}

impl From<AllocError> for DecodeError {
    ghost use Rattle.hlc_wire.specs.declared.fault.DecodeError.TheVariants.{NoMemory};

    ghost from_gives = { λ _ error. error ≡ NoMemory };

    fn from(_error: AllocError) -> DecodeError {
        DecodeError::NoMemory
    }
}

impl<T: Drop> From<AllocFailed<T>> for DecodeError {
    ghost use Rattle.hlc_wire.specs.declared.fault.DecodeError.TheVariants.{NoMemory};

    ghost from_gives = { λ _ error. error ≡ NoMemory };

    fn from(_error: AllocFailed<T>) -> DecodeError {
        DecodeError::NoMemory
    }
}

impl From<AllocError> for EncodeError {
    ghost use Rattle.hlc_wire.specs.declared.fault.EncodeError.TheVariants.{NoMemory as no_memory};

    ghost from_gives = { λ _ error. error ≡ no_memory };

    fn from(_error: AllocError) -> EncodeError {
        EncodeError::NoMemory
    }
}
