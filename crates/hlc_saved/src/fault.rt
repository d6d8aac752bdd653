//! Why no store is made from some bytes, and why no bytes of a store are read.
ghost use Rattle.std.specs.Prelude.{◌≡◌, Some};
ghost use Rattle.hlc_saved.specs.Faults.{resume_text, saver_code, saver_text};

use hlc_core::RestoreFault;
use hlc_values::NoMemory;
use hlc_wire::WireFault;
use std::error::Error;
use std::fmt;

/// Why no store is made from some bytes.
#[derive(Clone, Copy, Debug, PartialEq, Eq)]
pub enum ResumeError {
    /// Memory ran out.
    NoMemory,
    /// The bytes are no frame, or its body is not an encoding of the parts of a checkpoint.
    Bytes(WireFault),
    /// The parts in the bytes are no checkpoint.
    Parts(RestoreFault),
}

impl fmt::Display for ResumeError {
    ghost output = { λ error. Some (resume_text error) };

    fn fmt<W: fmt::Write>(&self, f: &mut fmt::Formatter<W>) -> fmt::Result {
        match self {
            ResumeError::NoMemory => f.write_str("out of memory"),
            ResumeError::Bytes(fault) => write!(f, "{fault}"),
            ResumeError::Parts(fault) => write!(f, "{fault}"),
        }
    }
}

impl Error for ResumeError {}

impl From<NoMemory> for ResumeError {
    ghost use Rattle.hlc_saved.specs.declared.fault.ResumeError.TheVariants.{NoMemory as no_memory};

    ghost from_gives = { λ _ error. error ≡ no_memory };

    fn from(_error: NoMemory) -> ResumeError {
        ResumeError::NoMemory
    }
}

/// Why no bytes of a store are read.
#[derive(Clone, Copy, Debug, PartialEq, Eq)]
pub enum SaverError {
    /// Memory ran out.
    NoMemory,
    /// The store is not as it was when the saving began.
    Changed,
}

impl SaverError {
    /// Returns the number of this refusal: 15 or 112.
    pub fn code(self) -> u32
        ensures { result ≡ saver_code self }
    {
        match self {
            SaverError::NoMemory => 15,
            SaverError::Changed => 112,
        }
    }
}

impl fmt::Display for SaverError {
    ghost output = { λ error. Some (saver_text error) };

    fn fmt<W: fmt::Write>(&self, f: &mut fmt::Formatter<W>) -> fmt::Result {
        f.write_str(match self {
            SaverError::NoMemory => "out of memory",
            SaverError::Changed => "the store changed since the saving began",
        })
    }
}

impl Error for SaverError {}
