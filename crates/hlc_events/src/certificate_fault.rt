//! Why stored rows have no certificate.
ghost use Rattle.std.specs.Prelude.{◌≡◌};
ghost use Rattle.hlc_events.specs.Faults.{certificate_fault_code, certificate_fault_word};

use crate::fault::CoreFault;
use hlc_values::NoMemory;
use std::error::Error;
use std::fmt;

/// Why the rows at or below a stamp have no certificate.
#[derive(Clone, Copy, PartialEq, Eq, Debug)]
pub enum CertificateFault {
    /// A vacuum to the stamp would be refused, or there is no memory for the certificate.
    Vacuum(CoreFault),
    /// A vacuum to the stamp would drop a row: fewer rows answer alike.
    NotFewest,
}

impl CertificateFault {
    /// Returns the number of this refusal in outputs: 8, 9 or 15, as of a vacuum, or 109.
    pub fn code(self) -> u32
        ensures { result ≡ certificate_fault_code self }
    {
        match self {
            CertificateFault::Vacuum(fault) => fault.code(),
            CertificateFault::NotFewest => 109,
        }
    }

    /// Returns the word of the stamp in this refusal, or 0.
    pub fn word(self) -> u64
        ensures { result ≡ certificate_fault_word self }
    {
        match self {
            CertificateFault::Vacuum(fault) => fault.word(),
            CertificateFault::NotFewest => 0,
        }
    }
}

impl fmt::Display for CertificateFault {
    ghost use Rattle.std.specs.Prelude.{Some};
    ghost use Rattle.hlc_events.specs.Faults.{certificate_fault_text};

    ghost output = { λ fault. Some (certificate_fault_text fault) };

    fn fmt<W: fmt::Write>(&self, f: &mut fmt::Formatter<W>) -> fmt::Result {
        match self {
            CertificateFault::Vacuum(fault) => fault.fmt(f),
            CertificateFault::NotFewest => {
                f.write_str("a row at or below the stamp would be dropped")
            }
        }
    }
}

impl Error for CertificateFault {}

impl From<CoreFault> for CertificateFault {
    ghost use Rattle.hlc_events.specs.declared.certificate_fault.CertificateFault.TheVariants.{Vacuum};

    ghost from_gives = { λ fault made. made ≡ Vacuum fault };

    fn from(fault: CoreFault) -> CertificateFault {
        CertificateFault::Vacuum(fault)
    }
}

impl From<NoMemory> for CertificateFault {
    ghost use Rattle.hlc_events.specs.declared.certificate_fault.CertificateFault.TheVariants.{Vacuum};
    ghost use Rattle.hlc_events.specs.declared.fault.CoreFault.TheVariants.{NoMemory};

    ghost from_gives = { λ _ made. made ≡ Vacuum NoMemory };

    fn from(_fault: NoMemory) -> CertificateFault {
        CertificateFault::Vacuum(CoreFault::NoMemory)
    }
}
