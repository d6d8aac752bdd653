//! Why stores with one key space refuse a call.
ghost use Rattle.std.specs.Prelude.{◌≡◌};
ghost use Rattle.hlc_routing.specs.Faults.{ranges_code};

use hlc_core::CoreFault;
use hlc_values::NoMemory;
use std::error::Error;
use std::fmt;

/// Why stores with one key space refuse a call.
#[derive(Clone, Copy, PartialEq, Eq, Debug)]
pub enum RangesFault {
    /// There is no such store.
    NoStore,
    /// The key belongs to another store.
    WrongStore,
    /// The store refuses the call, or memory runs out.
    Store(CoreFault),
}

impl RangesFault {
    /// Returns the number of this refusal in outputs: 120, 121, or that of the store's.
    pub fn code(self) -> u32
        ensures { result ≡ ranges_code self }
    {
        match self {
            RangesFault::NoStore => 120,
            RangesFault::WrongStore => 121,
            RangesFault::Store(fault) => fault.code(),
        }
    }
}

impl fmt::Display for RangesFault {
    ghost use Rattle.std.specs.Prelude.{Some};
    ghost use Rattle.hlc_routing.specs.Faults.{ranges_text};

    ghost output = { λ fault. Some (ranges_text fault) };

    fn fmt<W: fmt::Write>(&self, f: &mut fmt::Formatter<W>) -> fmt::Result {
        match self {
            RangesFault::NoStore => f.write_str("there is no such store"),
            RangesFault::WrongStore => f.write_str("the key belongs to another store"),
            RangesFault::Store(fault) => fault.fmt(f),
        }
    }
}

impl Error for RangesFault {}

impl From<NoMemory> for RangesFault {
    ghost use Rattle.hlc_events.specs.declared.fault.CoreFault.TheVariants.{NoMemory};
    ghost use Rattle.hlc_routing.specs.declared.fault.RangesFault.TheVariants.{Store};

    ghost from_gives = { λ _ fault. fault ≡ Store NoMemory };

    fn from(_fault: NoMemory) -> RangesFault {
        RangesFault::Store(CoreFault::NoMemory)
    }
}
