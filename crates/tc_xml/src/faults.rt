// Why a text is refused.
ghost use Rattle.std.specs.Prelude.{◌≡◌, ◌≤◌, ◌-◌};
ghost use Rattle.tc_base.specs.declared.limits.TheConstants.{LONGEST_FILE};
ghost use Rattle.tc_xml.specs.Faults.{fault_of};

use std::alloc::{AllocError, AllocFailed};
use tc_base::{NoMemory as OutOfMemory, Place, Why};

/// Why a text is no XML document of the kind that is read.
#[derive(Clone, Copy, Debug, PartialEq, Eq)]
pub enum XmlFault {
    /// It breaks XML 1.0 or Namespaces in XML 1.0.
    Malformed(Place),
    /// It holds a construct that isn't read.
    Unsupported(Place, Why),
    /// An element stands within 2,000 others.
    TooDeep(Place),
    /// Memory was refused.
    NoMemory,
}

/// Why reading stops, with how many bytes are left there.
#[derive(Clone, Copy)]
pub(crate) enum Stop {
    Malformed(usize),
    Unsupported(usize, Why),
    TooDeep(usize),
    NoMemory,
}

impl From<AllocError> for Stop {
    ghost use Rattle.tc_xml.specs.declared.faults.Stop.TheVariants.{NoMemory};

    ghost from_gives = { λ _ e. e ≡ NoMemory };

    fn from(_error: AllocError) -> Stop {
        Stop::NoMemory
    }
}

impl<T: Drop> From<AllocFailed<T>> for Stop {
    ghost use Rattle.tc_xml.specs.declared.faults.Stop.TheVariants.{NoMemory};

    ghost from_gives = { λ _ e. e ≡ NoMemory };

    fn from(_error: AllocFailed<T>) -> Stop {
        Stop::NoMemory
    }
}

impl From<OutOfMemory> for Stop {
    ghost use Rattle.tc_xml.specs.declared.faults.Stop.TheVariants.{NoMemory};

    ghost from_gives = { λ _ e. e ≡ NoMemory };

    fn from(_error: OutOfMemory) -> Stop {
        Stop::NoMemory
    }
}

impl Stop {
    /// The fault of a text of so many bytes.
    pub(crate) fn fault(self, total: usize) -> XmlFault
        requires { total ≤ LONGEST_FILE }
        ensures { result ≡ fault_of total self }
    {
        match self {
            Stop::Malformed(left) => XmlFault::Malformed(place_of(total, left)),
            Stop::Unsupported(left, why) => XmlFault::Unsupported(place_of(total, left), why),
            Stop::TooDeep(left) => XmlFault::TooDeep(place_of(total, left)),
            Stop::NoMemory => XmlFault::NoMemory,
        }
    }
}

/// The place in a text of so many bytes where so many are left.
pub(crate) fn place_of(total: usize, left: usize) -> Place
    requires { total ≤ LONGEST_FILE }
    ensures { result.0 ≡ total - left }
{
    Place(total.saturating_sub(left) as u32)
}
