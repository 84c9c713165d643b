// Why a text is refused.
ghost use Rattle.std.specs.Prelude.{◌≡◌, ◌≤◌, ◌-◌, ◌∷◌, [], ℕ, List, length};
ghost use Rattle.tc_base.specs.declared.limits.TheConstants.{LONGEST_FILE};
ghost use Rattle.tc_dtd.specs.Faults.{fault_of};
ghost use Rattle.tc_dtd.specs.Stops.{IsUnexpected};

use std::alloc::{AllocError, AllocFailed};
use tc_base::{NoMemory as OutOfMemory, Place, Why};
use tc_scan::begins;

/// Why a text isn't read as a document type definition.
#[derive(Clone, Copy, Debug, PartialEq, Eq)]
pub enum DtdFault {
    /// It breaks XML 1.0 or Namespaces in XML 1.0.
    Malformed(Place),
    /// It holds a construct that isn't read.
    Unsupported(Place, Why),
    /// A parenthesis stands within 2,000 others.
    TooDeep(Place),
    /// An element is declared that was declared before (XML 1.0, 3.2).
    Twice(Place),
    /// Memory was refused.
    NoMemory,
}

/// Why reading stops, with how many bytes are left there.
#[derive(Clone, Copy)]
pub(crate) enum Stop {
    Malformed(usize),
    Unsupported(usize, Why),
    TooDeep(usize),
    NoMemory,
}

impl From<AllocError> for Stop {
    ghost use Rattle.tc_dtd.specs.declared.faults.Stop.TheVariants.{NoMemory};

    ghost from_gives = { λ _ e. e ≡ NoMemory };

    fn from(_error: AllocError) -> Stop {
        Stop::NoMemory
    }
}

impl<T: Drop> From<AllocFailed<T>> for Stop {
    ghost use Rattle.tc_dtd.specs.declared.faults.Stop.TheVariants.{NoMemory};

    ghost from_gives = { λ _ e. e ≡ NoMemory };

    fn from(_error: AllocFailed<T>) -> Stop {
        Stop::NoMemory
    }
}

impl From<OutOfMemory> for Stop {
    ghost use Rattle.tc_dtd.specs.declared.faults.Stop.TheVariants.{NoMemory};

    ghost from_gives = { λ _ e. e ≡ NoMemory };

    fn from(_error: OutOfMemory) -> Stop {
        Stop::NoMemory
    }
}

impl From<OutOfMemory> for DtdFault {
    ghost use Rattle.tc_dtd.specs.declared.faults.DtdFault.TheVariants.{NoMemory};

    ghost from_gives = { λ _ e. e ≡ NoMemory };

    fn from(_error: OutOfMemory) -> DtdFault {
        DtdFault::NoMemory
    }
}

impl Stop {
    /// The fault of a text of so many bytes.
    pub(crate) fn fault(self, total: usize) -> DtdFault
        requires { total ≤ LONGEST_FILE }
        ensures { result ≡ fault_of total self }
    {
        match self {
            Stop::Malformed(left) => DtdFault::Malformed(place_of(total, left)),
            Stop::Unsupported(left, why) => DtdFault::Unsupported(place_of(total, left), why),
            Stop::TooDeep(left) => DtdFault::TooDeep(place_of(total, left)),
            Stop::NoMemory => DtdFault::NoMemory,
        }
    }
}

/// The place in a text of so many bytes where so many are left.
pub(crate) fn place_of(total: usize, left: usize) -> Place
    requires { total ≤ LONGEST_FILE }
    ensures { result.0 ≡ total - left }
{
    Place(total.saturating_sub(left) as u32)
}

/// What is wrong where no phrase that is due stands: a reference to a parameter entity isn't read, anything else is
/// malformed.
pub(crate) fn unexpected(text: &str) -> Stop
    ensures { IsUnexpected text.now result }
{
    if begins(text, "%") {
        Stop::Unsupported(text.len(), Why::ParameterEntity)
    } else {
        Stop::Malformed(text.len())
    }
}
