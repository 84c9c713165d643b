// Why a stylesheet is not read.
ghost use Rattle.std.specs.Prelude.{◌≡◌};
ghost use Rattle.tc_sheet.specs.PathFaults.{path_fault_at};

use std::alloc::{AllocError, AllocFailed};
use tc_base::{NoMemory, Place, Why};
use tc_path::PathFault;

/// Why a raw tree is not read as a stylesheet.
#[derive(Clone, Copy, Debug, PartialEq, Eq)]
pub enum SheetFault {
    /// It is no stylesheet, for no other reason.
    Malformed(Place),
    /// A construct stands in it that is not supported.
    Unsupported(Place, Why),
    /// Parentheses and brackets of a select, a pattern or a test stand more than 2,000 deep within one another.
    TooDeep(Place),
    /// A template is called that does not exist.
    Undefined(Place),
    /// A named template calls itself, perhaps by way of others.
    CallLoop(Place),
    /// Memory was refused.
    NoMemory,
}

impl From<AllocError> for SheetFault {
    ghost use Rattle.tc_sheet.specs.declared.faults.SheetFault.TheVariants.{NoMemory};

    ghost from_gives = { λ _ e. e ≡ NoMemory };

    fn from(_error: AllocError) -> SheetFault {
        SheetFault::NoMemory
    }
}

impl<T: Drop> From<AllocFailed<T>> for SheetFault {
    ghost use Rattle.tc_sheet.specs.declared.faults.SheetFault.TheVariants.{NoMemory};

    ghost from_gives = { λ _ e. e ≡ NoMemory };

    fn from(_error: AllocFailed<T>) -> SheetFault {
        SheetFault::NoMemory
    }
}

impl From<NoMemory> for SheetFault {
    ghost use Rattle.tc_sheet.specs.declared.faults.SheetFault.TheVariants.{NoMemory};

    ghost from_gives = { λ _ e. e ≡ NoMemory };

    fn from(_error: NoMemory) -> SheetFault {
        SheetFault::NoMemory
    }
}

/// The fault of an attribute at this place whose value is not read.
pub(crate) fn fault_at(place: Place, fault: PathFault) -> SheetFault
    ensures { result ≡ path_fault_at place fault }
{
    match fault {
        PathFault::Malformed => SheetFault::Malformed(place),
        PathFault::Unsupported(why) => SheetFault::Unsupported(place, why),
        PathFault::TooDeep => SheetFault::TooDeep(place),
        PathFault::NoMemory => SheetFault::NoMemory,
    }
}
