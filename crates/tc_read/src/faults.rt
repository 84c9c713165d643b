// Why a text has no meaning.
ghost use Rattle.std.specs.Prelude.{◌≡◌, ◌++◌};

use tc_base::{NoMemory, Place, Why};
use tc_rnc::RncFault;
use tc_sheet::SheetFault;
use tc_xml::XmlFault;

/// Why a text is refused.
#[derive(Clone, Copy, Debug, PartialEq, Eq)]
pub enum Reason {
    /// It is not well-formed.
    Malformed,
    /// It holds a construct that isn't read.
    Unsupported(Why),
    /// Something stands in it too deep.
    TooDeep,
    /// A reference of a schema has no definition, or a call of a stylesheet no template.
    Undefined,
    /// A name of a schema is defined twice.
    Twice,
    /// A definition of a schema refers to itself.
    Loop,
    /// A schema's start is no element.
    BadStart,
    /// A wildcard of a schema stands where it may not.
    BadExcept,
    /// A call of a stylesheet leads back to its template.
    CallLoop,
}

impl Reason {
    ghost use Rattle.tc_read.specs.Refusals.{reason_text};

    /// The words of the reason, in two parts.
    pub fn words(self) -> (&'static str, &'static str)
        ensures { result.0.now ++ result.1.now ≡ reason_text self }
    {
        match self {
            Reason::Malformed => ("malformed", ""),
            Reason::Unsupported(why) => ("unsupported ", why.word()),
            Reason::TooDeep => ("too-deep", ""),
            Reason::Undefined => ("undefined", ""),
            Reason::Twice => ("twice", ""),
            Reason::Loop => ("loop", ""),
            Reason::BadStart => ("bad-start", ""),
            Reason::BadExcept => ("bad-except", ""),
            Reason::CallLoop => ("call-loop", ""),
        }
    }
}

/// Why a text has no meaning.
#[derive(Clone, Copy, Debug, PartialEq, Eq)]
pub enum TextFault {
    /// It is refused, with the number of bytes before the construct.
    Refused(Reason, Place),
    /// Memory was refused.
    NoMemory,
}

impl From<NoMemory> for TextFault {
    ghost use Rattle.std.specs.Prelude.{◌≡◌};
    ghost use Rattle.tc_read.specs.declared.faults.TextFault.TheVariants.{NoMemory};

    ghost from_gives = { λ _ e. e ≡ NoMemory };

    fn from(_fault: NoMemory) -> TextFault {
        TextFault::NoMemory
    }
}

impl From<XmlFault> for TextFault {
    ghost use Rattle.std.specs.Prelude.{◌≡◌};
    ghost use Rattle.tc_read.specs.Faults.{of_xml};

    ghost from_gives = { λ fault e. e ≡ of_xml fault };

    fn from(fault: XmlFault) -> TextFault {
        match fault {
            XmlFault::Malformed(place) => TextFault::Refused(Reason::Malformed, place),
            XmlFault::Unsupported(place, why) => {
                TextFault::Refused(Reason::Unsupported(why), place)
            }
            XmlFault::TooDeep(place) => TextFault::Refused(Reason::TooDeep, place),
            XmlFault::NoMemory => TextFault::NoMemory,
        }
    }
}

impl From<RncFault> for TextFault {
    ghost use Rattle.std.specs.Prelude.{◌≡◌};
    ghost use Rattle.tc_read.specs.Faults.{of_rnc};

    ghost from_gives = { λ fault e. e ≡ of_rnc fault };

    fn from(fault: RncFault) -> TextFault {
        match fault {
            RncFault::Malformed(place) => TextFault::Refused(Reason::Malformed, place),
            RncFault::Unsupported(place, why) => {
                TextFault::Refused(Reason::Unsupported(why), place)
            }
            RncFault::TooDeep(place) => TextFault::Refused(Reason::TooDeep, place),
            RncFault::NoMemory => TextFault::NoMemory,
        }
    }
}

impl From<SheetFault> for TextFault {
    ghost use Rattle.std.specs.Prelude.{◌≡◌};
    ghost use Rattle.tc_read.specs.Faults.{of_sheet};

    ghost from_gives = { λ fault e. e ≡ of_sheet fault };

    fn from(fault: SheetFault) -> TextFault {
        match fault {
            SheetFault::Malformed(place) => TextFault::Refused(Reason::Malformed, place),
            SheetFault::Unsupported(place, why) => {
                TextFault::Refused(Reason::Unsupported(why), place)
            }
            SheetFault::TooDeep(place) => TextFault::Refused(Reason::TooDeep, place),
            SheetFault::Undefined(place) => TextFault::Refused(Reason::Undefined, place),
            SheetFault::CallLoop(place) => TextFault::Refused(Reason::CallLoop, place),
            SheetFault::NoMemory => TextFault::NoMemory,
        }
    }
}
