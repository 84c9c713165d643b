// Why a question about texts is not decided.
ghost use Rattle.std.specs.Prelude.{◌≡◌};
ghost use Rattle.tc_decide.specs.TextsSeen.{of_text};

use crate::limits::{LONGEST_CERTIFICATE, MOST_ROWS};
use crate::machine::LimitFault;
use tc_base::limits::{LONGEST_TAG, MOST_NAMES, MOST_OPEN, MOST_WORK};
use tc_base::{Limit, NoMemory, Place};
use tc_cert::CertWriteFault;
use tc_incl::InclFault;
use tc_read::{Reason, TextFault};
use tc_run::RunFault;
use tc_stream::StreamFault;

/// Which of the texts.
#[derive(Clone, Copy, Debug, PartialEq, Eq)]
pub enum Which {
    /// The input schema, or the first of two that are compared.
    Input,
    /// The output schema, or the second of two that are compared.
    Output,
    /// The stylesheet.
    Sheet,
    /// The document.
    Document,
}

/// What is counted of rows.
#[derive(Clone, Copy, Debug, PartialEq, Eq)]
pub enum RowCount {
    /// Rows of live trees.
    Trees,
    /// Rows of live lists of trees.
    Hedges,
    /// Sets of pairs of states of the output in them.
    Outputs,
}

/// What is measured of a document that comes in pieces.
#[derive(Clone, Copy, Debug, PartialEq, Eq)]
pub enum PieceMeasure {
    /// The bytes of a tag.
    Tag,
    /// The bytes of the names of the open elements.
    Names,
}

/// What passes its limit.
#[derive(Clone, Copy, Debug, PartialEq, Eq)]
pub enum Kind {
    /// A count of what the texts spell, which is tried before rows are.
    Texts(Limit),
    /// A count of rows.
    Rows(RowCount),
    /// The nodes of the least document that could be shown.
    Nodes,
    /// The bytes of a certificate's text.
    Certificate,
    /// The work of a run.
    Work,
    /// The bodies and instructions of a run that stand within one another.
    Open,
    /// A measure of a document that comes in pieces.
    Pieces(PieceMeasure),
}

/// Why nothing is decided.
#[derive(Clone, Copy, Debug, PartialEq, Eq)]
pub enum Failure {
    /// This text is refused, for this reason, with the number of bytes before the construct.
    Refused(Which, Reason, Place),
    /// This passes its limit, which has this number.
    Passes(Kind, u32),
    /// Memory was refused.
    NoMemory,
}

impl From<NoMemory> for Failure {
    ghost use Rattle.std.specs.Prelude.{◌≡◌};
    ghost use Rattle.tc_decide.specs.declared.failure.Failure.TheVariants.{NoMemory};

    ghost from_gives = { λ _ e. e ≡ NoMemory };

    fn from(_error: NoMemory) -> Failure {
        Failure::NoMemory
    }
}

impl From<LimitFault> for Failure {
    ghost use Rattle.std.specs.Prelude.{◌≡◌};
    ghost use Rattle.tc_decide.specs.TextsSeen.{of_limit};

    ghost from_gives = { λ fault e. e ≡ of_limit fault };

    fn from(fault: LimitFault) -> Failure {
        match fault {
            LimitFault::Passes(kind, number) => Failure::Passes(Kind::Texts(kind), number),
            LimitFault::NoMemory => Failure::NoMemory,
        }
    }
}

impl From<CertWriteFault> for Failure {
    ghost use Rattle.std.specs.Prelude.{◌≡◌};
    ghost use Rattle.tc_decide.specs.TextsSeen.{of_write};

    ghost from_gives = { λ fault e. e ≡ of_write fault };

    fn from(fault: CertWriteFault) -> Failure {
        match fault {
            CertWriteFault::TooLong => Failure::Passes(Kind::Certificate, LONGEST_CERTIFICATE),
            CertWriteFault::NoMemory => Failure::NoMemory,
        }
    }
}

impl From<RunFault> for Failure {
    ghost use Rattle.std.specs.Prelude.{◌≡◌};
    ghost use Rattle.tc_decide.specs.RunningSeen.{of_run};

    ghost from_gives = { λ fault e. e ≡ of_run fault };

    fn from(fault: RunFault) -> Failure {
        match fault {
            RunFault::TooMuchWork => Failure::Passes(Kind::Work, MOST_WORK),
            RunFault::TooOpen => Failure::Passes(Kind::Open, MOST_OPEN),
            RunFault::NoMemory => Failure::NoMemory,
        }
    }
}

impl From<StreamFault> for Failure {
    ghost use Rattle.std.specs.Prelude.{◌≡◌};
    ghost use Rattle.tc_decide.specs.PiecesSeen.{of_stream};

    ghost from_gives = { λ fault e. e ≡ of_stream fault };

    fn from(fault: StreamFault) -> Failure {
        match fault {
            StreamFault::Malformed(place) => {
                Failure::Refused(Which::Document, Reason::Malformed, place)
            }
            StreamFault::Unsupported(place, why) => {
                Failure::Refused(Which::Document, Reason::Unsupported(why), place)
            }
            StreamFault::TooDeep(place) => {
                Failure::Refused(Which::Document, Reason::TooDeep, place)
            }
            StreamFault::TagTooLong => {
                Failure::Passes(Kind::Pieces(PieceMeasure::Tag), LONGEST_TAG as u32)
            }
            StreamFault::NamesTooLong => {
                Failure::Passes(Kind::Pieces(PieceMeasure::Names), MOST_NAMES as u32)
            }
        }
    }
}

impl From<InclFault> for Failure {
    ghost use Rattle.std.specs.Prelude.{◌≡◌};
    ghost use Rattle.tc_decide.specs.ComparingSeen.{of_covers};

    ghost from_gives = { λ fault e. e ≡ of_covers fault };

    fn from(fault: InclFault) -> Failure {
        match fault {
            InclFault::TooManyTrees => Failure::Passes(Kind::Rows(RowCount::Trees), MOST_ROWS),
            InclFault::TooManyHedges => Failure::Passes(Kind::Rows(RowCount::Hedges), MOST_ROWS),
            InclFault::NoMemory => Failure::NoMemory,
        }
    }
}

/// Why a text is not accepted, by the fault of its reader.
pub(crate) fn unaccepted(which: Which, fault: TextFault) -> Failure
    ensures { result ≡ of_text which fault }
{
    match fault {
        TextFault::Refused(reason, place) => Failure::Refused(which, reason, place),
        TextFault::NoMemory => Failure::NoMemory,
    }
}
