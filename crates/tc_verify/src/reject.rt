// What is told of a certificate that doesn't hold.
use tc_base::NoMemory;

/// A rule of certificates, in the order in which they are tried.
#[derive(Clone, Copy, Debug, PartialEq, Eq)]
pub enum RejectRule {
    /// The text has the form of a certificate's. It is told by the reader of the text alone.
    Form,
    /// The numbers of each line are in range, and its lists have their lengths.
    Fit,
    /// The row of no tree is listed.
    Empty,
    /// The row of a text is listed, where a text may stand in the input.
    Text,
    /// What a listed tree behind a listed list of trees makes is listed, where it may stand in the input.
    Append,
    /// What an element around a listed list of trees makes is listed, where it may stand in the input.
    Wrap,
    /// The result of each document of a listed row is valid.
    Root,
}

/// The first rule that doesn't hold, and where.
#[derive(Clone, Copy, Debug, PartialEq, Eq)]
pub struct Reject {
    /// The line, from 1, of the output, the tree or the list of trees that breaks the rule, or 0 where no line does.
    pub line: u32,
    /// The rule.
    pub rule: RejectRule,
    /// The line of the tree that is put behind, or the number of the symbol that is put around; else 0.
    pub other: u32,
}

/// Why a certificate isn't accepted.
#[derive(Clone, Copy, Debug, PartialEq, Eq)]
pub enum VerifyFault {
    /// A rule doesn't hold.
    Rejected(Reject),
    /// Memory was refused.
    NoMemory,
}

impl From<NoMemory> for VerifyFault {
    ghost use Rattle.std.specs.Prelude.{◌≡◌};
    ghost use Rattle.tc_verify.specs.declared.reject.VerifyFault.TheVariants.{NoMemory};

    ghost from_gives = { λ _ e. e ≡ NoMemory };

    fn from(_error: NoMemory) -> VerifyFault {
        VerifyFault::NoMemory
    }
}
