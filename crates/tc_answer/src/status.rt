// How a call ends.
ghost use Rattle.std.specs.Prelude.{◌≡◌};

/// How a call ended.
#[derive(Clone, Copy, Debug, PartialEq, Eq)]
pub enum Status {
    /// The answer is yes.
    Yes,
    /// The answer is no.
    No,
    /// The words are no command.
    Usage,
    /// The text of an operand isn't accepted.
    Refused,
    /// A limit was passed.
    Limit,
    /// An operand could not be read.
    ReadFault,
    /// The answer could not be written whole.
    WriteFault,
    /// Memory was refused.
    NoMemory,
}

impl Status {
    ghost use Rattle.tc_answer.specs.StatusSeen.{number_of};

    /// The number with which a program exits: 0 to 7, in the order of the variants.
    pub fn number(self) -> u8
        ensures { result ≡ number_of self }
    {
        self as u8
    }
}
