// Why a syntax tree has no grammar.
use tc_base::{NoMemory, Place};

/// Why a syntax tree has no grammar, or one that is too large. The variants stand in the order in which
/// they are tried.
#[derive(Clone, Copy, Debug, PartialEq, Eq)]
pub enum SimpleFault {
    /// A definition that clashes with an earlier one of its name (RELAX NG, 4.17).
    Twice(Place),
    /// A reference without a definition; the text's end where `start` has none (RELAX NG, 4.18).
    Undefined(Place),
    /// A reference that reaches itself without passing an element (RELAX NG, 4.19).
    Loop(Place),
    /// A wildcard within an except that may not hold it (RELAX NG, 4.16).
    BadExcept(Place),
    /// The first definition of a `start` that is no choice of elements (RELAX NG, 7.1.5).
    BadStart(Place),
    /// More than 65,536 nodes of patterns.
    TooManyNodes,
    /// Patterns that nest deeper than 2,000.
    TooNested,
    /// More than 256 element patterns.
    TooManyElements,
    /// Memory was refused.
    NoMemory,
}

impl From<NoMemory> for SimpleFault {
    ghost use Rattle.std.specs.Prelude.{◌≡◌};
    ghost use Rattle.tc_simple.specs.declared.faults.SimpleFault.TheVariants.{NoMemory};

    ghost from_gives = { λ _ e. e ≡ NoMemory };

    fn from(_error: NoMemory) -> SimpleFault {
        SimpleFault::NoMemory
    }
}
