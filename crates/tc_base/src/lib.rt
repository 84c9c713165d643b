//! What every part of the program shares: places in a text, reasons of a refusal, limits, characters, a cursor.
#![tactic(auto)]

mod characters;
pub mod limits;
mod reading;
mod reasons;

pub use characters::{is_char, is_name_char, is_name_start, is_white};
pub use reading::Cursor;
pub use reasons::{Refusal, Why};
use std::alloc::{AllocError, AllocFailed};

/// Memory was refused.
#[derive(Clone, Copy, Debug, PartialEq, Eq)]
pub struct NoMemory;

impl From<AllocError> for NoMemory {
    fn from(_error: AllocError) -> NoMemory {
        NoMemory
    }
}

impl<T: Drop> From<AllocFailed<T>> for NoMemory {
    fn from(_error: AllocFailed<T>) -> NoMemory {
        NoMemory
    }
}

/// A place in a text: the number of bytes before it.
#[derive(Clone, Copy, Debug, PartialEq, Eq)]
pub struct Place(pub u32);

/// A bound on the sizes of what two schemas and a stylesheet lead to, in the order in which the bounds are tried. Their
/// numbers stand in [`limits`].
#[derive(Clone, Copy, Debug, PartialEq, Eq)]
pub enum Limit {
    /// Nodes of patterns in one schema.
    Pattern,
    /// How deep the patterns of a schema nest.
    Depth,
    /// Element patterns of one schema.
    Elements,
    /// States of the input schema, or of the output schema.
    States,
    /// Symbols of the alphabet.
    Symbols,
    /// Predicates of the stylesheet.
    Predicates,
    /// Ancestor states.
    Ancestors,
    /// Move states and look states together.
    Selects,
    /// How deep instructions stand within one another, called bodies within their calls.
    Calls,
    /// Entries of a row: ancestor states times move states, plus look states.
    Entries,
}
