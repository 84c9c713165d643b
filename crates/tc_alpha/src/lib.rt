//! Symbols: the names of elements, by what two schemas and a stylesheet mention of them.
//!
//! A name that is mentioned has a symbol of its own, the other names of a mentioned namespace share one, and
//! so do all names of other namespaces. What the symbols are stands in `tc_model/specs/Symbols.antt`.
#![tactic(auto)]

mod alphabet;
mod mentions;

pub use alphabet::{AlphaFault, Alphabet, Sym, count_of_schema, law_of_symbols};
