//! Reads schemas in RELAX NG's compact syntax, exactly (OASIS, RELAX NG Compact Syntax, 2002; ISO/IEC 19757-2, Annex C).
//!
//! Read are declarations, elements, attributes, `text`, `empty`, `notAllowed`, `mixed`, references, groups, choices and interleaves
//! with their suffixes, name classes, definitions, `div`, and `grammar` around the whole. Of an attribute nothing is kept, and in its
//! braces nothing is asked but that braces match. What is not read has a reason of its own: datatypes and values, `list`,
//! `external`, `include`, `grammar` within a pattern, `parent`, `inherit`, annotations, characters by their code, literals in three
//! quotes, and joined literals.
#![tactic(auto)]

mod classes;
mod declarations;
mod definitions;
mod faults;
mod front;
mod lexing;
mod marks;
mod parser;
mod patterns;
mod reading;
mod schema;
mod scopes;
mod syntax;
mod tokens;
mod wildcards;
mod words;

pub use faults::RncFault;
pub use reading::{law_of_texts, read_rnc};
pub use syntax::{Def, Joins, SClass, SPat, Syntax};
