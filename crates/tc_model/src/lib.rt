//! Documents, schemas and stylesheets as plain data, and what they mean.
//!
//! The types lie in an arena by borrow. What they mean stands in `specs/`, over the same data without
//! addresses; `specs/Views.antt` leads from the one to the other.
#![tactic(auto)]

pub mod compact_syntax;
pub mod grammar;
pub mod laws;
pub mod lists;
pub mod normal;
pub mod paths;
pub mod sheet;
pub mod sheet_text;
pub mod takers;
pub mod tree;
pub mod xml;

pub use grammar::{ElemPat, Grammar, NameClass, Pat};
pub use lists::{CertData, HedgeLine, HedgeLines, Numbers, PairLists, Pairs, TreeLine, TreeLines};
pub use normal::{is_white_space_only, normalise};
pub use sheet::{Alt, Branch, Instr, NodeTest, Path, Pattern, Rule, Sheet, Step, Test};
pub use takers::TakesTrees;
pub use tree::{Binding, Name, Node, Raw, RawAttr, RawElem};
