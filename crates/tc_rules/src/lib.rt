//! Which rule fits a node, and what paths select, by states.
//!
//! A path state holds how far the steps of a path have come, going down from a node; it goes on by letters, which are the symbol
//! of an element with the set of predicates that hold there. What the numbers are stands in `tc_model/specs/Numberings.antt`, and
//! that states tell what a stylesheet means in `specs/PathLaws.antt`.
#![tactic(auto)]

mod gather;
mod graph;
mod hints;
mod known_rules;
pub mod laws;
mod mixed;
mod move_table;
mod once;
mod rows;
mod rules;
mod same;
mod search;
mod walk;

pub use known_rules::KnownRules;
pub use rules::{Found, Kind, Marks, Rules, RulesFault};
pub use walk::Job;
