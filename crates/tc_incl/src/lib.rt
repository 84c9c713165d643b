//! Inclusion of schemas: whether each document that is valid for one is valid for another.
//!
//! Cover rows tell all that can matter of trees for two schemas. The closure of `tc_settle` finds those of all trees
//! that are live for the first schema, each at its least number of nodes.
#![tactic(auto)]

mod both;
mod covers;
mod inclusion;
mod kinds;
pub mod laws;
mod over;
mod rows;
mod sides;
mod steps;

pub use inclusion::{Cover, InclFault, included};
