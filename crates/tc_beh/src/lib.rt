//! What rows are worked out by: a machine of two schemas and a stylesheet, and the pairs of states of the output schema that
//! bodies put out on a node.
//!
//! The row of a tree or of a list of trees tells where it may stand in the input, and what a stylesheet makes of it in each place
//! (`tc_rows`).
#![tactic(auto)]

mod above;
mod alike;
mod append;
mod bodies;
mod bundles;
mod calls;
mod empty;
mod entries;
mod guesses;
mod held_sets;
mod laws;
mod leads;
mod lines;
mod links;
mod lists;
mod looks;
mod looks_above;
mod machine;
mod met_sets;
mod named;
mod node_tests;
mod open_sets;
mod outputs;
mod patterns;
mod places;
mod products;
mod rooms;
mod root;
mod rows;
mod runs;
mod set_list;
mod sets;
mod symbols;
mod templates;
mod wrapping;

pub use alike::{Alike, law_of_alike};
pub use laws::{law_of_lines, law_of_rooms};
pub use machine::{Machine, MachineFault, Shape};
pub use outputs::RowFault;
pub use rooms::{HRow, TRow};
pub use rows::Rows;
