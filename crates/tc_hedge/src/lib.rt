//! What trees lead from one state of a schema to another, as sets of pairs.
#![tactic(auto)]

pub mod hedge;
pub mod laws;
mod table;

pub use hedge::Hedge;
