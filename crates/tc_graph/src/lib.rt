//! Numbers that lead to numbers: which are reached from one, and which lead to one another and back.
#![tactic(auto)]

mod cycles;
mod reach;

pub use cycles::{Start, State, Walk, components};
pub use reach::reached;
