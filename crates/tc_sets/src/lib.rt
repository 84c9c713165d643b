//! Sets of numbers below a size, kept as 64-bit words.
#![tactic(auto)]

mod sets;
mod words;

pub use sets::{Set, sets_have_one_form};
