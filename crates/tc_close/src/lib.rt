//! The rows of all live trees, found from rows, and what they tell: whether a stylesheet is safe between two schemas,
//! and a certificate of that, or a least counterexample where it isn't.
#![tactic(auto)]

mod appends;
mod certificate;
mod decision;
mod held;
mod kinds;
pub mod laws;
mod listing;
mod lists;
mod look_free;
mod number_hasher;
mod number_table;
mod once;
mod order;
mod over;
mod proof;
mod rooms;

pub use decision::{CloseFault, Counts, Decision, decide};
pub use listing::list_rows;
pub use proof::{Proof, prove};
