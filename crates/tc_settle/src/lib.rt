//! The closure of numbered rows, cost by cost: what can be made of texts, of elements around lists of trees and of
//! lists with one more tree behind, each at its least cost.
//! A least fixpoint with least weights.
#![tactic(auto)]

mod building;
mod closed;
mod failing;
mod levels;
mod rows;
mod runs;
mod settling;
mod trying;
mod wraps;

pub use building::{BuildFault, build};
pub use closed::{CloseFault, Closed, MadeHedge, MadeTree};
pub use failing::first_failing;
pub use rows::{HoldFault, NumberedRows};
pub use settling::close;
pub use wraps::Wraps;
