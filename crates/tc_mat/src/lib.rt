//! Sets of pairs of numbers below a size, kept as rows of 64-bit words, and a pool that holds each once.
#![tactic(auto)]

mod matrices;
mod pools;
mod products;

pub use matrices::{Mat, sets_have_one_form};
pub use pools::{MatId, Pool, PoolFault};
