//! Automata of schemas: states and edges that run along trees, with interleave as the product of states.
//!
//! `tc_model`'s `specs/States.antt` says which states a pattern has and which edges lead between them. A
//! run from the first state of a part to an accepting one exists exactly where the trees match the part.
//! These are content automata, those of positions in patterns.
#![tactic(auto)]

pub mod arrows;
pub mod auto;
mod build;
mod count;
pub mod laws;
mod make;
mod membership;
mod nfa;
mod repeats;
mod rows;

pub use arrows::Arrow;
pub use auto::{Auto, AutoFault, Edge, Leaf};
