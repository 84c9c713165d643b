//! Sets of states of a schema's contents, and the steps over children from one to another: into an element, over a text,
//! over an element, and whether the start takes an element (RELAX NG, 6.2 and 6.3).
#![tactic(auto)]

mod arrows;
mod classes;
mod judge;
mod known_names;
mod known_sets;
mod known_steps;
mod known_symbols;
mod levels;
mod moves;
mod patterns;
mod steps;
mod table;
mod trees;
mod validity;

pub use judge::Judge;
pub use table::Steps;
pub use trees::take_tree;
pub use validity::Validity;
