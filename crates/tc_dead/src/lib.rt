//! The spots of a stylesheet (rules, named bodies, branches), and the stylesheet whose results tell by a small schema
//! whether a document instantiates one of them.
#![tactic(auto)]

mod laws;
mod marking;
mod schema;
mod spots;

pub use laws::law_of_marks;
pub use marking::marked;
pub use schema::plain;
pub use spots::{Spot, places};
