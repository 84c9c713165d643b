//! Documents that come in pieces (XML 1.0, Fifth Edition; Namespaces in XML 1.0), and whether they are valid for a
//! schema (RELAX NG). What is kept is bounded, whatever the document is, and all of it is taken before the first byte.
#![tactic(auto)]

mod characters;
mod characters_reading;
mod cuts;
mod declarations;
mod doctypes;
mod elements;
mod ends;
mod faults;
mod items;
mod laws;
mod marking;
mod numbers;
mod parts;
mod phases;
mod pieces;
mod reader;
mod reading;
mod references;
mod stopping;
mod stream;
mod tag_ends;
mod tag_reading;
mod whole_tags;
mod words;

pub use faults::StreamFault;
pub use laws::{law_of_faults, law_of_measures, law_of_outcomes};
pub use stream::Stream;
