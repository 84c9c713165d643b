//! Reads the texts of operands: documents, schemas and stylesheets, each exactly, or why a text is none.
#![tactic(auto)]

mod documents;
mod faults;
mod schemas;
mod sheets;

pub use documents::{law_of_documents, read_document};
pub use faults::{Reason, TextFault};
pub use schemas::{Schema, law_of_schemas, read_schema};
pub use sheets::{law_of_stylesheets, read_sheet};
