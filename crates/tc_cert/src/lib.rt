//! The text of certificates: what it holds, how it is written, and how it is read.
#![tactic(auto)]

mod cursor;
mod faults;
mod fitting;
mod laws;
mod lines;
mod order;
mod pieces;
mod ranges;
mod reader;
mod reading;
mod rows;
mod text;
mod upgrading;
mod writing;

pub use faults::{CertFault, UpgradeFault};
pub use fitting::first_unfit;
pub use laws::{law_of_faults, law_of_lines, law_of_texts, law_of_writing};
pub use lines::{hedge_line, pairs_line, tree_line};
pub use ranges::Ranges;
pub use reading::read_cert;
pub use text::CertWriteFault;
pub use upgrading::upgrade;
pub use writing::write_cert;
