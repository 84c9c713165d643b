//! Whether a certificate holds for a machine: its numbers fit, its lists of rows are closed under row arithmetic, and each row
//! that a document may have passes at the root. Nothing is asked of how the certificate was made.
#![tactic(auto)]

mod checker;
mod checking;
mod first;
mod fit;
mod lists;
mod reading;
mod reject;

pub use checking::verify;
pub use reject::{Reject, RejectRule, VerifyFault};
