//! Decides questions about texts in memory, each by one call: whether a stylesheet is safe between two schemas, and what
//! certificates say of that; what its result is; which of its rules and branches no valid document instantiates; whether a
//! document is valid for a schema; and whether a schema includes another. No file is read, and no line is written.
#![tactic(auto)]

mod certifying;
mod checking;
mod comparing;
mod copies;
mod empty;
mod failure;
pub mod laws;
pub mod limits;
mod machine;
mod pieces;
mod rejection;
mod running;
mod schemas;
mod spots;
mod texts;
mod upgrading;
mod validating;
mod verdict;
mod verifying;

pub use certifying::prove;
pub use checking::check;
pub use comparing::{include, same};
pub use failure::{Failure, Kind, PieceMeasure, RowCount, Which};
pub use pieces::valid_in_pieces;
pub use rejection::Rejection;
pub use running::run;
pub use schemas::SchemaText;
pub use spots::{SpotTold, Told, dead};
pub use tc_close::Counts;
pub use tc_dead::Spot;
pub use upgrading::upgrade;
pub use validating::valid;
pub use verdict::{Equality, Inclusion, Output, Proof, Upgrade, Verdict, Verification};
pub use verifying::verify;
