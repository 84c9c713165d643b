//! The limits on rows and on certificates, each of this project's choice.

use tc_base::limits::LONGEST_FILE;

/// The most rows of live trees, and the most of live lists of trees, where no other number is given.
pub const MOST_ROWS: u32 = 2_000;

/// The most bytes of a certificate's text: as many as a file may have, so that what is written can be read.
pub const LONGEST_CERTIFICATE: u32 = LONGEST_FILE as u32;
