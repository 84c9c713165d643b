//! What stands at the front of a text: marks, white space, runs, names and references (XML 1.0, Fifth Edition, 2.3 and
//! 4.1; Namespaces in XML 1.0, 3 and 4). All readers of texts but that of certificates stand on these steps.
#![tactic(auto)]

mod blocks;
mod chars;
mod front;
mod names;
mod references;

pub use blocks::clear_len;
pub use chars::{are_chars, characters};
pub use front::{
    after_byte, after_mark, after_some_white, after_white, begins, plain_len, plain_len_within,
    up_to,
};
pub use names::{QualifiedName, first_char, is_ncname_char, is_ncname_start, ncname, qname};
pub use references::{NoReference, after_equals, predefined, quote, reference};
