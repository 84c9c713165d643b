//! What stands around the commands: the words that give them, their operands as they are read, and their answers with
//! the lines that are written.
#![tactic(auto)]

mod answer;
mod buffer;
mod command;
pub mod laws;
pub mod limits;
mod read;
mod sources;
mod spots;
mod status;
mod words;
mod write;

pub use answer::{Answer, Text};
pub use command::{Command, Triple, read_words};
pub use read::{Operand, Operands, Unread, read_operand, read_pair, read_triple, read_verified};
pub use sources::{Source, schema_root};
pub use status::Status;
pub use words::WordList;
pub use write::write_lines;
