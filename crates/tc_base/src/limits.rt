//! The limits on what is read, checked and run, each of this project's choice. What is past one is refused by its name.

/// The most bytes of a file, and so of a text: 64 MiB.
pub const LONGEST_FILE: usize = 67_108_864;

/// The most nodes of the patterns of a schema: its start and its contents.
pub const MOST_PATTERN_NODES: u32 = 65_536;

/// How deep these patterns nest.
pub const GREATEST_PATTERN_DEPTH: u32 = 2_000;

/// The most element patterns of a schema.
pub const MOST_ELEMENT_PATTERNS: u32 = 256;

/// The most states of an input schema: those of its contents.
pub const MOST_INPUT_STATES: u32 = 512;

/// The most states of an output schema: those of its start and its contents.
pub const MOST_OUTPUT_STATES: u32 = 256;

/// The most symbols of what is mentioned, the one of all other names included.
pub const MOST_SYMBOLS: u32 = 1_024;

/// The most predicates of a stylesheet.
pub const MOST_PREDICATES: u32 = 6;

/// The most ancestor states.
pub const MOST_ANCESTORS: u32 = 64;

/// The most states of moves and looks together.
pub const MOST_SELECTS: u32 = 4_096;

/// How deep the instructions of a stylesheet stand within one another, a called body within its call.
pub const DEEPEST_CALLS: u32 = 8_000;

/// The most entries and looks of a row together: ancestor states times move states, plus look states.
pub const MOST_ENTRIES: u32 = 8_192;

/// The most work of a run: bodies that are instantiated, and elements and texts that are put out.
pub const MOST_WORK: u32 = 4_000_000;

/// How many bodies and instructions of a run stand within one another.
pub const MOST_OPEN: u32 = 8_000;

/// How deep what a text writes stands within one another: elements, patterns, parentheses.
pub const DEEPEST_NESTING: u32 = 2_000;

/// The most bytes of a tag of a document that comes in pieces.
pub const LONGEST_TAG: usize = 65_536;

/// The most bytes that the names of the open elements of a document that comes in pieces have, with the prefixes and
/// namespace names that they declare.
pub const MOST_NAMES: usize = 65_536;

/// The greatest number of rows that may be given: of live trees, and of live lists of trees.
pub const GREATEST_LIMIT: u32 = 4_000;

/// The most sets of pairs of states of the output in these rows.
pub const MOST_OUTPUTS: u32 = 65_536;

/// The most nodes of a document that is shown: a counterexample, one that two schemas differ by, or one that uses a spot.
pub const MOST_SHOWN_NODES: u32 = 2_000;
