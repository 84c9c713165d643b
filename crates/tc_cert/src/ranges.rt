// How many numbers of each sort two schemas and a stylesheet have.

/// The ranges and lengths into which the numbers of a certificate's lines have to fit.
#[derive(Clone, Copy)]
pub struct Ranges {
    /// The number of the output's states, counted from 0.
    pub output_states: u32,
    /// The number of the input's element patterns, counted from 1.
    pub patterns: u32,
    /// The number of the input's states, counted from 0.
    pub input_states: u32,
    /// How many outputs a row lists.
    pub outs: u32,
    /// How many looks a row lists.
    pub looks: u32,
}
