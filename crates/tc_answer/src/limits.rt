//! The limits on numbers that words give, beside that of `--limit`.

/// The greatest number of `--stream`, in bytes.
pub const LARGEST_PIECE: u32 = 65_536;

/// The greatest number of `demo`.
pub const MOST_DEMO: u32 = 40;
