//! The limits of a table and of its problem.

/// The most records of a table, and the most rows of a problem.
pub const MOST_ROWS: u32 = 16_384;

/// The most columns of a problem.
pub const MOST_COLUMNS: u32 = 128;
