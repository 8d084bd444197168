//! How many entries a history may have.

/// The fewest entries that the history of an account may be limited to: what one call takes.
pub const MIN_LIMIT: u32 = 3;

/// The most entries that it may be limited to.
pub const MAX_LIMIT: u32 = 1_000_000;
