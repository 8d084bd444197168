//! How far the columns are behind the word of an operation or of a reply.

/// The call of an operation.
pub const CALL: usize = 1;
/// What else an operation says.
pub const X1: usize = 2;
/// See `X1`.
pub const X2: usize = 3;
/// See `X1`.
pub const X3: usize = 4;
/// See `X1`.
pub const X4: usize = 5;
/// See `X1`.
pub const X5: usize = 6;
/// See `X1`; only from version 2 on.
pub const X6: usize = 7;
/// See `X1`; only from version 3 on.
pub const X7: usize = 8;
/// See `X1`; only from version 4 on.
pub const X8: usize = 9;
/// See `X8`.
pub const X9: usize = 10;

/// The time granted, or the money paid.
pub const Y1: usize = 1;
/// Whether a grant is the last.
pub const Y2: usize = 2;
/// What is available.
pub const Y3: usize = 3;
