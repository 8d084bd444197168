//! Why the gsmSSF refused an input.

use thiserror::Error;

/// Why an input was refused; the numbers are stable.
#[derive(Clone, Copy, Debug, PartialEq, Eq, Error)]
pub enum SsfFault {
    /// An operation, `invoke` or `trigger` that the state doesn't expect.
    #[error("an unexpected component sequence")]
    UnexpectedComponentSequence = 1,
    /// A parameter lies outside its range.
    #[error("a parameter is out of range")]
    ParameterOutOfRange = 2,
    /// The moment lies before the last one.
    #[error("a moment before the last one")]
    TimeBackwards = 3,
    /// An event that the state doesn't expect.
    #[error("no such event")]
    NoSuchEvent = 4,
}
