//! Why a value was not made.

use thiserror::Error;

/// Why a parameter was refused; the numbers are stable.
#[derive(Clone, Copy, Debug, PartialEq, Eq, Error)]
pub enum ValueFault {
    /// A parameter lies outside its range.
    #[error("a parameter is out of range")]
    ParameterOutOfRange = 1,
    /// A parameter that has to be given is missing.
    #[error("a parameter is missing")]
    MissingParameter = 2,
}
