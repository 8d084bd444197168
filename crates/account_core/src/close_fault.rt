//! Why a shared account isn't closed with a book.

ghost use Rattle.std.specs.Prelude.{◌≡◌};
ghost use Rattle.account_core.specs.CloseFaults.{close_fault_code};

use thiserror::Error;

/// Why a shared account isn't closed with a book. It is given up then.
#[derive(Clone, Copy, Debug, PartialEq, Eq, Error)]
pub enum CloseFault {
    /// Not all of its seats are there, in the order of their numbers.
    #[error("the seats aren't all there in order")]
    Seats = 1,
    /// A seat's list isn't the seat's entries in the history, or the opening, its last moment or
    /// the limit isn't the one that was given, or the history is longer than the limit. A
    /// `TurnAccount` compares nothing, and never has this fault.
    #[error("the history isn't what the seats have entered")]
    Mismatch = 2,
}

impl CloseFault {
    /// The number of the fault.
    pub fn code(self) -> u8
        ensures { result ≡ close_fault_code self }
    {
        self as u8
    }
}
