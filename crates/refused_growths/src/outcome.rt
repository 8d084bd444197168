//! How a call went.

use account_core::{AccountFault, CloseFault};
use cap_values::ValueFault;
use one_call::DriveFault;
use std::alloc::AllocError;
use std::io;

/// How a call went. It is the program's exit status.
#[derive(Clone, Copy, PartialEq, Eq)]
pub(crate) enum Outcome {
    /// It answered as with memory.
    Answered = 0,
    /// An answer, or what a call has left, was another than it has to be.
    Wrong = 1,
    /// Out of memory was reported and nothing was changed; where the call was made again, it
    /// answered as with memory.
    Refused = 2,
    /// The same, but when it was made again it found no memory once more.
    RefusedAgain = 3,
}

/// What a call came to: an error where it ended before its end.
pub(crate) type Course = Result<Outcome, Outcome>;

/// Goes on where something is as it has to be.
pub(crate) fn expect(is_right: bool) -> Result<(), Outcome> {
    if is_right {
        Ok(())
    } else {
        Err(Outcome::Wrong)
    }
}

/// Refused where either was, of two that went on.
pub(crate) fn worse_of(one: Outcome, other: Outcome) -> Outcome {
    if one == Outcome::Answered { other } else { one }
}

/// Out of memory, or a fault that has no place here.
fn refused_if(is_memory: bool) -> Outcome {
    if is_memory {
        Outcome::Refused
    } else {
        Outcome::Wrong
    }
}

impl From<AllocError> for Outcome {
    fn from(_error: AllocError) -> Outcome {
        Outcome::Refused
    }
}

impl From<io::Error> for Outcome {
    fn from(_error: io::Error) -> Outcome {
        Outcome::Refused
    }
}

impl From<AccountFault> for Outcome {
    fn from(fault: AccountFault) -> Outcome {
        refused_if(fault == AccountFault::OutOfMemory)
    }
}

impl From<CloseFault> for Outcome {
    fn from(_fault: CloseFault) -> Outcome {
        Outcome::Wrong
    }
}

impl From<DriveFault> for Outcome {
    fn from(fault: DriveFault) -> Outcome {
        refused_if(fault == DriveFault::OutOfMemory)
    }
}

impl From<ValueFault> for Outcome {
    fn from(_fault: ValueFault) -> Outcome {
        Outcome::Wrong
    }
}
