//! Why a call wasn't driven to its end.

ghost use Rattle.std.specs.Prelude.{◌≡◌};
ghost use Rattle.one_call.specs.declared.fault.DriveFault.TheVariants as fault;

use std::alloc::AllocError;
use thiserror::Error;

/// Why a call wasn't driven to its end; the numbers are stable. `Backwards` is judged before
/// `Delay`, and both before anything is done.
#[derive(Clone, Copy, Debug, PartialEq, Eq, Error)]
pub enum DriveFault {
    /// An event's moment lies below the start, or below that of the event before it.
    #[error("an event before the last one")]
    Backwards = 1,
    /// The delay is 0, or above the time that the gsmSSF waits for a further period.
    #[error("a delay out of its range")]
    Delay = 2,
    /// The queue of deliveries couldn't grow. What the port was asked by then is kept.
    #[error("memory ran out")]
    OutOfMemory = 3,
}

impl From<AllocError> for DriveFault {
    ghost from_gives = { λ _ made. made ≡ fault.OutOfMemory };

    fn from(_error: AllocError) -> DriveFault {
        DriveFault::OutOfMemory
    }
}
