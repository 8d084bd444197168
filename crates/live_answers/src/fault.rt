//! What stops a round.

ghost use Rattle.std.specs.Prelude.{◌≡◌};
ghost use Rattle.live_answers.specs.declared.fault.Stop.TheVariants as out;

use crate::LiveFault;
use std::alloc::AllocError;

/// What stops a round.
#[derive(Clone, Copy)]
pub(crate) enum Stop {
    /// A fault that ends the run.
    Failed(LiveFault),
    /// Memory ran out.
    OutOfMemory,
}

impl From<AllocError> for Stop {
    ghost from_gives = { λ _ stop. stop ≡ out.OutOfMemory };

    fn from(_error: AllocError) -> Stop {
        Stop::OutOfMemory
    }
}
