//! Why words ask for nothing.

ghost use Rattle.std.specs.Prelude.{◌≡◌};
ghost use Rattle.table_commands.specs.declared.words_fault.WordsFault.TheVariants as out;

use std::alloc::AllocError;

/// Why the words of a command line have no request.
#[derive(Clone, Copy)]
pub enum WordsFault {
    /// They ask for nothing that the program does.
    Arguments,
    /// A time that `run` or `serve` is asked for is out of its range.
    Config,
    /// Memory ran out.
    OutOfMemory,
}

impl From<AllocError> for WordsFault {
    ghost from_gives = { λ _ fault. fault ≡ out.OutOfMemory };

    fn from(_error: AllocError) -> WordsFault {
        WordsFault::OutOfMemory
    }
}
