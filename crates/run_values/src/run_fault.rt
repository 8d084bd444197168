//! What can end a run without books.

ghost use Rattle.std.specs.Prelude.{◌≡◌, Some};
ghost use Rattle.run_values.specs.RunFaults.{run_fault_name};
ghost use Rattle.run_values.specs.declared.run_fault.RunFault.TheVariants as out;

use std::alloc::{AllocError, AllocFailed};
use std::error::Error;
use std::fmt;

/// Why a run ended without books.
#[derive(Clone, Copy, Debug, PartialEq, Eq)]
pub enum RunFault {
    /// Memory ran out.
    OutOfMemory = 1,
    /// There aren't 1 to 16 workers. Nothing was started.
    Workers = 2,
    /// A gate answered false.
    GateClosed = 3,
    /// An account that was closed has no book: its history and its seats' lists differ.
    Mismatch = 4,
    /// A worker is gone, or has answered another post than the next one.
    Channel = 5,
    /// A worker couldn't be started.
    Thread = 6,
}

impl fmt::Display for RunFault {
    ghost output = { λ fault. Some (run_fault_name fault) };

    fn fmt<W: fmt::Write>(&self, f: &mut fmt::Formatter<W>) -> fmt::Result {
        f.write_str(match self {
            RunFault::OutOfMemory => "OutOfMemory",
            RunFault::Workers => "Workers",
            RunFault::GateClosed => "GateClosed",
            RunFault::Mismatch => "Mismatch",
            RunFault::Channel => "Channel",
            RunFault::Thread => "Thread",
        })
    }
}

impl Error for RunFault {}

impl From<AllocError> for RunFault {
    ghost from_gives = { λ _ fault. fault ≡ out.OutOfMemory };

    fn from(_error: AllocError) -> RunFault {
        RunFault::OutOfMemory
    }
}

impl<T: Drop> From<AllocFailed<T>> for RunFault {
    ghost from_gives = { λ _ fault. fault ≡ out.OutOfMemory };

    fn from(_error: AllocFailed<T>) -> RunFault {
        RunFault::OutOfMemory
    }
}
