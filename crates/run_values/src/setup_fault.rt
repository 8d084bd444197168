//! Why a run can't be set up.

ghost use Rattle.std.specs.Prelude.{◌≡◌, Some};
ghost use Rattle.run_values.specs.SetupFaults.{setup_fault_name};
ghost use Rattle.run_values.specs.declared.setup_fault.SetupFault.TheVariants as out;

use std::alloc::{AllocError, AllocFailed};
use std::error::Error;
use std::fmt;

/// Why a run can't be set up.
///
/// The limit and the counts are judged first, then the accounts in order, then the subscribers in
/// order; where several fit one item, the first of `OutOfRange`, `Repeated` and `Unknown` is the
/// fault.
#[derive(Clone, Copy, Debug, PartialEq, Eq)]
pub enum SetupFault {
    /// The number of an account, or of a subscriber, is named twice.
    Repeated = 1,
    /// The account of a subscriber isn't among the accounts.
    Unknown = 2,
    /// The history limit, the count of accounts or of subscribers, an opening credit or its last
    /// moment is out of its range.
    OutOfRange = 3,
    /// Memory ran out.
    OutOfMemory = 4,
}

impl fmt::Display for SetupFault {
    ghost output = { λ fault. Some (setup_fault_name fault) };

    fn fmt<W: fmt::Write>(&self, f: &mut fmt::Formatter<W>) -> fmt::Result {
        f.write_str(match self {
            SetupFault::Repeated => "Repeated",
            SetupFault::Unknown => "Unknown",
            SetupFault::OutOfRange => "OutOfRange",
            SetupFault::OutOfMemory => "OutOfMemory",
        })
    }
}

impl Error for SetupFault {}

impl From<AllocError> for SetupFault {
    ghost from_gives = { λ _ fault. fault ≡ out.OutOfMemory };

    fn from(_error: AllocError) -> SetupFault {
        SetupFault::OutOfMemory
    }
}

impl<T: Drop> From<AllocFailed<T>> for SetupFault {
    ghost from_gives = { λ _ fault. fault ≡ out.OutOfMemory };

    fn from(_error: AllocFailed<T>) -> SetupFault {
        SetupFault::OutOfMemory
    }
}
