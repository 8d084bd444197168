//! Why an account refuses an operation.

ghost use Rattle.std.specs.Prelude.{◌≡◌, Some};
ghost use Rattle.account_core.specs.Faults.{account_fault_name};
ghost use Rattle.account_core.specs.declared.fault.AccountFault.TheVariants as out;

use std::alloc::AllocError;
use std::error::Error;
use std::fmt;

/// Why an account refuses an operation. A refused operation changes nothing and makes no entry.
///
/// Where several fit, the first of this order is answered: `GateClosed`, `OutOfRange`, `NotOpen` or
/// `CallUsed`, `HistoryFull`, `OutOfMemory`.
#[derive(Clone, Copy, Debug, PartialEq, Eq)]
pub enum AccountFault {
    /// Memory ran out.
    OutOfMemory = 1,
    /// With the entry and the places owed for closing calls the history would pass its limit.
    HistoryFull = 2,
    /// A Settle or a Return of a call that isn't open.
    NotOpen = 3,
    /// A Reserve of a call that was returned.
    CallUsed = 4,
    /// An amount of 0 or above the largest money, a wanted time of 0 or above a day, or a least
    /// time above a day.
    OutOfRange = 5,
    /// The gate of a shared account answered false.
    GateClosed = 6,
}

impl fmt::Display for AccountFault {
    ghost output = { λ fault. Some (account_fault_name fault) };

    fn fmt<W: fmt::Write>(&self, f: &mut fmt::Formatter<W>) -> fmt::Result {
        f.write_str(match self {
            AccountFault::OutOfMemory => "OutOfMemory",
            AccountFault::HistoryFull => "HistoryFull",
            AccountFault::NotOpen => "NotOpen",
            AccountFault::CallUsed => "CallUsed",
            AccountFault::OutOfRange => "OutOfRange",
            AccountFault::GateClosed => "GateClosed",
        })
    }
}

impl Error for AccountFault {}

impl From<AllocError> for AccountFault {
    ghost from_gives = { λ _ fault. fault ≡ out.OutOfMemory };

    fn from(_error: AllocError) -> AccountFault {
        AccountFault::OutOfMemory
    }
}
