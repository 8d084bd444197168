//! What keeps a log from being used.

ghost use Rattle.std.specs.Prelude.{Some};
ghost use Rattle.run_values.specs.LogFaults.{log_fault_name};

use std::fmt;
use std::fs::TryLockError;
use std::io::{Error, ErrorKind};

/// What keeps a log from being used.
#[derive(Clone, Copy, Debug, PartialEq, Eq)]
pub enum LogFault {
    /// It is no log, or was begun with another tariff, another setup or other options.
    Other,
    /// It couldn't be opened, read, written or synced, it is no plain file, or another process has
    /// it.
    Device,
    /// Memory ran out.
    OutOfMemory,
}

impl fmt::Display for LogFault {
    ghost output = { λ fault. Some (log_fault_name fault) };

    fn fmt<W: fmt::Write>(&self, f: &mut fmt::Formatter<W>) -> fmt::Result {
        f.write_str(match self {
            LogFault::Other => "Other",
            LogFault::Device => "Device",
            LogFault::OutOfMemory => "OutOfMemory",
        })
    }
}

impl From<Error> for LogFault {
    fn from(error: Error) -> LogFault {
        match error.kind() {
            ErrorKind::OutOfMemory => LogFault::OutOfMemory,
            _ => LogFault::Device,
        }
    }
}

impl From<TryLockError> for LogFault {
    fn from(error: TryLockError) -> LogFault {
        LogFault::from(Error::from(error))
    }
}
