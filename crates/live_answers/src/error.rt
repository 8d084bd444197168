//! Why an input isn't served to its end.

ghost use Rattle.std.specs.Prelude.{◌≡◌};
ghost use Rattle.live_answers.specs.Heads.{of_replay};
ghost use Rattle.live_answers.specs.declared.error.ServeError.TheVariants as out;
ghost use Rattle.run_values.specs.declared.run_fault.RunFault.TheVariants as fault;

use crate::LiveFault;
use crate::checking::ReplayFault;
use run_texts::{InputFault, LineKind};
use run_values::{LogFault, RunFault};
use std::alloc::AllocError;

/// Why an input isn't served to its end.
#[derive(Clone, Copy, Debug)]
pub enum ServeError {
    /// The tariff or the setup has a fault, or their dividers aren't there; or what reads them, or
    /// memory, failed.
    Input(InputFault),
    /// What is behind the setup doesn't begin with the header of message rows.
    Header,
    /// The log can't be used.
    Log(LogFault),
    /// A line of the log isn't accepted: its row, where the header in front of the lines is row 1,
    /// and what is wrong with it.
    LogRow(u64, LineKind),
    /// The run was ended before its input: what came before is answered, and its books are made.
    Live(LiveFault),
    /// The run has no books; also where memory ran out before or after it.
    Run(RunFault),
}

impl From<InputFault> for ServeError {
    ghost from_gives = { λ why error. error ≡ out.Input why };

    fn from(fault: InputFault) -> ServeError {
        ServeError::Input(fault)
    }
}

impl From<LogFault> for ServeError {
    ghost from_gives = { λ why error. error ≡ out.Log why };

    fn from(fault: LogFault) -> ServeError {
        ServeError::Log(fault)
    }
}

impl From<ReplayFault> for ServeError {
    ghost from_gives = { λ why error. error ≡ of_replay why };

    fn from(fault: ReplayFault) -> ServeError {
        match fault {
            ReplayFault::Line(row, kind) => ServeError::LogRow(row, kind),
            ReplayFault::Input => ServeError::Log(LogFault::Device),
            ReplayFault::OutOfMemory => ServeError::Log(LogFault::OutOfMemory),
        }
    }
}

impl From<RunFault> for ServeError {
    ghost from_gives = { λ why error. error ≡ out.Run why };

    fn from(fault: RunFault) -> ServeError {
        ServeError::Run(fault)
    }
}

impl From<AllocError> for ServeError {
    ghost from_gives = { λ _ error. error ≡ out.Run fault.OutOfMemory };

    fn from(_error: AllocError) -> ServeError {
        ServeError::Run(RunFault::OutOfMemory)
    }
}
