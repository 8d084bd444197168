//! The faults of a run, of its files and of the service, as the program's.

ghost use Rattle.std.specs.Prelude.{◌≡◌};
ghost use Rattle.std.specs.IoError.{error_kind};
ghost use Rattle.prepaid.specs.Faults.{of_files, of_log, of_run, of_serve};

use live_answers::{LiveFault, ServeError};
use run_command::RunError;
use run_values::{LogFault, RunFault};
use std::io::{Error, ErrorKind};
use table_commands::{Fault, TableName};

/// The fault of a run that has no text.
pub(crate) fn fault_of_run(error: RunError) -> Fault
    ensures { result ≡ of_run error }
{
    match error {
        RunError::Input(fault) => Fault::of_run_input(fault),
        RunError::Run(fault) => Fault::Run(fault),
    }
}

/// The fault of files that couldn't be written.
pub(crate) fn fault_of_files(error: &Error) -> Fault
    ensures { result ≡ of_files (error_kind error.now) }
{
    match error.kind() {
        ErrorKind::OutOfMemory => Fault::Run(RunFault::OutOfMemory),
        _ => Fault::Into,
    }
}

/// The fault of an input that wasn't served to its end; none where the output failed.
pub(crate) fn fault_of_serve(error: ServeError) -> Option<Fault>
    ensures { result ≡ of_serve error }
{
    match error {
        ServeError::Input(fault) => Some(Fault::of_run_input(fault)),
        ServeError::Header => Some(Fault::no_header(TableName::Messages)),
        ServeError::Log(fault) => Some(fault_of_log(fault)),
        ServeError::LogRow(row, kind) => Some(Fault::LogRow(row, kind)),
        ServeError::Live(LiveFault::Output) => None,
        ServeError::Live(LiveFault::Input) => Some(Fault::Device),
        ServeError::Live(LiveFault::Log) => Some(Fault::Log(LogFault::Device)),
        ServeError::Run(fault) => Some(Fault::Run(fault)),
    }
}

/// The fault of a log.
fn fault_of_log(fault: LogFault) -> Fault
    ensures { result ≡ of_log fault }
{
    match fault {
        LogFault::Other | LogFault::Device => Fault::Log(fault),
        LogFault::OutOfMemory => Fault::Run(RunFault::OutOfMemory),
    }
}
