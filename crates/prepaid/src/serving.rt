//! The command `serve`.

ghost use Rattle.std.specs.Prelude.{◌≡◌, Err, option_map};
ghost use Rattle.std.specs.Io.KnownBytes.{Keeps};
ghost use Rattle.run_values.specs.Logs.{log_wish_of};
ghost use Rattle.run_values.specs.Options.{live_ask_of};
ghost use Rattle.prepaid.specs.Answers.{IsServeEnd, IsServedInput};

use crate::faults::fault_of_serve;
use live_answers::{ServeError, lock_log, serve_input};
use run_values::{LiveOptions, LogAsk, LogFault};
use std::fs::File;
use std::io::{BufRead, Error, ErrorKind, Write};
use std::rt::Files;
use std::sync::Wait;
use std::thread::Threads;
use table_commands::{Fault, Noting, report_end, report_with};

/// Answers the messages in the input as they come, and gives the status: 0 where the input has
/// ended and all was printed; 1 for a fault of what is in front of the messages, and then nothing
/// is printed; 2 where the input, the log, memory, the output or the run failed.
pub(crate) fn serve_messages<R, I: BufRead + Drop, O: Write, E: Write>(
    rt: &R,
    options: &LiveOptions,
    log: Option<LogAsk<'_>>,
    input: I,
    output: &mut Noting<O>,
    faults: &mut E,
    explains: bool,
) -> u8
where
    R: AllocGlobal + Wait + Threads + Sync + Files<File = File>,
    ensures served { IsServedInput explains (live_ask_of options.now)
        (option_map log_wish_of log.entry) (I.remaining input) result
        (record { output = O.contents output.old.inner; faults = E.contents faults.old })
        (record { output = O.contents output.new.inner; faults = E.contents faults.new }) }
    ensures silent { result ≡ 1
        → Keeps (O.contents output.old.inner) (O.contents output.new.inner) }
{
    match serve_input(rt, rt.alloc(), options, log, input, output) {
        Ok(()) => 0,
        Err(why) => report_unserved(rt, faults, explains, log, why, output.failed),
    }
}

/// Reports why an input wasn't served to its end, and gives the status. Why its log can't be used
/// is said behind the line where that is asked for.
fn report_unserved<R: AllocGlobal + Files<File = File>, E: Write>(
    rt: &R,
    faults: &mut E,
    explains: bool,
    log: Option<LogAsk<'_>>,
    why: ServeError,
    failed: Option<Error>,
) -> u8
    ensures { IsServeEnd explains (Err why) result (E.contents faults.old)
        (E.contents faults.new) }
{
    match why {
        ServeError::Log(LogFault::Device) if explains => {
            let more = explain_log(rt, log);
            report_with(faults, Fault::Log(LogFault::Device), more.as_bytes())
        }
        _ => report_end(faults, explains, fault_of_serve(why), failed),
    }
}

/// Why a log can't be opened or locked, as a second try shows; nothing where that shows nothing, or
/// memory runs out.
fn explain_log<R: AllocGlobal + Files<File = File>>(rt: &R, log: Option<LogAsk<'_>>) -> String {
    let alloc = rt.alloc();
    let Some(LogAsk { path, .. }) = log else {
        return String::new(alloc);
    };
    let said = match lock_log(rt, path) {
        Ok(_) => Ok(String::new(alloc)),
        Err(error) => match error.kind() {
            ErrorKind::NotSeekable => format!(in alloc; "the log: it is no plain file\n"),
            ErrorKind::WouldBlock => format!(in alloc; "the log: another process has it\n"),
            _ => format!(in alloc; "the log: {error}\n"),
        },
    };
    said.unwrap_or_else(|_| String::new(alloc))
}
