//! The options of `run`.

ghost use Rattle.std.specs.Prelude.{◌≡◌, ◌≤◌, ◌<◌, option_map, unwrap_or};
ghost use Rattle.table_commands.specs.Arguments.{IsRequestOf};
ghost use Rattle.table_commands.specs.Capped.{capped, capped_ask};
ghost use Rattle.table_commands.specs.RunWords.{ask_in, handling_in, number_written, output_in, output_of, parts_in, wished_parts, run_in, setting_in, workers_in};
ghost use Rattle.clap.specs.Words.{found_of, rows_of};

use crate::options::{clock_by, has_flag, option_text, optional_number};
use crate::request::Request;
use crate::words_fault::WordsFault;
use clap::ArgMatches;
use run_values::{PartsAsk, RunAsk, RunOptions, RunOutput};
use ssf_core::DefaultHandling;
use table_core::{decimal, is_decimal};

/// The most workers that may be asked for. A run has fewer.
const MAX_WORKERS: u64 = 99;

/// The most parts that may be asked for. A run has no more than accounts.
const MAX_PARTS: u64 = u32::MAX as u64;

/// The most threads that may be asked for to play parts.
const MAX_THREADS: u64 = 64;

/// The run that the options ask for. `Config` where a time is out of its range, however large;
/// `Arguments` where an option has no number or word of its own.
pub(crate) fn run_request<'a>(options: &ArgMatches<'a>) -> Result<Request<'a>, WordsFault>
    ensures { IsRequestOf (run_in (rows_of (found_of options.now))) result }
{
    let Some(ask) = run_ask(options) else {
        return Err(WordsFault::Arguments);
    };
    match (RunOptions::new(ask), option_text(options, "into")) {
        (Some(options), None) => Ok(Request::Run(options)),
        (Some(options), Some(folder)) => Ok(Request::RunInto(options, folder)),
        (None, _) => Err(WordsFault::Config),
    }
}

/// What the options say.
pub(crate) fn run_ask(options: &ArgMatches<'_>) -> Option<RunAsk>
    ensures { result ≡ option_map capped_ask (ask_in (rows_of (found_of options.now))) }
{
    let workers = workers(options)?;
    let wanted = setting(options, "wanted", 600)?;
    let least = setting(options, "least", 50)?;
    let tssf = setting(options, "tssf", 100)?;
    let tccd = setting(options, "tccd", 50)?;
    let delay = setting(options, "delay", 2)?;
    let default_handling = handling(options)?;
    let output = output(options)?;
    let parts = parts(options, workers, output)?;
    Some(RunAsk {
        workers,
        wanted,
        least,
        tssf,
        tccd,
        delay,
        default_handling,
        output,
        parts,
    })
}

/// How many workers there are to be, 0 to 99: where that is left out, two, but one in parts.
fn workers(options: &ArgMatches<'_>) -> Option<u32>
    ensures { result ≡ workers_in (rows_of (found_of options.now)) }
{
    let workers = optional_number(options, "workers", MAX_WORKERS)?;
    let default = match option_text(options, "parts") {
        Some(_) => 1,
        None => 2,
    };
    Some(workers.unwrap_or(default) as u32)
}

/// In how many parts the run is to be played, if it is, and by how many threads.
fn parts(options: &ArgMatches<'_>, workers: u32, output: RunOutput) -> Option<Option<PartsAsk>>
    ensures { result ≡ parts_in (rows_of (found_of options.now)) workers output }
{
    let count = optional_number(options, "parts", MAX_PARTS)?;
    let threads = optional_number(options, "threads", MAX_THREADS)?;
    parts_of(workers, output, count, threads)
}

/// How a run is played in parts, by the numbers of the options: at least one part, with one worker
/// at most, and without a trace; at least one thread, one where that is left out, and none without
/// parts.
fn parts_of(
    workers: u32,
    output: RunOutput,
    count: Option<u64>,
    threads: Option<u64>,
) -> Option<Option<PartsAsk>>
    requires count { unwrap_or count 0 ≤ MAX_PARTS }
    requires threads { unwrap_or threads 1 ≤ MAX_THREADS }
    ensures { result ≡ wished_parts workers output count threads }
{
    let Some(count) = count else {
        return if threads.is_none() { Some(None) } else { None };
    };
    let threads = threads.unwrap_or(1);
    let is_trace = matches!(output, RunOutput::Trace(_));
    if count < 1 || threads < 1 || workers > 1 || is_trace {
        return None;
    }
    Some(Some(PartsAsk {
        count: count as u32,
        threads: threads as u32,
    }))
}

/// The number of an option, `default` where it is left out; `u32::MAX` stands for all above.
pub(crate) fn setting(options: &ArgMatches<'_>, name: &str, default: u32) -> Option<u32>
    requires { default < 1000 }
    ensures { result
        ≡ option_map capped (setting_in (rows_of (found_of options.now)) name.now default) }
{
    match option_text(options, name) {
        Some(text) => number(text.as_bytes()),
        None => Some(default),
    }
}

/// The number that 1 to 20 digits write; `u32::MAX` stands for all above it.
fn number(text: &[u8]) -> Option<u32>
    ensures { result ≡ option_map capped (number_written text.now) }
{
    if !is_decimal(text) {
        return None;
    }
    let number = decimal(text, u64::from(u32::MAX));
    Some(number.unwrap_or(u64::from(u32::MAX)) as u32)
}

/// What is to become of a call without instructions.
fn handling(options: &ArgMatches<'_>) -> Option<DefaultHandling>
    ensures { result ≡ handling_in (rows_of (found_of options.now)) }
{
    match option_text(options, "default") {
        None => Some(DefaultHandling::Release),
        Some("release") => Some(DefaultHandling::Release),
        Some("proceed") => Some(DefaultHandling::Proceed),
        Some(_) => None,
    }
}

/// What is to be printed; none where more than one of the books, the calls and the trace are asked
/// for, or one of them and a folder, or dates and times without the calls, the trace or a folder.
fn output(options: &ArgMatches<'_>) -> Option<RunOutput>
    ensures { result ≡ output_in (rows_of (found_of options.now)) }
{
    let book = has_flag(options, "book");
    let calls = has_flag(options, "calls");
    let trace = has_flag(options, "trace");
    let dates = has_flag(options, "clock");
    let into = option_text(options, "into").is_some();
    output_of(into, book, calls, trace, dates)
}

/// The same, by whether each is asked for.
fn output_of(into: bool, book: bool, calls: bool, trace: bool, dates: bool) -> Option<RunOutput>
    ensures { result ≡ output_of into book calls trace dates }
{
    match (into, book, calls, trace, dates) {
        (false, false, false, false, false) => Some(RunOutput::Lines),
        (false, true, false, false, false) => Some(RunOutput::Book),
        (false, false, true, false, _) => Some(RunOutput::Calls(clock_by(dates))),
        (false, false, false, true, _) => Some(RunOutput::Trace(clock_by(dates))),
        (true, false, false, false, _) => Some(RunOutput::Trace(clock_by(dates))),
        _ => None,
    }
}
