//! The command `serve`.

ghost use Rattle.std.specs.Prelude.{◌≡◌, IfErr, IfOk, IfSome, OnOk, ℕ, List, option_map, string_bytes};
ghost use Rattle.std.specs.Io.KnownBytes.{Appends};
ghost use Rattle.live_answers.specs.Ends.{IsCutAt, IsCutEnd, IsEndOf, end_with, is_cut_off};
ghost use Rattle.live_answers.specs.Heads.{IsOfLog, IsOfRun, IsServingSilent};
ghost use Rattle.live_answers.specs.Inputs.{live_input_of};
ghost use Rattle.live_answers.specs.Replays.{HearsLog};
ghost use Rattle.live_answers.specs.Serves.{EndsServing, ServesBy};
ghost use Rattle.run_values.specs.Logs.{log_wish_of};
ghost use Rattle.run_values.specs.Options.{live_ask_of};

use crate::answering::{Answered, answer_live};
use crate::head::read_setup;
use crate::opening::{OpenLog, log_head, open_log};
use crate::recording::Recording;
use crate::replaying::{Rows, replay_of};
use crate::{LiveFault, Replay, ServeError, Skipping};
use book_texts::{book_table, run_lines};
use run_outputs::{call_table, records};
use run_values::{LiveOptions, LiveOutput, LogAsk, LogFault, RunSetup};
use std::alloc::{AllocError, Global};
use std::fs::File;
use std::io::{self, BufRead, Read, Write};
use std::rt::Files;
use std::sync::Wait;
use std::thread::Threads;
use table_core::write_text;
use tariff_core::Clock;

/// Serves an input: a tariff, a line `%%`, a setup, a line `%%`, the header
/// `moment,number,call,from,what,x1,x2,x3,x4`, and message rows, each a line. The header is printed
/// and flushed, then the rows that are there are answered before a further one is waited for, and
/// at the end of the input a line `%%` and what the options ask for are printed.
///
/// Where a log is kept, the lines of accepted messages are in it, on the disk, before the rows that
/// answer them are printed. The log begins with the options and with what the input has in front of
/// its rows. The messages that it holds already are heard again before the input is.
///
/// `Input` and then `Header` are faults of what is in front of the rows, and `Log` and `LogRow` of
/// the log and its lines; nothing is printed then. `Live` says what ended the run before its input:
/// at `Input` and `Log` all is printed as if the input had ended there; at `Output`, and where the
/// run has no books, a front of that.
pub fn serve_input<R: Wait + Threads + Sync + Files<File = File>, I: BufRead + Drop, O: Write>(
    rt: &R,
    alloc: Global,
    options: &LiveOptions,
    log: Option<LogAsk<'_>>,
    input: I,
    output: &mut O,
) -> Result<(), ServeError>
    ensures serves { IfSome (I.remaining input) (λ text.
        ServesBy (live_ask_of options.now) (option_map log_wish_of log.entry) (live_input_of text)
        (O.contents output.old) (O.contents output.new) result) }
    ensures silent { IfErr result
        (IsServingSilent (O.contents output.old) (O.contents output.new)) }
{
    let mut input = Recording::new(alloc, input);
    let setup = read_setup(alloc, options, &mut input)?;
    let (input, head) = input.into_parts();
    let Some(log) = log else {
        let rows = Rows {
            input,
            log: io::sink(),
            replay: Replay::NONE,
        };
        return serve_rows(rt, alloc, options.output, &setup, rows, output);
    };
    let (OpenLog { file, lines }, replay) = hear_log(rt, alloc, options, log, head)?;
    let lines = lines.as_slice();
    let rows = Rows {
        input: lines.chain(input),
        log: Skipping::new(lines, file),
        replay,
    };
    serve_rows(rt, alloc, options.output, &setup, rows, output)
}

/// Opens the log of an input that begins with these bytes, and says how its lines are heard again.
fn hear_log<R: Files<File = File>>(
    rt: &R,
    alloc: Global,
    options: &LiveOptions,
    ask: LogAsk<'_>,
    input: Vec<u8>,
) -> Result<(OpenLog, Replay), ServeError>
    ensures hears { IfOk result (λ heard. HearsLog ask.entry.again heard.0.lines.items heard.1) }
    ensures fault { IfErr result IsOfLog }
{
    let log = open_log_of(rt, alloc, options, ask.path, input)?;
    let replay = replay_of(alloc, log.lines.as_slice(), ask.again)?;
    Ok((log, replay))
}

/// Opens the log of an input that begins with these bytes.
fn open_log_of<R: Files<File = File>>(
    rt: &R,
    alloc: Global,
    options: &LiveOptions,
    path: &str,
    input: Vec<u8>,
) -> Result<OpenLog, LogFault> {
    let Ok(head) = log_head(alloc, options.service, input.as_slice()) else {
        return Err(LogFault::OutOfMemory);
    };
    open_log(rt, alloc, path, head.as_slice())
}

/// Serves rows, and prints the header before them and the end behind them.
fn serve_rows<R: Wait + Threads + Sync, I: BufRead + Drop, L: Write + Drop, O: Write>(
    rt: &R,
    alloc: Global,
    end: LiveOutput,
    setup: &RunSetup,
    rows: Rows<I, L>,
    output: &mut O,
) -> Result<(), ServeError>
    ensures ends { IfSome (I.remaining rows.input)
        (λ text. EndsServing end setup.now rows.replay text
        (O.contents output.old) (O.contents output.new) result) }
    ensures fault { IfErr result IsOfRun }
{
    send(
        output,
        b"moment,number,call,from,what,x1,x2,x3,x4\n".as_slice(),
    )?;
    let Rows {
        input,
        mut log,
        replay,
    } = rows;
    let answered = answer_live(rt, alloc, setup, input, output, &mut log, replay)?;
    if is_cut_off(answered.fault) {
        return Err(ServeError::Live(LiveFault::Output));
    }
    print_end(alloc, end, setup, &answered, output)?;
    match answered.fault {
        Some(fault) => Err(ServeError::Live(fault)),
        None => Ok(()),
    }
}

/// Whether the output of a run failed.
fn is_cut_off(fault: Option<LiveFault>) -> bool
    ensures { result ≡ is_cut_off fault }
{
    matches!(fault, Some(LiveFault::Output))
}

/// Prints the end of an output: a line `%%`, and what is asked for, if anything is.
fn print_end<O: Write>(
    alloc: Global,
    end: LiveOutput,
    setup: &RunSetup,
    answered: &Answered,
    output: &mut O,
) -> Result<(), ServeError>
    ensures prints { OnOk result ((text : List ℕ) × IsEndOf end (record {
      setup = setup.now;
      given = answered.now.given.items;
      books = answered.now.books.items;
    }) text × Appends (O.contents output.old) (O.contents output.new) text) }
    ensures cut { IfErr result (IsCutEnd end (record {
      setup = setup.now;
      given = answered.now.given.items;
      books = answered.now.books.items;
    }) (O.contents output.old) (O.contents output.new)) }
{
    let Some(table) = end_table(alloc, end, setup, answered)? else {
        return Ok(());
    };
    send(output, b"%%\n".as_slice())?;
    send(output, table.as_bytes())
}

/// What is printed at the end behind a line `%%`, if anything is.
fn end_table(
    alloc: Global,
    end: LiveOutput,
    setup: &RunSetup,
    answered: &Answered,
) -> Result<Option<String>, AllocError>
    ensures { IfOk result (λ table. IsEndOf end (record {
      setup = setup.now;
      given = answered.now.given.items;
      books = answered.now.books.items;
    }) (end_with (option_map string_bytes table))) }
{
    let books = answered.books.as_slice();
    match end {
        LiveOutput::Nothing => Ok(None),
        LiveOutput::Lines => Ok(Some(run_lines(alloc, books)?)),
        LiveOutput::Book => Ok(Some(book_table(alloc, books, setup.tariff().has_steps())?)),
        LiveOutput::Calls => {
            let calls = records(alloc, setup, answered.given.as_slice(), books)?;
            Ok(Some(call_table(alloc, Clock::Digits, calls.as_slice())?))
        }
    }
}

/// Writes a text and flushes it.
fn send<O: Write>(output: &mut O, text: &[u8]) -> Result<(), ServeError>
    ensures wrote { OnOk result
        (Appends (O.contents output.old) (O.contents output.new) text.now) }
    ensures cut { IfErr result
        (IsCutAt (O.contents output.old) (O.contents output.new) text.now) }
{
    if write_text(output, text) && output.flush().is_ok() {
        Ok(())
    } else {
        Err(ServeError::Live(LiveFault::Output))
    }
}
