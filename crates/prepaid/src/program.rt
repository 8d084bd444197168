//! The program, from words and bytes to bytes.

ghost use Rattle.std.specs.Prelude.{◌≡◌, ◌⊎◌, ◌++◌, map, option_map, string_bytes};
ghost use Rattle.std.specs.Io.KnownBytes.{Keeps};
ghost use Rattle.std.specs.Result.{result_map_both};
ghost use Rattle.table_core.specs.Fronts.{AppendsFront};
ghost use Rattle.prepaid.specs.Answers.{Answers, IsCutOff, IsPrinted, IsSaidOrReported, RatesAsAsked, ServesAsAsked};
ghost use Rattle.prepaid.specs.Printouts.{printout_of};
ghost use Rattle.run_outputs.specs.RefusedLines.{refused_line};

use crate::answer::Answer;
use crate::ending::{audit_ending, text_ending};
use crate::running::{run_input, run_input_into};
use crate::serving::serve_messages;
use run_command::Watch;
use run_outputs::{Refusals, refused_line};
use std::convert::AsStr;
use std::fs::File;
use std::io::{BufRead, Write};
use std::rt::Files;
use std::sync::Wait;
use std::thread::Threads;
use table_commands::{
    Ending, Noting, Request, audit_input, explains, price_input, quote_input, rate_input,
    read_words, replay_input, report_output, report_with, write_both,
};
use table_core::write_text;

/// Runs the program over the words after its name, and gives the exit status:
///
/// - 0: all of the answer went to `output`.
/// - 1: a fault of the words or the input.
/// - 2: the run failed: memory ran out, or an input, an output, a log or a file failed.
/// - 3: all of the answer went to `output`, and an audit found an account's history wrong, or a
///   rating a row that differs or has a fault.
///
/// A fault goes to `faults` as one line, and then nothing goes to `output`; but the rows of `rate`
/// and of `serve` are printed as they come, so where their input, a log or memory fails in the
/// middle, `output` has what was printed before. Where the accounts of a run refused anything, a
/// line about it goes to `faults` behind the answer. Where `output` failed, what went to it is a
/// front of the answer, and `faults` gets a line that says why where faults are explained, else
/// nothing; a failing `faults` has a front of its line, and changes no status.
///
/// While a run goes on, `watch` is shown how far it is; nothing else depends on that.
pub fn command<R, S: AsStr, I: BufRead + Drop, O: Write, E: Write, W: Watch + Sync>(
    rt: &R,
    words: &[S],
    input: I,
    output: &mut Noting<O>,
    faults: &mut E,
    watch: &W,
) -> u8
where
    R: AllocGlobal + Wait + Threads + Sync + Files<File = File>,
    ensures answers { Answers (map S.text words.now) (I.remaining input) result
        (record { output = O.contents output.old.inner; faults = E.contents faults.old })
        (record { output = O.contents output.new.inner; faults = E.contents faults.new })
        ⊎ RatesAsAsked (map S.text words.now) (I.remaining input) result
        (record { output = O.contents output.old.inner; faults = E.contents faults.old })
        (record { output = O.contents output.new.inner; faults = E.contents faults.new })
        ⊎ ServesAsAsked (map S.text words.now) (I.remaining input) result
        (record { output = O.contents output.old.inner; faults = E.contents faults.old })
        (record { output = O.contents output.new.inner; faults = E.contents faults.new }) }
    ensures silent { result ≡ 1
        → Keeps (O.contents output.old.inner) (O.contents output.new.inner) }
{
    let alloc = rt.alloc();
    let explains = explains(words);
    let ending = match read_words(alloc, words) {
        Ok(Request::Text(text)) => Ending::plain(Ok(Answer::plain(alloc, text))),
        Ok(Request::Price(plan)) => text_ending(alloc, price_input(alloc, explains, &plan, input)),
        Ok(Request::Replay(account)) => {
            text_ending(alloc, replay_input(alloc, explains, account, input))
        }
        Ok(Request::Audit(ask)) => audit_ending(alloc, audit_input(alloc, explains, ask, input)),
        Ok(Request::Quote(ask)) => text_ending(alloc, quote_input(alloc, explains, &ask, input)),
        Ok(Request::Run(options)) => run_input(rt, alloc, explains, &options, input, watch),
        Ok(Request::RunInto(options, folder)) => {
            run_input_into(rt, alloc, explains, &options, folder, input, watch)
        }
        Ok(Request::Rate(ask)) => return rate_input(alloc, &ask, input, output, faults, explains),
        Ok(Request::Serve(options, log)) => {
            return serve_messages(rt, &options, log, input, output, faults, explains);
        }
        Err(why) => Ending::of_words(alloc, explains, words, why),
    };
    say(output, faults, explains, ending)
}

/// Prints an answer, or reports a fault, with what is said of it, and gives the status.
fn say<O: Write, E: Write>(
    output: &mut Noting<O>,
    faults: &mut E,
    explains: bool,
    ending: Ending<Answer>,
) -> u8
    ensures printed { IsSaidOrReported explains (option_map string_bytes ending.more)
        (result_map_both printout_of (λ fault. fault) ending.answer) result
        (record { output = O.contents output.old.inner; faults = E.contents faults.old })
        (record { output = O.contents output.new.inner; faults = E.contents faults.new }) }
    ensures silent { result ≡ 1
        → Keeps (O.contents output.old.inner) (O.contents output.new.inner) }
{
    let Ending { answer, more } = ending;
    let more = match &more {
        Some(more) => more.as_bytes(),
        None => &[],
    };
    match answer {
        Ok(answer) => print(output, faults, explains, &answer, more),
        Err(fault) => report_with(faults, fault, more),
    }
}

/// The status of an answer: its own where the whole text went to the output, and then the line
/// about refusals to the error writer, with what is said besides; 2 where the output failed.
fn print<O: Write, E: Write>(
    output: &mut Noting<O>,
    faults: &mut E,
    explains: bool,
    answer: &Answer,
    more: &[u8],
) -> u8
    ensures printed { IsPrinted (printout_of answer.now) more.now result
        (record { output = O.contents output.old.inner; faults = E.contents faults.old })
        (record { output = O.contents output.new.inner; faults = E.contents faults.new })
        ⊎ IsCutOff explains (printout_of answer.now) result
        (record { output = O.contents output.old.inner; faults = E.contents faults.old })
        (record { output = O.contents output.new.inner; faults = E.contents faults.new }) }
{
    if write_text(output, answer.text.as_bytes()) && output.flush().is_ok() {
        write_refusals(faults, &answer.refusals, more);
        answer.status()
    } else {
        report_output(faults, explains, output.failed);
        2
    }
}

/// Writes the line about refusals, where there are any, and what is said besides behind it.
fn write_refusals<E: Write>(faults: &mut E, refusals: &Refusals, more: &[u8])
    ensures { AppendsFront (E.contents faults.old) (E.contents faults.new)
        (refused_line refusals.now ++ more.now) }
{
    if let Ok(line) = refused_line(refusals) {
        write_both(faults, line.as_str().as_bytes(), more);
    }
}
