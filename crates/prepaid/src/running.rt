//! The command `run`.

ghost use Rattle.std.specs.Prelude.{◌≡◌, false, true, None, IfErr, IfOk, IfSome, option_map, string_bytes};
ghost use Rattle.std.specs.Result.{result_map_both};
ghost use Rattle.run_values.specs.Options.{ask_of};
ghost use Rattle.table_commands.specs.Explanations.{IsSaidOfAnswer, IsSaidOfFault};
ghost use Rattle.table_commands.specs.Faults.{GivesOne};
ghost use Rattle.prepaid.specs.Answers.{IsFiledRun, IsFiledRunOfInput, IsRunOfInput, IsRunPrinted};
ghost use Rattle.prepaid.specs.Explanations.{IsSaidBehind};
ghost use Rattle.prepaid.specs.Printouts.{printout_of};

use crate::answer::Answer;
use crate::ending::{files_ending, run_ending};
use crate::faults::fault_of_run;
use crate::files::files_of;
use run_command::{Watch, run, run_tables};
use run_outputs::{Ran, write_files};
use run_values::RunOptions;
use std::alloc::Global;
use std::fs::File;
use std::io::Read;
use std::rt::Files;
use std::sync::Wait;
use std::thread::Threads;
use table_commands::{Ending, Fault, read_input};

/// What is printed of a run of the script in the input, or the first fault, and what is said behind
/// that where it is asked for.
pub(crate) fn run_input<R: Wait + Threads + Sync, I: Read + Drop, W: Watch + Sync>(
    rt: &R,
    alloc: Global,
    explains: bool,
    options: &RunOptions,
    input: I,
    watch: &W,
) -> Ending<Answer>
    ensures answer { IfSome (I.remaining input) (λ text.
        GivesOne (IsRunOfInput (ask_of options.now) text)
        (result_map_both printout_of (λ fault. fault) result.answer)) }
    ensures more { IsSaidOfAnswer explains true (I.remaining input) result.answer
        (option_map string_bytes result.more) }
    ensures behind { IfSome (I.remaining input) (λ text. IfOk result.answer
        (λ done. IfSome result.more (λ more. IsSaidBehind
        text (printout_of done).unplaced (string_bytes more)))) }
{
    match read_input(alloc, input) {
        Ok(bytes) => {
            let answer = run_script(rt, alloc, options, bytes.as_slice(), watch);
            run_ending(alloc, explains, options, bytes.as_slice(), answer)
        }
        Err(why) => Ending::unread(alloc, explains, why),
    }
}

/// What is printed of a run of this script, or its fault.
fn run_script<R: Wait + Threads + Sync, W: Watch + Sync>(
    rt: &R,
    alloc: Global,
    options: &RunOptions,
    input: &[u8],
    watch: &W,
) -> Result<Answer, Fault>
    ensures { GivesOne (IsRunPrinted (ask_of options.now) input.now)
        (result_map_both printout_of (λ fault. fault) result) }
{
    match run(rt, alloc, options, input, watch) {
        Ok(
            Ran {
                text,
                refusals,
                unplaced,
            },
        ) => Ok(Answer {
            text,
            passes: true,
            refusals,
            unplaced,
        }),
        Err(error) => Err(fault_of_run(error)),
    }
}

/// The same of a run whose lines and tables go into files of the folder at this path: nothing of it
/// is printed.
pub(crate) fn run_input_into<R, I: Read + Drop, W: Watch>(
    rt: &R,
    alloc: Global,
    explains: bool,
    options: &RunOptions,
    folder: &str,
    input: I,
    watch: &W,
) -> Ending<Answer>
where
    R: Wait + Threads + Sync + Files<File = File>,
    ensures answer { IfSome (I.remaining input) (λ text.
        GivesOne (IsFiledRunOfInput (ask_of options.now) text)
        (result_map_both printout_of (λ fault. fault) result.answer)) }
    ensures more { IsSaidOfAnswer explains true (I.remaining input) result.answer
        (option_map string_bytes result.more) }
    ensures behind { IfSome (I.remaining input) (λ text. IfOk result.answer
        (λ done. IfSome result.more (λ more. IsSaidBehind
        text (printout_of done).unplaced (string_bytes more)))) }
{
    match read_input(alloc, input) {
        Ok(bytes) => run_into(
            rt,
            alloc,
            explains,
            options,
            folder,
            bytes.as_slice(),
            watch,
        ),
        Err(why) => Ending::unread(alloc, explains, why),
    }
}

/// A run of this script, whose lines and tables go into files of a folder.
fn run_into<R, W: Watch>(
    rt: &R,
    alloc: Global,
    explains: bool,
    options: &RunOptions,
    folder: &str,
    input: &[u8],
    watch: &W,
) -> Ending<Answer>
where
    R: Wait + Threads + Sync + Files<File = File>,
    ensures answer { GivesOne (IsFiledRun (ask_of options.now) input.now)
        (result_map_both printout_of (λ fault. fault) result.answer) }
    ensures only { explains ≡ false → result.more ≡ None }
    ensures said { IfErr result.answer (λ why. IfSome result.more
        (λ more. IsSaidOfFault true input.now why (string_bytes more))) }
    ensures behind { IfOk result.answer (λ done. IfSome result.more (λ more.
        IsSaidBehind input.now (printout_of done).unplaced (string_bytes more))) }
{
    match run_tables(rt, alloc, options, input, watch) {
        Ok(tables) => match write_files(rt, alloc, folder, &files_of(&tables)) {
            Ok(()) => {
                let answer = Ok(Answer::of_files(alloc, tables));
                run_ending(alloc, explains, options, input, answer)
            }
            Err(error) => files_ending(alloc, explains, &error),
        },
        Err(error) => Ending::over(alloc, explains, true, input, Err(fault_of_run(error))),
    }
}
