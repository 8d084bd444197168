//! How a command ends: with an answer, or a fault, and what is said behind that.

ghost use Rattle.std.specs.Prelude.{◌≡◌, false, true, Err, None, IfErr, IfOk, IfSome, string_bytes};
ghost use Rattle.std.specs.IoError.{error_kind};
ghost use Rattle.std.specs.Result.{result_map_both};
ghost use Rattle.book_texts.specs.Checks.{audited_by};
ghost use Rattle.table_commands.specs.Answers.{printout_of_audit};
ghost use Rattle.table_commands.specs.Explanations.{IsSaidOfFault};
ghost use Rattle.table_commands.specs.Printouts.{plain};
ghost use Rattle.prepaid.specs.Explanations.{IsSaidBehind};
ghost use Rattle.prepaid.specs.Faults.{of_files};
ghost use Rattle.run_outputs.specs.Lists.{unplaced_line};
ghost use Rattle.prepaid.specs.Printouts.{printout_of};

use crate::answer::Answer;
use crate::faults::fault_of_files;
use book_texts::Audit;
use run_command::stranger_calls;
use run_outputs::{UnplacedEvent, strangers_line, unplaced_line};
use run_values::RunOptions;
use std::alloc::Global;
use std::io::Error;
use table_commands::{Ending, Fault};

/// The ending whose answer is a text.
pub(crate) fn text_ending(alloc: Global, ending: Ending<String>) -> Ending<Answer>
    ensures answer { result_map_both printout_of (λ fault. fault) result.answer
        ≡ result_map_both (λ lines. plain (string_bytes lines)) (λ fault. fault) ending.answer }
    ensures more { result.more ≡ ending.more }
{
    let Ending { answer, more } = ending;
    match answer {
        Ok(text) => Ending {
            answer: Ok(Answer::plain(alloc, text)),
            more,
        },
        Err(fault) => Ending {
            answer: Err(fault),
            more,
        },
    }
}

/// The ending whose answer is an audit.
pub(crate) fn audit_ending(alloc: Global, ending: Ending<Audit>) -> Ending<Answer>
    ensures answer { result_map_both printout_of (λ fault. fault) result.answer
        ≡ result_map_both (λ audit. printout_of_audit (audited_by audit)) (λ fault. fault)
        ending.answer }
    ensures more { result.more ≡ ending.more }
{
    let Ending { answer, more } = ending;
    match answer {
        Ok(audit) => Ending {
            answer: Ok(Answer::of_audit(alloc, audit)),
            more,
        },
        Err(fault) => Ending {
            answer: Err(fault),
            more,
        },
    }
}

/// What a run comes to. Of its fault it says what the input shows, as `Ending::over` does; and of
/// an answer it says which calls the run passed over, since no subscriber has their calling number,
/// and which events had no place in it.
pub(crate) fn run_ending(
    alloc: Global,
    explains: bool,
    options: &RunOptions,
    input: &[u8],
    answer: Result<Answer, Fault>,
) -> Ending<Answer>
    ensures answer { result.answer ≡ answer }
    ensures only { explains ≡ false → result.more ≡ None }
    ensures said { IfErr answer (λ why. IfSome result.more
        (λ more. IsSaidOfFault true input.now why (string_bytes more))) }
    ensures behind { IfOk answer (λ done. IfSome result.more (λ more.
        IsSaidBehind input.now (printout_of done).unplaced (string_bytes more))) }
{
    match &answer {
        Ok(done) if explains => {
            let more = said_behind(alloc, options, input, done.unplaced.as_slice());
            Ending { answer, more }
        }
        _ => Ending::over(alloc, explains, true, input, answer),
    }
}

/// The fault of files that couldn't be written; of one that isn't out of memory is said why, where
/// that is asked for.
pub(crate) fn files_ending(alloc: Global, explains: bool, error: &Error) -> Ending<Answer>
    ensures answer { result.answer ≡ Err (of_files (error_kind error.now)) }
    ensures only { explains ≡ false → result.more ≡ None }
{
    let fault = fault_of_files(error);
    let more = match fault {
        Fault::Into if explains => format!(in alloc; "the files: {error}\n").ok(),
        _ => None,
    };
    Ending {
        answer: Err(fault),
        more,
    }
}

/// What is said of the calls of an input that no subscriber makes, and of the events that had no
/// place in its run; nothing where memory runs out.
fn said_behind(
    alloc: Global,
    options: &RunOptions,
    input: &[u8],
    unplaced: &[UnplacedEvent],
) -> Option<String>
    ensures { IfSome result (λ more.
        IsSaidBehind input.now (unplaced_line unplaced.now) (string_bytes more)) }
{
    let calls = stranger_calls(alloc, options, input).ok()?;
    let mut more = strangers_line(alloc, calls.as_slice()).ok()?;
    let events = unplaced_line(alloc, unplaced).ok()?;
    more.push_str(events.as_str()).ok()?;
    Some(more)
}
