//! The command `run`.

ghost use Rattle.std.specs.Prelude.{◌≡◌, ◌≤◌, All, IfOk, IfErr, true};
ghost use Rattle.std.specs.Result.{result_map_both};
ghost use Rattle.run_command.specs.Answers.{IsRunAnswer, MayFail};
ghost use Rattle.run_command.specs.Played.{IsWhole};
ghost use Rattle.run_outputs.specs.Texts.{run_said_of};
ghost use Rattle.run_values.specs.Options.{ask_of};
ghost use Rattle.run_texts.specs.Views.{rows_are_in_order};

use crate::RunError;
use crate::parts::run_in_parts;
use crate::playing::play;
use crate::setting_up::{Start, set_up};
use crate::watching::{Watch, Watching};
use price_core::MAX_MOMENT;
use run_outputs::Ran;
use run_texts::ScriptRow;
use run_values::{RunOptions, RunSetup};
use std::alloc::Global;
use std::sync::Wait;
use std::thread::Threads;

/// The text of a run of the input's script: a line for each account and for each of its calls, the
/// table of their books, the table of the calls, or the trace of what was said; and the refusals
/// that the answers of its workers speak of; and the events that had no place, since the gsmSSF of
/// the call refused them. A run may be played in parts, each of neighbouring accounts and of all
/// that the script says of them; its text is that of the books and the calls of all parts together.
///
/// The input is judged first, its sections in order, and its first fault is the result. `Workers`
/// where there aren't 1 to 16 workers; any other fault of a run comes as `runs_core::serve` says.
///
/// While it goes on, `watch` is shown how far it is, after two seconds, and then five times a
/// second.
pub fn run<R: Wait + Threads + Sync, W: Watch + Sync>(
    rt: &R,
    alloc: Global,
    options: &RunOptions,
    input: &[u8],
    watch: &W,
) -> Result<Ran, RunError>
    ensures { IsRunAnswer (ask_of options.now) input.now
        (result_map_both run_said_of (λ error. error) result) }
{
    let Start { setup, script } = set_up(alloc, options, input)?;
    let watching = Watching::new(watch);
    match options.played_parts() {
        None => run_whole(rt, alloc, options, &setup, script, &watching),
        Some(parts) => run_in_parts(rt, alloc, options, parts, &setup, script, &watching),
    }
}

/// Plays a script that isn't in parts, and prints what it comes to.
fn run_whole<R: Wait + Threads + Sync, W: Watch>(
    rt: &R,
    alloc: Global,
    options: &RunOptions,
    setup: &RunSetup,
    script: Vec<ScriptRow>,
    watching: &Watching<'_, W>,
) -> Result<Ran, RunError>
    requires in_range { All (λ row. row.at ≤ MAX_MOMENT) script.items }
    requires in_order { rows_are_in_order 0 script.items ≡ true }
    ensures ran { IfOk result (λ ran.
        IsWhole (ask_of options.now) setup.now script.items (run_said_of ran)) }
    ensures fault { IfErr result (MayFail options.now.workers) }
{
    let played = play(rt, alloc, options, setup, script, watching)?;
    Ok(played.print(alloc, options.output, setup)?)
}
