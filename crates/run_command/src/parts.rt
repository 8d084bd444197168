//! A run that is played in parts.

ghost use Rattle.std.specs.Prelude.{◌≡◌, ◌≤◌, All, IfOk, IfErr, string_bytes, true};
ghost use Rattle.run_command.specs.Answers.{MayFail};
ghost use Rattle.run_command.specs.InParts.{IsInParts, IsKeptPart};
ghost use Rattle.run_values.specs.Options.{ask_of};
ghost use Rattle.run_texts.specs.Views.{rows_are_in_order};

use crate::RunError;
use crate::jobs::play_all;
use crate::playing::play;
use crate::watching::{Watch, Watching};
use price_core::MAX_MOMENT;
use run_outputs::{Division, Firsts, Part, Ran, divide, print_parts};
use run_texts::ScriptRow;
use run_values::{PartsAsk, RunOptions, RunSetup};
use std::alloc::Global;
use std::sync::Wait;
use std::thread::Threads;

/// Plays a script in parts, by as many threads as are asked for, and prints what all of them come
/// to. The fault is that of the first part that has one.
pub(crate) fn run_in_parts<R: Wait + Threads + Sync, W: Watch + Sync>(
    rt: &R,
    alloc: Global,
    options: &RunOptions,
    asked: PartsAsk,
    setup: &RunSetup,
    script: Vec<ScriptRow>,
    watching: &Watching<'_, W>,
) -> Result<Ran, RunError>
    requires in_range { All (λ row. row.at ≤ MAX_MOMENT) script.items }
    requires in_order { rows_are_in_order 0 script.items ≡ true }
    ensures ran { IfOk result (λ ran.
        IsInParts asked.count (ask_of options.now) setup.now script.items
        (string_bytes ran.text) ran.refusals ran.unplaced.items) }
    ensures fault { IfErr result (MayFail options.now.workers) }
{
    let Division { firsts, scripts } = divide(alloc, setup, script, asked.count)?;
    let parts = play_all(
        rt,
        alloc,
        options,
        asked.threads,
        setup,
        &firsts,
        scripts,
        watching,
    )?;
    Ok(print_parts(alloc, options.output, setup, parts)?)
}

/// Plays a part, and keeps what is printed of it.
pub(crate) fn play_part<R: Wait + Threads + Sync, W: Watch>(
    rt: &R,
    alloc: Global,
    options: &RunOptions,
    setup: &RunSetup,
    firsts: &Firsts,
    number: usize,
    script: Vec<ScriptRow>,
    watching: &Watching<'_, W>,
) -> Result<Part, RunError>
    requires in_range { All (λ row. row.at ≤ MAX_MOMENT) script.items }
    requires in_order { rows_are_in_order 0 script.items ≡ true }
    ensures part { IfOk result (IsKeptPart
        (ask_of options.now) setup.now firsts.now number script.items) }
    ensures fault { IfErr result (MayFail options.now.workers) }
{
    let played = play(rt, alloc, options, setup, script, watching)?;
    Ok(played.keep(alloc, options.output, setup, firsts, number)?)
}
