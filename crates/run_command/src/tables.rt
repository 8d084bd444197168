//! A run in all of its outputs.

ghost use Rattle.std.specs.Prelude.{◌≡◌, ◌≤◌, All, IfErr, IfOk, None, true};
ghost use Rattle.std.specs.Result.{result_map_both};
ghost use Rattle.run_command.specs.Answers.{MayFail};
ghost use Rattle.run_command.specs.Played.{AreWhole};
ghost use Rattle.run_command.specs.Tables.{IsTablesAnswer};
ghost use Rattle.run_values.specs.Options.{ask_of};
ghost use Rattle.run_values.specs.declared.options.RunOutput.TheVariants as output;
ghost use Rattle.run_outputs.specs.Texts.{tables_said};
ghost use Rattle.run_texts.specs.Views.{rows_are_in_order};

use crate::RunError;
use crate::playing::play;
use crate::setting_up::{Start, set_up};
use crate::watching::{Watch, Watching};
use price_core::MAX_MOMENT;
use run_outputs::{RunTables, clock_of};
use run_texts::ScriptRow;
use run_values::{RunOptions, RunOutput, RunSetup};
use std::alloc::Global;
use std::sync::Wait;
use std::thread::Threads;
use tariff_core::Clock;

/// The texts of one run of the input's script, which isn't in parts: those that `run` gives for
/// each output. The moments of the calls and of the trace are printed as those of the output that
/// is asked for, in digits where that has none.
///
/// Its faults are those of `run`, and so is what `watch` is shown.
pub fn run_tables<R: Wait + Threads + Sync, W: Watch>(
    rt: &R,
    alloc: Global,
    options: &RunOptions,
    input: &[u8],
    watch: &W,
) -> Result<RunTables, RunError>
    ensures { IsTablesAnswer (ask_of options.now) input.now
        (result_map_both tables_said (λ error. error) result) }
{
    let Start { setup, script } = set_up(alloc, options, input)?;
    play_tables(rt, alloc, options, &setup, script, &Watching::new(watch))
}

/// Plays a script, and prints all that it comes to.
fn play_tables<R: Wait + Threads + Sync, W: Watch>(
    rt: &R,
    alloc: Global,
    options: &RunOptions,
    setup: &RunSetup,
    script: Vec<ScriptRow>,
    watching: &Watching<'_, W>,
) -> Result<RunTables, RunError>
    requires in_range { All (λ row. row.at ≤ MAX_MOMENT) script.items }
    requires in_order { rows_are_in_order 0 script.items ≡ true }
    ensures tables { IfOk result (λ tables.
        AreWhole (ask_of options.now) setup.now script.items (tables_said tables)) }
    ensures fault { IfErr result (MayFail options.now.workers) }
{
    let clock = clock_of(options.output);
    let played = play(rt, alloc, &traced(options, clock), setup, script, watching)?;
    Ok(played.print_all(alloc, clock, setup)?)
}

/// The options of the same run, where its answers are kept as for a trace.
fn traced(options: &RunOptions, clock: Clock) -> RunOptions
    ensures { ask_of result ≡ record (ask_of options.now) {
      output = output.Trace clock;
      parts = None;
    } }
{
    RunOptions {
        workers: options.workers,
        service: options.service,
        ssf: options.ssf,
        delay: options.delay,
        output: RunOutput::Trace(clock),
        parts: None,
    }
}
