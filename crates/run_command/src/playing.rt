//! A script is played.

ghost use Rattle.std.specs.Prelude.{◌≡◌, ◌≤◌, ◌++◌, All, IfOk, IfErr, List, true, OnOk};
ghost use Rattle.run_command.specs.Answers.{MayFail};
ghost use Rattle.run_command.specs.Played.{IsPlayedRun};
ghost use Rattle.run_command.specs.Plays.{HearsItsRounds, IsPlayWithout};
ghost use Rattle.run_values.specs.Options.{ask_of};
ghost use Rattle.run_texts.specs.Views.{rows_are_in_order};
ghost use Rattle.run_texts.specs.declared.script.ScriptRow.{ScriptRow};
ghost use Rattle.run_values.specs.declared.post.Answer.{Answer};
ghost use Rattle.runs_core.specs.Teams.{are_workers};

use crate::RunError;
use crate::listening::Listener;
use crate::watching::{Watch, Watcher, Watching};
use account_core::OpenGate;
use price_core::MAX_MOMENT;
use run_outputs::Played;
use run_texts::ScriptRow;
use run_values::{Driver, RunOptions, RunSetup};
use runs_core::serve;
use script_player::ScriptPlayer;
use std::alloc::Global;
use std::sync::Wait;
use std::thread::Threads;

/// Plays a script, the whole one or that of a part, over the accounts of a setup. While it is
/// played it is shown how far it is, and that is taken away at its end.
pub(crate) fn play<R: Wait + Threads + Sync, W: Watch>(
    rt: &R,
    alloc: Global,
    options: &RunOptions,
    setup: &RunSetup,
    script: Vec<ScriptRow>,
    watching: &Watching<'_, W>,
) -> Result<Played, RunError>
    requires in_range { All (λ row. row.at ≤ MAX_MOMENT) script.items }
    requires in_order { rows_are_in_order 0 script.items ≡ true }
    ensures workers { OnOk result (are_workers options.now.workers ≡ true) }
    ensures played { IfOk result (IsPlayedRun (ask_of options.now) setup.now script.items) }
    ensures fault { IfErr result (MayFail options.now.workers) }
{
    let watcher = Watcher::new(watching, script.as_slice());
    let player = ScriptPlayer::new(alloc, script, options.ssf, options.delay)?;
    let mut listener = Listener::new(alloc, player, options.output, watcher);
    let served = serve(rt, alloc, setup, &mut listener, options.workers, &OpenGate);
    listener.watcher.clear();
    let books = served?;
    is_played(&listener.player);
    Ok(listener.played(books))
}

/// What a player that has ended has given is the play of its rows by the answers that it has heard,
/// in which the rows had no place that it says.
fn is_played(player: &ScriptPlayer)
    requires { player.now.ended ≡ true }
    ensures { (rows : List ScriptRow) (heard : List (List Answer))
        → player.now.taken ++ player.now.left ≡ rows
        → HearsItsRounds player.now.network.config player.now.delay rows heard player.now
        → IsPlayWithout player.now.network.config player.now.delay rows heard
        player.now.network.given player.now.unplaced }
{
    let _ = player.ended();
    let _ = player.given();
}
