//! A player that counts the refusals in the answers that it hears, may keep the answers, and is
//! watched.

ghost use Rattle.std.specs.Prelude.{◌≡◌, ◌++◌, []};
ghost use Rattle.run_outputs.specs.Refused.{none_refused};
ghost use Rattle.run_values.specs.Options.{is_trace};

use crate::watching::{Watch, Watcher};
use account_core::Book;
use run_outputs::{Played, Refusals};
use run_values::{Answer, Body, Driver, RunOutput};
use script_player::ScriptPlayer;
use std::alloc::{AllocError, Global};

/// Plays a script, counts the refusals that the answers speak of, keeps the answers where a trace
/// is to be printed of them, and shows how far it is.
#[derive(Drop)]
pub(crate) struct Listener<'w, W> {
    /// The player of the script.
    pub player: ScriptPlayer,
    /// Whether answers are kept.
    pub keeps: bool,
    /// The answers that were kept, in order.
    pub heard: Vec<Answer>,
    /// The refusals in all answers.
    pub refusals: Refusals,
    /// Who watches it.
    pub watcher: Watcher<'w, W>,
}

impl<'w, W: Watch> Listener<'w, W> {
    /// A player that has heard nothing yet, for a run that prints this.
    pub(crate) fn new(
        alloc: Global,
        player: ScriptPlayer,
        output: RunOutput,
        watcher: Watcher<'w, W>,
    ) -> Listener<'w, W>
        ensures player { result.player ≡ player }
        ensures keeps { result.keeps ≡ is_trace output }
        ensures heard { result.heard.items ≡ [] }
        ensures refusals { result.refusals ≡ none_refused }
    {
        Listener {
            player,
            keeps: matches!(output, RunOutput::Trace(_)),
            heard: Vec::new(alloc),
            refusals: Refusals::none(),
            watcher,
        }
    }

    /// What was played by it, with these books.
    pub(crate) fn played(self, books: Vec<Book>) -> Played
        ensures given { result.given.items ≡ self.entry.player.network.given }
        ensures heard { result.heard ≡ self.entry.heard }
        ensures refusals { result.refusals ≡ self.entry.refusals }
        ensures unplaced { result.unplaced.items ≡ self.entry.player.unplaced }
        ensures books { result.books ≡ books }
    {
        let (given, unplaced) = self.player.into_parts();
        Played {
            given,
            heard: self.heard,
            refusals: self.refusals,
            unplaced,
            books,
        }
    }
}

impl<W: Watch> Driver for Listener<'_, W> {
    ghost use Rattle.std.specs.Prelude.{ℕ, List};
    ghost use Rattle.run_command.specs.Listening.{Listens};
    ghost use Rattle.run_texts.specs.declared.script.ScriptRow.{ScriptRow};
    ghost use Rattle.ssf_core.specs.declared.config.SsfConfig.{SsfConfig};

    ghost given = { λ listener. listener.player.network.given };

    ghost ended = { λ listener. listener.player.ended };

    ghost Agenda = { SsfConfig × ℕ × List ScriptRow };

    ghost agenda = { λ listener. (
      listener.player.network.config,
      listener.player.delay,
      listener.player.taken ++ listener.player.left,
    ) };

    ghost hears = { Listens };

    fn given(&self) -> &[(u64, Body)] {
        self.player.given()
    }

    fn ended(&self) -> bool {
        self.player.ended()
    }

    fn round(&mut self, answers: &[Answer]) -> Result<bool, AllocError> {
        if self.keeps {
            self.heard.extend_from_slice(answers)?;
        }
        self.refusals.hear(answers);
        let more = self.player.round(answers)?;
        self.watcher.see(&self.player);
        Ok(more)
    }
}
