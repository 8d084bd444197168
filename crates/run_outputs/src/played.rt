//! A script that was played, and its text.

ghost use Rattle.std.specs.Prelude.{◌≡◌, IfOk, OnOk, All, string_bytes};
ghost use Rattle.book_texts.specs.Typed.{IsTyped};
ghost use Rattle.run_outputs.specs.Texts.{IsTextOf, run_of};
ghost use Rattle.run_outputs.specs.Unplaced.{AreByCall, events_in_rows};

use crate::unplaced::{UnplacedEvent, events_by_call};
use crate::{Refusals, call_table, records};
use account_core::Book;
use book_texts::{book_table, run_lines};
use run_texts::{ScriptRow, trace_table};
use run_values::{Answer, Body, RunOutput, RunSetup};
use std::alloc::{AllocError, Global};

/// A script that was played.
#[derive(Drop)]
pub struct Played {
    /// All that was given to the workers, each with its moment, in order.
    pub given: Vec<(u64, Body)>,
    /// The answers that were kept, in order: all of them, where a trace is printed.
    pub heard: Vec<Answer>,
    /// How often the accounts refused what they were asked.
    pub refusals: Refusals,
    /// The rows of the script whose event had no place, in order.
    pub unplaced: Vec<ScriptRow>,
    /// The books of the accounts.
    pub books: Vec<Book>,
}

/// What a run prints.
#[derive(Drop)]
pub struct Ran {
    /// The text.
    pub text: String,
    /// How often its accounts refused what they were asked.
    pub refusals: Refusals,
    /// The events of the script that had no place, by rising call, those of one call in order.
    pub unplaced: Vec<UnplacedEvent>,
}

impl Played {
    /// What its run prints, over the setup with which it was played.
    pub fn print(
        &self,
        alloc: Global,
        output: RunOutput,
        setup: &RunSetup,
    ) -> Result<Ran, AllocError>
        ensures text { IfOk result (λ ran. IsTextOf output
            (run_of setup.now self.now) self.now.heard.items (string_bytes ran.text)) }
        ensures refusals { IfOk result (λ ran. ran.refusals ≡ self.now.refusals) }
        ensures unplaced { IfOk result (λ ran. AreByCall
            (events_in_rows self.now.unplaced.items) ran.unplaced.items) }
        ensures typed { output ≡ RunOutput.Book → OnOk result (All IsTyped self.now.books.items) }
    {
        Ok(Ran {
            text: self.text(alloc, output, setup)?,
            refusals: self.refusals,
            unplaced: events_by_call(alloc, self.unplaced.as_slice())?,
        })
    }

    /// The text of this output.
    pub(crate) fn text(
        &self,
        alloc: Global,
        output: RunOutput,
        setup: &RunSetup,
    ) -> Result<String, AllocError>
        ensures text { IfOk result (λ text. IsTextOf output
            (run_of setup.now self.now) self.now.heard.items (string_bytes text)) }
        ensures typed { output ≡ RunOutput.Book → OnOk result (All IsTyped self.now.books.items) }
    {
        let (given, books) = (self.given.as_slice(), self.books.as_slice());
        match output {
            RunOutput::Lines => run_lines(alloc, books),
            RunOutput::Book => book_table(alloc, books, setup.tariff().has_steps()),
            RunOutput::Calls(clock) => {
                let calls = records(alloc, setup, given, books)?;
                call_table(alloc, clock, calls.as_slice())
            }
            RunOutput::Trace(clock) => trace_table(alloc, clock, given, self.heard.as_slice()),
        }
    }
}
