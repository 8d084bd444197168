//! A script that was played, in all outputs.

ghost use Rattle.std.specs.Prelude.{◌≡◌, All, IfOk, OnOk};
ghost use Rattle.book_texts.specs.Typed.{IsTyped};
ghost use Rattle.run_outputs.specs.Texts.{AreTextsOf, clock_of, run_of, tables_said};
ghost use Rattle.run_outputs.specs.Unplaced.{AreByCall, events_in_rows};

use crate::unplaced::{UnplacedEvent, events_by_call};
use crate::{Played, Refusals};
use run_values::{RunOutput, RunSetup};
use std::alloc::{AllocError, Global};
use tariff_core::Clock;

/// All that one and the same run prints.
#[derive(Drop)]
pub struct RunTables {
    /// A line for each account and for each of its calls.
    pub lines: String,
    /// The table of books.
    pub book: String,
    /// The table of calls.
    pub calls: String,
    /// The trace.
    pub trace: String,
    /// How often its accounts refused what they were asked.
    pub refusals: Refusals,
    /// The events of the script that had no place, by rising call, those of one call in order.
    pub unplaced: Vec<UnplacedEvent>,
}

impl Played {
    /// All that its run prints, over the setup with which it was played, where all of its answers
    /// were kept. The moments of the calls and of the trace are printed in this form.
    pub fn print_all(
        &self,
        alloc: Global,
        clock: Clock,
        setup: &RunSetup,
    ) -> Result<RunTables, AllocError>
        ensures texts { IfOk result (λ tables. AreTextsOf clock (run_of setup.now self.now)
            self.now.heard.items (tables_said tables)) }
        ensures refusals { IfOk result (λ tables. tables.refusals ≡ self.now.refusals) }
        ensures unplaced { IfOk result (λ tables. AreByCall
            (events_in_rows self.now.unplaced.items) tables.unplaced.items) }
        ensures typed { OnOk result (All IsTyped self.now.books.items) }
    {
        Ok(RunTables {
            lines: self.text(alloc, RunOutput::Lines, setup)?,
            book: self.text(alloc, RunOutput::Book, setup)?,
            calls: self.text(alloc, RunOutput::Calls(clock), setup)?,
            trace: self.text(alloc, RunOutput::Trace(clock), setup)?,
            refusals: self.refusals,
            unplaced: events_by_call(alloc, self.unplaced.as_slice())?,
        })
    }
}

/// The form of the moments in the table of calls or the trace, where one of these is asked for;
/// else digits.
pub fn clock_of(output: RunOutput) -> Clock
    ensures { result ≡ clock_of output }
{
    match output {
        RunOutput::Lines | RunOutput::Book => Clock::Digits,
        RunOutput::Calls(clock) | RunOutput::Trace(clock) => clock,
    }
}
