//! What the program prints.

use book_texts::Audit;
use run_outputs::{Refusals, RunTables, UnplacedEvent};
use std::alloc::Global;

/// A text that answers what was asked, and the exit status that goes with it.
#[derive(Drop)]
pub(crate) struct Answer {
    /// The text.
    pub text: String,
    /// Whether all is right that was asked about; only an audit may find that it isn't.
    pub passes: bool,
    /// How often the accounts of a run refused what they were asked.
    pub refusals: Refusals,
    /// The events that had no place in a run.
    pub unplaced: Vec<UnplacedEvent>,
}

impl Answer {
    ghost use Rattle.std.specs.Prelude.{◌≡◌, string_bytes};
    ghost use Rattle.book_texts.specs.Checks.{audited_by};
    ghost use Rattle.run_outputs.specs.Texts.{tables_said};
    ghost use Rattle.table_commands.specs.Answers.{printout_of_audit};
    ghost use Rattle.table_commands.specs.Printouts.{plain, status_of_printout};
    ghost use Rattle.prepaid.specs.Printouts.{printout_of, printout_of_files};

    /// A text that finds nothing wrong, and of no run that refused anything.
    pub fn plain(alloc: Global, text: String) -> Answer
        ensures { printout_of result ≡ plain (string_bytes text) }
    {
        Answer {
            text,
            passes: true,
            refusals: Refusals::none(),
            unplaced: Vec::new(alloc),
        }
    }

    /// The lines of an audit, and whether it passes.
    pub fn of_audit(alloc: Global, audit: Audit) -> Answer
        ensures { printout_of result ≡ printout_of_audit (audited_by audit) }
    {
        Answer {
            text: audit.lines,
            passes: audit.passes,
            refusals: Refusals::none(),
            unplaced: Vec::new(alloc),
        }
    }

    /// What is left to say of a run whose texts are in files.
    pub fn of_files(alloc: Global, tables: RunTables) -> Answer
        ensures { printout_of result ≡ printout_of_files (tables_said tables) }
    {
        let RunTables {
            refusals,
            unplaced,
            ..
        } = tables;
        Answer {
            text: String::new(alloc),
            passes: true,
            refusals,
            unplaced,
        }
    }

    /// The exit status: 0, or 3 where something isn't right.
    pub fn status(&self) -> u8
        ensures { result ≡ status_of_printout (printout_of self.now) }
    {
        if self.passes { 0 } else { 3 }
    }
}
