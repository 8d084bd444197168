//! What is kept of a part of a run, and of all of them.

ghost use Rattle.std.specs.Prelude.{◌≡◌, All, IfOk, List, OnOk, string_bytes};
ghost use Rattle.book_texts.specs.Typed.{IsTyped};
ghost use Rattle.run_values.specs.declared.options.RunOutput.{RunOutput};
ghost use Rattle.run_outputs.specs.Kept.{AreKept, IsMergedText, IsPartsText, KeepsBooks, KeepsCalls, KeepsOwn, KeepsPart, PartSaid, PrintsParts, joined_parts, own_books, with_part};
ghost use Rattle.run_outputs.specs.Texts.{run_said_of};

use crate::unplaced::{UnplacedEvent, by_call, events_of};
use crate::{CallRecord, Firsts, Played, Ran, Refusals, call_table, records};
use account_core::Book;
use book_texts::{RunLines, book_table};
use run_values::{Body, RunOutput, RunSetup};
use std::alloc::{AllocError, Global};
use tariff_core::Clock;

/// What is kept of a part that was played, or of all.
#[derive(Drop)]
pub struct Part {
    /// The lines of its own books, where lines are printed.
    pub lines: RunLines,
    /// Its own books, where these are printed.
    pub books: Vec<Book>,
    /// The records of its calls, where these are printed.
    pub calls: Vec<CallRecord>,
    /// How often its accounts refused what they were asked.
    pub refusals: Refusals,
    /// Its events that had no place.
    pub unplaced: Vec<UnplacedEvent>,
}

impl Played {
    /// What is kept of the part of this number that was played over a setup: what is printed of its
    /// own books or its calls, its refusals, and its events that had no place.
    pub fn keep(
        self,
        alloc: Global,
        output: RunOutput,
        setup: &RunSetup,
        firsts: &Firsts,
        number: usize,
    ) -> Result<Part, AllocError>
        ensures { IfOk result (KeepsOwn output setup.now firsts.now number self) }
    {
        let Played {
            given,
            refusals,
            unplaced,
            mut books,
            ..
        } = self;
        let calls = kept_calls(alloc, output, setup, given.as_slice(), books.as_slice())?;
        let unplaced = events_of(alloc, unplaced.as_slice())?;
        keep_own(&mut books, firsts, number);
        let (lines, books) = kept_books(alloc, output, books)?;
        Ok(Part {
            lines,
            books,
            calls,
            refusals,
            unplaced,
        })
    }
}

/// The records of the calls of a part, where these are printed.
fn kept_calls(
    alloc: Global,
    output: RunOutput,
    setup: &RunSetup,
    given: &[(u64, Body)],
    books: &[Book],
) -> Result<Vec<CallRecord>, AllocError>
    ensures { IfOk result (λ calls. KeepsCalls output (record {
      setup = setup.now;
      given = given.now;
      books = books.now;
    }) calls.items) }
{
    match output {
        RunOutput::Calls(_) => records(alloc, setup, given, books),
        RunOutput::Lines | RunOutput::Book | RunOutput::Trace(_) => Ok(Vec::new(alloc)),
    }
}

/// Keeps the books of the accounts of a part.
fn keep_own(books: &mut Vec<Book>, firsts: &Firsts, number: usize)
    ensures { books.new.items ≡ own_books firsts.now number books.old.items }
{
    books.retain(|book| firsts.part_of(book.account()) == number);
}

/// What is printed of the books of a part: their lines, without their histories, or the books.
fn kept_books(
    alloc: Global,
    output: RunOutput,
    books: Vec<Book>,
) -> Result<(RunLines, Vec<Book>), AllocError>
    ensures { IfOk result (λ kept. KeepsBooks output books.items kept.0 kept.1.items) }
{
    match output {
        RunOutput::Lines | RunOutput::Trace(_) => {
            let mut lines = RunLines::new(alloc);
            lines.add(alloc, books.as_slice())?;
            Ok((lines, Vec::new(alloc)))
        }
        RunOutput::Book => Ok((RunLines::new(alloc), books)),
        RunOutput::Calls(_) => Ok((RunLines::new(alloc), Vec::new(alloc))),
    }
}

/// What is printed of all parts of a run, in order: their lines, one part after another, the table
/// of all books, or that of all calls, by rising number.
pub fn print_parts(
    alloc: Global,
    output: RunOutput,
    setup: &RunSetup,
    parts: Vec<Part>,
) -> Result<Ran, AllocError>
    ensures { IfOk result (λ ran. (said : List PartSaid) → AreKept output said parts.items
        → PrintsParts output setup.now.tariff (joined_parts said) (run_said_of ran)) }
{
    let whole = join(alloc, parts)?;
    let refusals = whole.refusals;
    let unplaced = by_call(alloc, whole.unplaced.as_slice())?;
    Ok(Ran {
        text: print_joined(alloc, output, setup, whole)?,
        refusals,
        unplaced,
    })
}

/// What all parts come to together, in order.
fn join(alloc: Global, parts: Vec<Part>) -> Result<Part, AllocError>
    ensures { IfOk result (λ whole. (output : RunOutput) (said : List PartSaid)
        → AreKept output said parts.items → KeepsPart output (joined_parts said) whole) }
{
    let mut whole = Part {
        lines: RunLines::new(alloc),
        books: Vec::new(alloc),
        calls: Vec::new(alloc),
        refusals: Refusals::none(),
        unplaced: Vec::new(alloc),
    };
    for mut part in parts {
        whole.add(&mut part)?;
    }
    Ok(whole)
}

impl Part {
    /// Puts what is kept of a later part behind this, and takes its lists out of it.
    fn add(&mut self, more: &mut Part) -> Result<(), AllocError>
        ensures { OnOk result ((output : RunOutput) (said later : PartSaid)
            → KeepsPart output said self.old → KeepsPart output later more.old
            → KeepsPart output (with_part said later) self.new) }
    {
        self.lines.append(&more.lines)?;
        self.books.append(&mut more.books)?;
        self.calls.append(&mut more.calls)?;
        self.refusals.add(&more.refusals);
        self.unplaced.append(&mut more.unplaced)?;
        Ok(())
    }
}

/// The text of all parts.
fn print_joined(
    alloc: Global,
    output: RunOutput,
    setup: &RunSetup,
    whole: Part,
) -> Result<String, AllocError>
    ensures text { IfOk result (λ text. (said : PartSaid) → KeepsPart output said whole
        → IsPartsText output setup.now.tariff said.books said.calls (string_bytes text)) }
    ensures typed { output ≡ RunOutput.Book → OnOk result (All IsTyped whole.books.items) }
{
    let Part {
        lines,
        books,
        calls,
        ..
    } = whole;
    match output {
        RunOutput::Lines | RunOutput::Trace(_) => lines.write(),
        RunOutput::Book => book_table(alloc, books.as_slice(), setup.tariff().has_steps()),
        RunOutput::Calls(clock) => print_calls(alloc, clock, calls),
    }
}

/// The table of the calls of all parts, by rising number.
fn print_calls(
    alloc: Global,
    clock: Clock,
    mut calls: Vec<CallRecord>,
) -> Result<String, AllocError>
    ensures { IfOk result (λ text. IsMergedText clock calls.items (string_bytes text)) }
{
    calls.sort_by_key(|call| call.call)?;
    call_table(alloc, clock, calls.as_slice())
}
