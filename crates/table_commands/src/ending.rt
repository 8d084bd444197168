//! An answer, or a fault and what is said of it.

ghost use Rattle.std.specs.Prelude.{◌≡◌, false, Err, None, IfErr, IfSome, string_bytes, OnOk};
ghost use Rattle.table_commands.specs.Explanations.{IsOfWords, IsSaidOfFault, slip_of};
ghost use Rattle.table_commands.specs.Faults.{of_words};
ghost use Rattle.table_commands.specs.declared.fault.Fault.TheVariants as fault;

use crate::WordsFault;
use crate::arguments::explain_words;
use crate::explanations::{Said, Slip, explain, explain_dividers};
use crate::fault::{Fault, TableName};
use crate::input::MAX_INPUT;
use std::alloc::{AllocError, Global};
use std::convert::AsStr;

/// How a command ends: an answer, or a fault, and what is said behind that.
#[derive(Drop)]
pub struct Ending<A> {
    /// The answer, or the fault.
    pub answer: Result<A, Fault>,
    /// What is said of the fault, or behind the answer.
    pub more: Option<String>,
}

impl<A: Drop> Ending<A> {
    /// An answer, or a fault of which nothing is said.
    pub fn plain(answer: Result<A, Fault>) -> Ending<A>
        ensures answer { result.answer ≡ answer }
        ensures more { result.more ≡ None }
    {
        Ending { answer, more: None }
    }

    /// An answer, or a fault of which is said what the input shows, where that is asked for. Where
    /// memory runs out for that, nothing is said.
    pub fn over(
        alloc: Global,
        explains: bool,
        in_sections: bool,
        input: &[u8],
        answer: Result<A, Fault>,
    ) -> Ending<A>
        ensures answer { result.answer ≡ answer }
        ensures only { explains ≡ false → result.more ≡ None }
        ensures plain { OnOk answer (result.more ≡ None) }
        ensures said { IfErr answer (λ why. IfSome result.more
            (λ more. IsSaidOfFault in_sections input.now why (string_bytes more))) }
    {
        let more = match &answer {
            Err(fault) if explains => said_of(alloc, in_sections, input, *fault),
            _ => None,
        };
        Ending { answer, more }
    }

    /// The fault of an input that wasn't read. Of one that is too long is said how long it may be,
    /// where that is asked for.
    pub fn unread(alloc: Global, explains: bool, why: Fault) -> Ending<A>
        ensures answer { result.answer ≡ Err why }
        ensures only { explains ≡ false → result.more ≡ None }
        ensures length { IfSome result.more (λ _. why ≡ fault.TooLong) }
    {
        let more = match why {
            Fault::TooLong if explains => format!(in alloc;
                "at most {MAX_INPUT} bytes; docs/SCALING.md has larger loads\n"
            ).ok(),
            _ => None,
        };
        Ending {
            answer: Err(why),
            more,
        }
    }

    /// The fault of words, and what is said of them where that is asked for: what `clap` says, or
    /// which time is out of its range.
    pub fn of_words<S: AsStr>(
        alloc: Global,
        explains: bool,
        words: &[S],
        why: WordsFault,
    ) -> Ending<A>
        ensures answer { result.answer ≡ Err (of_words why) }
        ensures only { explains ≡ false → result.more ≡ None }
        ensures words { IfSome result.more (λ more. IsOfWords (of_words why)) }
    {
        let more = match why {
            WordsFault::Arguments | WordsFault::Config if explains => {
                said_of_words(alloc, words)
            }
            _ => None,
        };
        Ending {
            answer: Err(Fault::from(why)),
            more,
        }
    }
}

/// What is said of words, without empty lines; nothing where memory runs out.
fn said_of_words<S: AsStr>(alloc: Global, words: &[S]) -> Option<String> {
    match explain_words(alloc, words) {
        Ok(said) => full_lines(alloc, said.as_str()).ok(),
        Err(_) => None,
    }
}

/// The lines of a text that aren't empty.
fn full_lines(alloc: Global, text: &str) -> Result<String, AllocError> {
    let mut said = Said::new(alloc);
    for line in text.split('\n') {
        if !line.is_empty() {
            writeln!(said, "{line}");
        }
    }
    said.into_text()
}

/// What is said of a fault over an input; nothing where memory runs out.
fn said_of(alloc: Global, in_sections: bool, input: &[u8], fault: Fault) -> Option<String>
    ensures { IfSome result (λ more.
        IsSaidOfFault in_sections input.now fault (string_bytes more)) }
{
    match slip_of(in_sections, fault) {
        Some(slip) => explain(alloc, input, slip),
        None => dividers_of(alloc, input, fault),
    }
}

/// What is said of the lines that divide an input, where these are wrong.
fn dividers_of(alloc: Global, input: &[u8], fault: Fault) -> Option<String> {
    match fault {
        Fault::Parts => explain_dividers(alloc, input).ok(),
        _ => None,
    }
}

/// The fault of a table in an input, which has three sections or is that table.
fn slip_of(in_sections: bool, fault: Fault) -> Option<Slip>
    ensures { result ≡ slip_of in_sections fault }
{
    match fault {
        Fault::Tariff(fault) if in_sections => Some(Slip::RunTariff(fault)),
        Fault::Tariff(fault) => Some(Slip::Tariff(fault)),
        Fault::Table(TableName::Reports, fault) => Some(Slip::Reports(fault)),
        Fault::Table(TableName::Ops, fault) => Some(Slip::Ops(fault)),
        Fault::Table(TableName::Book, fault) => Some(Slip::Book(fault)),
        Fault::Table(TableName::Setup, fault) => Some(Slip::Setup(fault)),
        Fault::Table(TableName::Script, fault) => Some(Slip::Script(fault)),
        _ => None,
    }
}
