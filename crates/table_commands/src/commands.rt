//! The commands that print once their input is read: `price`, `replay`, `audit` and `quote`.

ghost use Rattle.std.specs.Prelude.{◌≡◌, false, None, IfSome, option_map, string_bytes, OnOk};
ghost use Rattle.std.specs.Result.{result_map_both};
ghost use Rattle.table_commands.specs.QuoteWishes.{quote_wish_of};
ghost use Rattle.table_commands.specs.Answers.{IsAuditOfInput, IsAuditOfTable, IsQuoteOfInput, IsQuoteOfTariff, price_of_input, price_of_table, printout_of_audit, replay_of_input, replay_of_table};
ghost use Rattle.table_commands.specs.Explanations.{IsSaidOfAnswer};
ghost use Rattle.table_commands.specs.Faults.{GivesAnswer, GivesOne};
ghost use Rattle.table_commands.specs.Printouts.{plain};
ghost use Rattle.book_texts.specs.Checks.{audited_by};
ghost use Rattle.price_core.specs.RatesOf.{rates_of};

use crate::ending::Ending;
use crate::fault::{Fault, TableName};
use crate::input::read_input;
use crate::price_lines::print_reports;
use crate::quoting::print_quote;
use crate::reports::read_reports;
use crate::{Opening, QuoteAsk};
use book_texts::{Audit, AuditAsk, BookSize, audit_books, replay};
use price_core::Plan;
use run_texts::read_tariff;
use std::alloc::Global;
use std::io::Read;

/// The lines of `price` for the reports in the input, or their first fault, and what is said of it
/// where that is asked for.
pub fn price_input<I: Read + Drop>(
    alloc: Global,
    explains: bool,
    plan: &Plan,
    input: I,
) -> Ending<String>
    ensures answer { IfSome (I.remaining input) (λ text.
        GivesAnswer (λ lines. plain (string_bytes lines)) result.answer
        (price_of_input (rates_of plan.now) text)) }
    ensures more { IsSaidOfAnswer explains false (I.remaining input) result.answer
        (option_map string_bytes result.more) }
    ensures nothing { OnOk result.answer (result.more ≡ None) }
{
    match read_input(alloc, input) {
        Ok(bytes) => {
            let answer = price_reports(alloc, plan, bytes.as_slice());
            Ending::over(alloc, explains, false, bytes.as_slice(), answer)
        }
        Err(why) => Ending::unread(alloc, explains, why),
    }
}

/// The lines of `replay` for the operations in the input, or their first fault, and what is said of
/// it where that is asked for.
pub fn replay_input<I: Read + Drop>(
    alloc: Global,
    explains: bool,
    account: Opening,
    input: I,
) -> Ending<String>
    ensures answer { IfSome (I.remaining input) (λ text.
        GivesAnswer (λ lines. plain (string_bytes lines)) result.answer
        (replay_of_input account.opening account.limit text)) }
    ensures more { IsSaidOfAnswer explains false (I.remaining input) result.answer
        (option_map string_bytes result.more) }
    ensures nothing { OnOk result.answer (result.more ≡ None) }
{
    match read_input(alloc, input) {
        Ok(bytes) => {
            let answer = replay_operations(alloc, account, bytes.as_slice());
            Ending::over(alloc, explains, false, bytes.as_slice(), answer)
        }
        Err(why) => Ending::unread(alloc, explains, why),
    }
}

/// The audit of the books in the input, or their first fault, and what is said of it where that is
/// asked for. A long table is read row by row and never kept, and nothing is said of its fault.
pub fn audit_input<I: Read + Drop>(
    alloc: Global,
    explains: bool,
    ask: AuditAsk,
    input: I,
) -> Ending<Audit>
    ensures answer { IfSome (I.remaining input) (λ text. GivesOne (IsAuditOfInput ask text)
        (result_map_both (λ audit. printout_of_audit (audited_by audit)) (λ fault. fault)
        result.answer)) }
    ensures more { IsSaidOfAnswer explains false (I.remaining input) result.answer
        (option_map string_bytes result.more) }
    ensures nothing { OnOk result.answer (result.more ≡ None) }
{
    if let BookSize::Long = ask.size {
        return Ending::plain(audit_table(alloc, ask, input));
    }
    match read_input(alloc, input) {
        Ok(bytes) => {
            let answer = audit_table(alloc, ask, bytes.as_slice());
            Ending::over(alloc, explains, false, bytes.as_slice(), answer)
        }
        Err(why) => Ending::unread(alloc, explains, why),
    }
}

/// The lines of `quote` for the tariff in the input, or its first fault, and what is said of it
/// where that is asked for.
pub fn quote_input<I: Read + Drop>(
    alloc: Global,
    explains: bool,
    ask: &QuoteAsk,
    input: I,
) -> Ending<String>
    ensures answer { IfSome (I.remaining input) (λ text. GivesOne
        (IsQuoteOfInput (quote_wish_of ask.now) text)
        (result_map_both (λ lines. plain (string_bytes lines)) (λ fault. fault) result.answer)) }
    ensures more { IsSaidOfAnswer explains false (I.remaining input) result.answer
        (option_map string_bytes result.more) }
    ensures nothing { OnOk result.answer (result.more ≡ None) }
{
    match read_input(alloc, input) {
        Ok(bytes) => {
            let answer = quote_tariff(alloc, ask, bytes.as_slice());
            Ending::over(alloc, explains, false, bytes.as_slice(), answer)
        }
        Err(why) => Ending::unread(alloc, explains, why),
    }
}

/// The lines of `price` for the reports of a table.
fn price_reports(alloc: Global, plan: &Plan, table: &[u8]) -> Result<String, Fault>
    ensures { GivesAnswer (λ lines. plain (string_bytes lines)) result
        (price_of_table (rates_of plan.now) table.now) }
{
    match read_reports(alloc, plan, table) {
        Ok(reports) => Ok(print_reports(alloc, plan, &reports)?),
        Err(fault) => Err(Fault::in_table(TableName::Reports, fault)),
    }
}

/// The lines of `replay` for the operations of a table.
fn replay_operations(alloc: Global, account: Opening, table: &[u8]) -> Result<String, Fault>
    ensures { GivesAnswer (λ lines. plain (string_bytes lines)) result
        (replay_of_table account.opening account.limit table.now) }
{
    match replay(alloc, account.opening, account.limit, table) {
        Ok(text) => Ok(text),
        Err(fault) => Err(Fault::in_table(TableName::Ops, fault)),
    }
}

/// The audit of a table of books.
fn audit_table<I: Read + Drop>(alloc: Global, ask: AuditAsk, table: I) -> Result<Audit, Fault>
    ensures { IfSome (I.remaining table) (λ text. GivesOne (IsAuditOfTable ask text)
        (result_map_both (λ audit. printout_of_audit (audited_by audit)) (λ fault. fault)
        result)) }
{
    match audit_books(alloc, table, ask) {
        Ok(audit) => Ok(audit),
        Err(fault) => Err(Fault::in_table(TableName::Book, fault)),
    }
}

/// The lines of `quote` for a tariff.
fn quote_tariff(alloc: Global, ask: &QuoteAsk, tariff: &[u8]) -> Result<String, Fault>
    ensures { GivesOne (IsQuoteOfTariff (quote_wish_of ask.now) tariff.now)
        (result_map_both (λ lines. plain (string_bytes lines)) (λ fault. fault) result) }
{
    match read_tariff(alloc, tariff) {
        Ok(tariff) => Ok(print_quote(alloc, &tariff, ask)?),
        Err(fault) => Err(Fault::of_run_input(fault)),
    }
}
