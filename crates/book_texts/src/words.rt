//! The words of operations and of replies, each matched once a row.

ghost use Rattle.std.specs.Prelude.{◌≡◌, ◌≤◌};
ghost use Rattle.csv.specs.Records.{fields_of};
ghost use Rattle.table_core.specs.Fields.{field_in};
ghost use Rattle.book_texts.specs.Columns.{answer_at, first_operation_at};
ghost use Rattle.book_texts.specs.Words.{granted_word_in, op_word_in, reply_word_in, report_word_in};

use crate::offsets::{X2, Y2};
use csv::ByteRecord;
use table_core::{RowKind, field, is_word};

/// The word of an operation, with the word of its report for a settle.
#[derive(Clone, Copy)]
pub enum OpWord {
    /// `credit`
    Credit,
    /// `reserve`
    Reserve,
    /// `settle`, by a report without a tariff switch, `n`.
    SettleNoSwitch,
    /// `settle`, by a report after a tariff switch, `s`.
    SettleSwitch,
    /// `return`
    Return,
}

/// The word of a reply, with the second word of a grant.
#[derive(Clone, Copy)]
pub enum ReplyWord {
    /// `credited`
    Credited,
    /// `over`
    CreditOver,
    /// `granted`, and there may be `more`.
    GrantedMore,
    /// `granted`, and it is the `last`.
    GrantedLast,
    /// `denied`
    Denied,
    /// `settled`
    Settled,
    /// `forfeit`
    Forfeit,
    /// `returned`
    Returned,
}

/// The word of the operation whose columns begin at `at`; else `What`.
#[inline(always)]
pub fn read_op_word(row: &ByteRecord, at: usize) -> Result<OpWord, RowKind>
    requires { at ≤ 16 }
    ensures { result ≡ op_word_in (first_operation_at (fields_of row.now) at) }
{
    let word = field(row, at);
    if is_word(word, "credit") {
        Ok(OpWord::Credit)
    } else if is_word(word, "reserve") {
        Ok(OpWord::Reserve)
    } else if is_word(word, "settle") {
        read_report_word(row, at + X2)
    } else if is_word(word, "return") {
        Ok(OpWord::Return)
    } else {
        Err(RowKind::What)
    }
}

/// The word of a settle, by the word of its report in the field at `place`; else `What`.
fn read_report_word(row: &ByteRecord, place: usize) -> Result<OpWord, RowKind>
    ensures { result ≡ report_word_in (field_in (fields_of row.now) place) }
{
    let word = field(row, place);
    if is_word(word, "n") {
        Ok(OpWord::SettleNoSwitch)
    } else if is_word(word, "s") {
        Ok(OpWord::SettleSwitch)
    } else {
        Err(RowKind::What)
    }
}

/// The word of the reply whose columns begin at `at`; else `What`.
pub fn read_reply_word(row: &ByteRecord, at: usize) -> Result<ReplyWord, RowKind>
    requires { at ≤ 16 }
    ensures { result ≡ reply_word_in (answer_at (fields_of row.now) at) }
{
    let word = field(row, at);
    if is_word(word, "granted") {
        read_granted_word(row, at + Y2)
    } else if is_word(word, "settled") {
        Ok(ReplyWord::Settled)
    } else if is_word(word, "returned") {
        Ok(ReplyWord::Returned)
    } else if is_word(word, "credited") {
        Ok(ReplyWord::Credited)
    } else if is_word(word, "over") {
        Ok(ReplyWord::CreditOver)
    } else if is_word(word, "denied") {
        Ok(ReplyWord::Denied)
    } else if is_word(word, "forfeit") {
        Ok(ReplyWord::Forfeit)
    } else {
        Err(RowKind::What)
    }
}

/// The word of a grant, by its second word in the field at `place`; else `What`.
fn read_granted_word(row: &ByteRecord, place: usize) -> Result<ReplyWord, RowKind>
    ensures { result ≡ granted_word_in (field_in (fields_of row.now) place) }
{
    let word = field(row, place);
    if is_word(word, "more") {
        Ok(ReplyWord::GrantedMore)
    } else if is_word(word, "last") {
        Ok(ReplyWord::GrantedLast)
    } else {
        Err(RowKind::What)
    }
}
