//! The table of books.

ghost use Rattle.std.specs.Prelude.{◌≡◌, ◌++◌, All, OnOk, IfOk, string_bytes};
ghost use Rattle.std.specs.List.{list_any};
ghost use Rattle.account_core.specs.Entries.{asked_of, entry_data};
ghost use Rattle.book_texts.specs.BookTexts.{asks_steps, book_rows, book_text, entry_row, book_header, history_has_steps, version_of};
ghost use Rattle.book_texts.specs.Typed.{IsTyped, IsTypedAsked};

use crate::columns::{write_answer, write_money, write_operation};
use crate::ranges::op_is_typed;
use crate::version::Version;
use account_core::{Book, Entry, Op};
use std::alloc::{AllocError, Global};

/// The table of these books: a header, and for each book, in order, a row of its opening and a row
/// for each entry of its history. It is of version 4, which has the billing steps of reserves,
/// where `steps` says that the tariff of the books has any, or where a reserve has; else of version
/// 3.
///
/// Where there is a table, the calls, the plans and the other numbers in it that no rule but their
/// type keeps are in the ranges of their types, and no history has more entries than its limit.
pub fn book_table(alloc: Global, books: &[Book], steps: bool) -> Result<String, AllocError>
    ensures text { IfOk result (λ text.
        string_bytes text ≡ book_text (version_of steps books.now) books.now) }
    ensures typed { OnOk result (All IsTyped books.now) }
{
    let version = if steps || any_has_steps(books) {
        Version::Four
    } else {
        Version::Three
    };
    print_books(alloc, books, version)
}

/// Whether any reserve of these books bills in steps.
fn any_has_steps(books: &[Book]) -> bool
    ensures { result ≡ list_any (λ book. history_has_steps book.history) books.now }
{
    books.iter().any(|book| has_steps(book))
}

/// Whether any reserve of a book bills in steps.
fn has_steps(book: &Book) -> bool
    ensures { result ≡ history_has_steps book.now.history }
{
    any_asks_steps(book.history())
}

/// Whether any of these entries is a reserve that bills in steps.
fn any_asks_steps(history: &[Entry]) -> bool
    ensures { result ≡ list_any (λ entry. asks_steps (asked_of entry.op)) history.now }
{
    history.iter().any(|entry| asks_steps(entry.op))
}

/// Whether an operation is a reserve that bills in steps.
fn asks_steps(op: Op) -> bool
    ensures { result ≡ asks_steps (asked_of op) }
{
    match op {
        Op::Reserve { plan, .. } => plan.has_steps(),
        _ => false,
    }
}

/// The table of these books in version 3 or 4.
#[tactic(auto, unfolding(crate::specs::BookTexts::book_text))]
fn print_books(alloc: Global, books: &[Book], version: Version) -> Result<String, AllocError>
    ensures text { IfOk result (λ text. string_bytes text ≡ book_text version books.now) }
    ensures typed { OnOk result (All IsTyped books.now) }
{
    let mut text = String::new(alloc);
    write_header(&mut text, version)?;
    for book in books {
        write_book(&mut text, version, book)?;
    }
    Ok(text)
}

/// Adds the header.
fn write_header(text: &mut String, version: Version) -> Result<(), AllocError>
    ensures { OnOk result (string_bytes text.new ≡ string_bytes text.old ++ book_header version) }
{
    match version {
        Version::One | Version::Two | Version::Three => writeln!(
            text,
            "account,seat,op,call,x1,x2,x3,x4,x5,x6,x7,reply,y1,y2,y3"
        ),
        Version::Four => writeln!(
            text,
            "account,seat,op,call,x1,x2,x3,x4,x5,x6,x7,x8,x9,reply,y1,y2,y3"
        ),
    }
}

/// Adds the rows of a book.
fn write_book(text: &mut String, version: Version, book: &Book) -> Result<(), AllocError>
    ensures text { OnOk result
        (string_bytes text.new ≡ string_bytes text.old ++ book_rows version book.now) }
    ensures typed { OnOk result (IsTyped book.now) }
{
    let account = book.account();
    write!(text, "{account},,")?;
    write_money(text, version, "opening", book.opening(), book.until())?;
    writeln!(text, ",,,")?;
    for entry in book.history() {
        write_entry(text, version, account, entry)?;
    }
    Ok(())
}

/// Adds the row of an entry.
fn write_entry(
    text: &mut String,
    version: Version,
    account: u32,
    entry: &Entry,
) -> Result<(), AllocError>
    ensures text { OnOk result (string_bytes text.new ≡ string_bytes text.old
        ++ entry_row version account (entry_data entry.now)) }
    ensures typed { IsTypedAsked (asked_of entry.now.op) }
{
    op_is_typed(entry.op);
    let seat = entry.seat;
    write!(text, "{account},{seat},")?;
    write_operation(text, version, entry.op)?;
    write_answer(text, entry.reply)
}
