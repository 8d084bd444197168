//! A row of the table of books.

ghost use Rattle.std.specs.Prelude.{◌≡◌, ◌≤◌, IfOk};
ghost use Rattle.std.specs.Result.{result_map_both};
ghost use Rattle.csv.specs.Records.{fields_of};
ghost use Rattle.table_core.specs.Fields.{field_in};
ghost use Rattle.book_texts.specs.Columns.{answer_at};
ghost use Rattle.book_texts.specs.BookRows.{book_account_in, columns_in, entry_in, is_no_answer, opening_in, reply_place, row_said_in};
ghost use Rattle.book_texts.specs.SaidOf.{IsAffordable, row_said_of};

use crate::operation::{is_money_blank, is_op_blank, read_op, read_until};
use crate::reply::{is_reply_blank, read_reply};
use crate::seat::read_seat;
use crate::version::Version;
use crate::words::{read_op_word, read_reply_word};
use account_core::Entry;
use csv::ByteRecord;
use price_core::MAX_MONEY;
use table_core::{RowKind, has_word, is_blank, number, when_blank};

/// Where the account's number is in a row.
const ACCOUNT: usize = 0;

/// Where the seat is.
const SEAT: usize = 1;

/// Where the columns of the operation begin.
const OP: usize = 2;

/// Where the credit of an opening is, in `x1`.
const OPENING: usize = 4;

/// What a row says.
#[derive(Clone, Copy)]
pub(crate) enum BookRow {
    /// An account opens.
    Opening {
        /// The account's number.
        account: u32,
        /// The credit, 0 to `MAX_MONEY`.
        opening: u64,
        /// Its last moment, 0 to `HORIZON`, if it has one.
        until: Option<u64>,
    },
    /// An account has one more entry.
    Entry {
        /// The account's number.
        account: u32,
        /// The entry.
        entry: Entry,
    },
}

/// What a row of a table of this version says by itself.
pub(crate) fn read_row(row: &ByteRecord, version: Version) -> Result<BookRow, RowKind>
    ensures says { result_map_both row_said_of (λ kind. kind) result
        ≡ row_said_in (columns_in version (fields_of row.now)) }
    ensures affordable { IfOk result IsAffordable }
{
    if has_word(row, OP, "opening") {
        read_opening(row, version)
    } else {
        read_entry(row, version)
    }
}

/// The opening in a row of a table of this version.
#[tactic(auto, unfolding(crate::specs::BookRows::opening_in))]
fn read_opening(row: &ByteRecord, version: Version) -> Result<BookRow, RowKind>
    ensures says { result_map_both row_said_of (λ kind. kind) result
        ≡ opening_in (columns_in version (fields_of row.now)) }
    ensures affordable { IfOk result IsAffordable }
{
    let account = read_account(row)?;
    let opening = number(row, OPENING, MAX_MONEY)?;
    let until = read_until(row, OP, version)?;
    let row_said = BookRow::Opening {
        account,
        opening,
        until,
    };
    let blank = is_blank(row, SEAT)
        && is_money_blank(row, OP, version)
        && has_no_answer(row, reply_place(version));
    when_blank(blank, row_said)
}

/// The entry in a row of a table of this version.
#[tactic(auto, unfolding(crate::specs::BookRows::entry_in))]
fn read_entry(row: &ByteRecord, version: Version) -> Result<BookRow, RowKind>
    ensures says { result_map_both row_said_of (λ kind. kind) result
        ≡ entry_in (columns_in version (fields_of row.now)) }
    ensures affordable { IfOk result IsAffordable }
{
    let op_word = read_op_word(row, OP)?;
    let reply_at = reply_place(version);
    let reply_word = read_reply_word(row, reply_at)?;
    let account = read_account(row)?;
    let seat = read_seat(row, SEAT)?;
    let op = read_op(row, OP, version, op_word)?;
    let reply = read_reply(row, reply_at, reply_word)?;
    let blank = is_op_blank(row, OP, version, op_word) && is_reply_blank(row, reply_at, reply_word);
    let entry = Entry { seat, op, reply };
    when_blank(blank, BookRow::Entry { account, entry })
}

/// The number of the account of a row; else `Number`.
fn read_account(row: &ByteRecord) -> Result<u32, RowKind>
    ensures { result ≡ book_account_in (field_in (fields_of row.now) 0) }
{
    let account = number(row, ACCOUNT, u64::from(u32::MAX))?;
    Ok(account as u32)
}

/// Whether a reply is empty whose columns begin at `at`.
fn has_no_answer(row: &ByteRecord, at: usize) -> bool
    requires { at ≤ 16 }
    ensures { result ≡ is_no_answer (answer_at (fields_of row.now) at) }
{
    is_blank(row, at) && is_blank(row, at + 1) && is_blank(row, at + 2) && is_blank(row, at + 3)
}

/// Where the columns of the reply begin.
fn reply_place(version: Version) -> usize
    ensures value { result ≡ reply_place version }
    ensures few { result ≤ 13 }
{
    OP + version.width()
}
