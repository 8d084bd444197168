//! The audit of a table of books.

ghost use Rattle.std.specs.Prelude.{◌≡◌, ◌++◌, ℕ, List, IfOk, IfSome, Ok, OnOk, map, string_bytes};
ghost use Rattle.std.specs.Result.{result_map_both};
ghost use Rattle.account_core.specs.Entries.{entry_data};
ghost use Rattle.book_texts.specs.Audits.{AreVerdicts, GivesAudit, IsSummedUp, audited, verdict_lines};
ghost use Rattle.book_texts.specs.BookRows.{Enters, columns_in, row_said_in};
ghost use Rattle.book_texts.specs.Books.{Books, books_of, entered_in_books, book_row_at, account_so_far};
ghost use Rattle.book_texts.specs.Checks.{AreChecks, AreNoted, Comes, GivesChecks, HaveChecks, audited_by, verdicts_of};
ghost use Rattle.book_texts.specs.RunTexts.{account_text, call_line_of};
ghost use Rattle.book_texts.specs.Sizes.{most_rows};
ghost use Rattle.csv.specs.Records.{fields_of};
ghost use Rattle.table_core.specs.Rows.{Fields, rows_of};

use crate::account_checks::AccountChecks;
use crate::book_row::{BookRow, read_row};
use crate::lines::{CallLine, add_calls, write_account, write_in_order};
use crate::version::Version;
use crate::wrong_row::{WrongRow, write_wrong};
use crate::{AuditAsk, BookSize};
use account_core::{AccountSum, Entry, HistoryCheck, RisingMap};
use csv::ByteRecord;
use std::alloc::{AllocError, Global};
use std::io::Read;
use table_core::{RowKind, Table, TableFault};

/// What the audit of a table of books says.
#[derive(Drop)]
pub struct Audit {
    /// A line `account A yes` or `account A no` for each account, by rising number; or the lines of
    /// the books.
    pub lines: String,
    /// Whether the history of each account is legal.
    pub passes: bool,
}

/// Whether the history of each account of a table of books, version 1 to 4, is legal from its
/// opening. No row is kept, but a check of each account, with what it knows of each of its calls,
/// and the first wrong row of an account whose history isn't legal. Where lines are asked for, they
/// are those that `run_lines` gives of such books, but `account A no` for an account whose history
/// isn't legal, and no line for its calls.
///
/// Rows are judged in order as they are read, a row in this order: `Csv` where it has another
/// number of fields than the header; `TooManyRows` past as many as a table of this size may have;
/// `What` where the word of its operation or of its reply is another one; `Number` where a field
/// isn't a decimal within its range; `Empty` where a field that must be empty isn't, as the reply
/// of an opening; `Repeated` where an account opens again; `Unknown` where no earlier row opens the
/// account of an entry. `Header` is the fault of row 1.
pub fn audit_books<I: Read + Drop>(
    alloc: Global,
    reader: I,
    ask: AuditAsk,
) -> Result<Audit, TableFault>
    ensures { IfSome (I.remaining reader) (λ text.
        GivesAudit (most_rows ask.size)
        ask.lines ask.rows (rows_of text)
        (result_map_both audited_by (λ fault. fault) result)) }
{
    let checked = check_books(alloc, reader, ask.size)?;
    if ask.lines {
        return Ok(write_sums(alloc, &checked, ask.rows)?);
    }
    Ok(write_audit(alloc, &checked, ask.rows)?)
}

/// What an audit says of these checks where the lines of their books are asked for.
fn write_sums(alloc: Global, checked: &Checked, shown: bool) -> Result<Audit, AllocError>
    ensures { IfOk result (λ audit. (most : ℕ) (rows : List Fields) (books : Books)
        → AreChecks books checked.now.checks.items
        → AreVerdicts most rows books
        (verdicts_of checked.now.checks.items checked.now.wrongs)
        → IsSummedUp shown books
        (verdicts_of checked.now.checks.items checked.now.wrongs) (audited_by audit)) }
{
    let mut lines = String::new(alloc);
    let mut calls = Vec::new(alloc);
    let mut passes = true;
    for (account, check) in &checked.checks {
        let wrong = checked.wrongs.get(*account).copied();
        passes &= wrong.is_none();
        match check.sum(alloc)? {
            Some(sum) => write_sum(&mut lines, &mut calls, *account, &sum)?,
            None => write_verdict(&mut lines, *account, wrong, shown)?,
        }
    }
    write_in_order(&mut lines, calls)?;
    Ok(Audit { lines, passes })
}

/// Adds the line of an account that came to this, and puts its calls behind those of others.
fn write_sum(
    lines: &mut String,
    calls: &mut Vec<CallLine>,
    account: u64,
    sum: &AccountSum,
) -> Result<(), AllocError>
    ensures line { OnOk result (string_bytes lines.new ≡ string_bytes lines.old
        ++ account_text account sum.now.opening sum.now.available sum.now.entries) }
    ensures calls { OnOk result (calls.new.items
        ≡ calls.old.items ++ map (call_line_of account) sum.now.calls.items) }
{
    write_account(lines, account, sum.opening, sum.available, sum.entries)?;
    add_calls(calls, account, sum.calls.as_slice())
}

/// What an audit says of these checks, its wrong rows shown or not.
fn write_audit(alloc: Global, checked: &Checked, shown: bool) -> Result<Audit, AllocError>
    ensures { IfOk result (λ audit. audited_by audit
        ≡ audited shown (verdicts_of checked.now.checks.items checked.now.wrongs)) }
{
    let mut lines = String::new(alloc);
    let mut passes = true;
    for (account, _) in &checked.checks {
        let wrong = checked.wrongs.get(*account).copied();
        passes &= wrong.is_none();
        write_verdict(&mut lines, *account, wrong, shown)?;
    }
    Ok(Audit { lines, passes })
}

/// Adds the line of an account, and behind it that of its wrong row, where it has one and rows are
/// shown.
fn write_verdict(
    lines: &mut String,
    account: u64,
    wrong: Option<WrongRow>,
    shown: bool,
) -> Result<(), AllocError>
    ensures { OnOk result (string_bytes lines.new
        ≡ string_bytes lines.old ++ verdict_lines shown (account, wrong)) }
{
    let word = if wrong.is_none() { "yes" } else { "no" };
    writeln!(lines, "account {account} {word}")?;
    match wrong {
        Some(wrong) if shown => write_wrong(lines, account, &wrong),
        _ => Ok(()),
    }
}

/// What was checked of a table of books.
#[derive(Drop)]
struct Checked {
    /// The check of each account's history, by rising number.
    checks: Vec<(u64, HistoryCheck)>,
    /// The first wrong row of each account that has one.
    wrongs: RisingMap<WrongRow>,
}

/// Checks the history of each account. The entries aren't kept.
fn check_books<I: Read + Drop>(
    alloc: Global,
    reader: I,
    size: BookSize,
) -> Result<Checked, TableFault>
    ensures { IfSome (I.remaining reader) (λ text. GivesChecks (most_rows size) (rows_of text)
        result (books_of (most_rows size) (rows_of text))) }
{
    let headers: &[&[&str]] = &[
        &[
            "account", "seat", "op", "call", "x1", "x2", "x3", "x4", "x5", "reply", "y1", "y2",
            "y3",
        ],
        &[
            "account", "seat", "op", "call", "x1", "x2", "x3", "x4", "x5", "x6", "reply", "y1",
            "y2", "y3",
        ],
        &[
            "account", "seat", "op", "call", "x1", "x2", "x3", "x4", "x5", "x6", "x7", "reply",
            "y1", "y2", "y3",
        ],
        &[
            "account", "seat", "op", "call", "x1", "x2", "x3", "x4", "x5", "x6", "x7", "x8", "x9",
            "reply", "y1", "y2", "y3",
        ],
    ];
    let mut table = Table::open(alloc, reader, headers, size.most_rows())?;
    let version = Version::of_header(table.header());
    let mut checks = AccountChecks::new(alloc);
    let mut wrongs = RisingMap::new(alloc);
    while table.next_row()? {
        let number = table.number();
        if let Some(kind) = take_row(
            alloc,
            &mut checks,
            &mut wrongs,
            table.row(),
            version,
            number,
        )? {
            return Err(table.fault(kind));
        }
    }
    Ok(Checked {
        checks: checks.into_list(alloc)?,
        wrongs,
    })
}

/// Gives a row to the checks, and keeps it where it is the first wrong one of its account. The
/// answer is why the row is refused, if it is.
#[tactic(auto, unfolding(crate::specs::Books::book_row_at))]
fn take_row(
    alloc: Global,
    checks: &mut AccountChecks,
    wrongs: &mut RisingMap<WrongRow>,
    row: &ByteRecord,
    version: Version,
    number: u32,
) -> Result<Option<RowKind>, AllocError>
    requires { (books : Books) × HaveChecks books checks.old }
    ensures comes { IfOk result (λ refused. (books : Books) → HaveChecks books checks.old
        → Comes books refused (book_row_at version books (fields_of row.now)) checks.new) }
    ensures noted { IfOk result (λ refused. (books : Books) → HaveChecks books checks.old
        → AreNoted number books (row_said_in (columns_in version (fields_of row.now)))
        wrongs.old wrongs.new) }
{
    match read_row(row, version) {
        Ok(
            BookRow::Opening {
                account,
                opening,
                until,
            },
        ) => checks.open(alloc, account, opening, until),
        Ok(BookRow::Entry { account, entry }) => hear_entry(checks, wrongs, account, entry, number),
        Err(kind) => Ok(Some(kind)),
    }
}

/// Gives an entry to the check of its account, and keeps its row where it is the first wrong one.
fn hear_entry(
    checks: &mut AccountChecks,
    wrongs: &mut RisingMap<WrongRow>,
    account: u32,
    entry: Entry,
    number: u32,
) -> Result<Option<RowKind>, AllocError>
    requires { (books : Books) × HaveChecks books checks.old }
    ensures comes { IfOk result (λ refused. (books : Books) → HaveChecks books checks.old
        → Comes books refused (entered_in_books account (entry_data entry) books
        (account_so_far account books))
        checks.new) }
    ensures noted { IfOk result (λ refused. (books : Books) → HaveChecks books checks.old
        → AreNoted number books (Ok (Enters account (entry_data entry))) wrongs.old wrongs.new) }
{
    match checks.hear(account, entry)? {
        Err(kind) => Ok(Some(kind)),
        Ok(None) => Ok(None),
        Ok(Some(right)) => {
            let wrong = WrongRow {
                row: number,
                entry,
                right,
            };
            wrongs.insert(u64::from(account), wrong)?;
            Ok(None)
        }
    }
}
