//! A row of a table of books whose reply is wrong.

ghost use Rattle.std.specs.Prelude.{◌≡◌, ◌++◌, OnOk, string_bytes};
ghost use Rattle.book_texts.specs.Wrongs.{wrong_line};

use crate::response::{op_word, write_reply, write_response};
use account_core::{AccountFault, Entry, Reply};
use std::alloc::AllocError;

/// The first row of an account whose reply isn't what an account answers.
#[derive(Clone, Copy)]
pub(crate) struct WrongRow {
    /// Its number, the header being row 1.
    pub row: u32,
    /// What it says.
    pub entry: Entry,
    /// What an account answers the operation: its reply, or the fault that refuses it.
    pub right: Result<Reply, AccountFault>,
}

/// Adds the line of a wrong row.
pub(crate) fn write_wrong(
    lines: &mut String,
    account: u64,
    wrong: &WrongRow,
) -> Result<(), AllocError>
    ensures { OnOk result (string_bytes lines.new
        ≡ string_bytes lines.old ++ wrong_line account wrong.now) }
{
    let (row, word) = (wrong.row, op_word(&wrong.entry.op));
    write!(lines, "account {account} row {row}: {word}: ")?;
    write_reply(lines, wrong.entry.reply)?;
    lines.push_str(", is ")?;
    write_response(lines, wrong.right)?;
    lines.push('\n')
}
