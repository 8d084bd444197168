//! The lines that a run prints of its books.

ghost use Rattle.std.specs.Prelude.{◌≡◌, ◌++◌, [], OnOk, IfOk, List, string_bytes, map};
ghost use Rattle.std.specs.List.{flat_map};
ghost use Rattle.book_texts.specs.RunTexts.{AreLinesOf, AreOrdered, IsRunText, account_text, call_line, call_line_of};
ghost use Rattle.account_core.specs.Closed.{Closed};
ghost use Rattle.book_texts.specs.declared.lines.CallLine.{CallLine};

use account_core::{Book, CallSum, Fate, Summary};
use std::alloc::{AllocError, Global};
use std::marker::Model;

/// A line `account A opening O available N entries E` for each book, in order, and then a line
/// `call C account A paid P WORD` for each call that an account granted anything, by rising number.
/// A call of several accounts has a line for each of them, in the order of the books.
pub fn run_lines(alloc: Global, books: &[Book]) -> Result<String, AllocError>
    ensures { IfOk result (λ text. IsRunText books.now (string_bytes text)) }
{
    let mut lines = RunLines::new(alloc);
    lines.add(alloc, books)?;
    lines.write()
}

/// The lines that a run prints of books, as far as these are known: the text of the accounts, and
/// the calls whose lines come behind it. It holds no history.
#[derive(Drop)]
pub struct RunLines {
    accounts: String,
    calls: Vec<CallLine>,
}

impl Model for RunLines {
    ghost use Rattle.std.specs.Prelude.{string_bytes};
    ghost use Rattle.book_texts.specs.RunTexts.{LinesSaid};

    ghost Value = { LinesSaid };

    ghost view = { λ lines. record {
      accounts = string_bytes lines.accounts;
      calls = lines.calls.items;
    } };
}

impl RunLines {
    /// The lines of no book.
    pub fn new(alloc: Global) -> RunLines
        ensures { AreLinesOf [] result }
    {
        RunLines {
            accounts: String::new(alloc),
            calls: Vec::new(alloc),
        }
    }

    /// Adds the lines of more books, behind those that there are.
    pub fn add(&mut self, alloc: Global, books: &[Book]) -> Result<(), AllocError>
        ensures { OnOk result ((before : List Closed) → AreLinesOf before self.old
            → AreLinesOf (before ++ books.now) self.new) }
    {
        for book in books {
            let summary = book.summary(alloc)?;
            self.add_one(summary)?;
        }
        Ok(())
    }

    /// Adds the lines of a book.
    fn add_one(&mut self, of: Summary) -> Result<(), AllocError>
        ensures accounts { OnOk result (self.new.accounts ≡ self.old.accounts
            ++ account_text of.account of.opening of.available of.entries) }
        ensures calls { OnOk result (self.new.calls
            ≡ self.old.calls ++ map (call_line_of of.account) of.calls.items) }
    {
        let (account, entries) = (u64::from(of.account), of.entries as u64);
        let text = &mut self.accounts;
        write_account(text, account, of.opening, of.available, entries)?;
        add_calls(&mut self.calls, account, of.calls.as_slice())
    }

    /// Adds the lines of other books, behind those that there are.
    pub fn append(&mut self, more: &RunLines) -> Result<(), AllocError>
        ensures { OnOk result ((books later : List Closed) → AreLinesOf books self.old
            → AreLinesOf later more.now → AreLinesOf (books ++ later) self.new) }
    {
        self.accounts.push_str(more.accounts.as_str())?;
        self.calls.extend_from_slice(more.calls.as_slice())?;
        Ok(())
    }

    /// The text of all lines: `run_lines` says in which order.
    pub fn write(self) -> Result<String, AllocError>
        ensures { IfOk result (λ text. (books : List Closed) → AreLinesOf books self
            → IsRunText books (string_bytes text)) }
    {
        let RunLines { accounts, calls } = self;
        let mut text = accounts;
        write_in_order(&mut text, calls)?;
        Ok(text)
    }
}

/// Adds the line of an account: its number, its opening, what it has left, and how many entries.
pub(crate) fn write_account(
    text: &mut String,
    account: u64,
    opening: u64,
    available: u64,
    entries: u64,
) -> Result<(), AllocError>
    ensures { OnOk result (string_bytes text.new ≡ string_bytes text.old
        ++ account_text account opening available entries) }
{
    writeln!(
        text,
        "account {account} opening {opening} available {available} entries {entries}"
    )
}

/// Adds a line for each call, by rising number, those of one call in the order that they have.
pub(crate) fn write_in_order(text: &mut String, mut lines: Vec<CallLine>) -> Result<(), AllocError>
    ensures { OnOk result ((ordered : List CallLine) × AreOrdered lines.items ordered
        × (string_bytes text.new ≡ string_bytes text.old ++ flat_map call_line ordered)) }
{
    lines.sort_by_key(|line| line.sum.call)?;
    write_calls(text, lines.as_slice())
}

/// Adds a line for each call.
fn write_calls(text: &mut String, lines: &[CallLine]) -> Result<(), AllocError>
    ensures { OnOk result (string_bytes text.new ≡ string_bytes text.old
        ++ flat_map call_line lines.now) }
{
    for line in lines {
        write_call(text, line)?;
    }
    Ok(())
}

/// Adds the line of a call.
fn write_call(text: &mut String, line: &CallLine) -> Result<(), AllocError>
    ensures { OnOk result (string_bytes text.new ≡ string_bytes text.old ++ call_line line.now) }
{
    let (account, call, paid) = (line.account, line.sum.call, line.sum.paid);
    let word = match line.sum.fate {
        Fate::Holding => "holding",
        Fate::Returned => "returned",
        Fate::Forfeit => "forfeit",
    };
    writeln!(text, "call {call} account {account} paid {paid} {word}")
}

/// What a call came to, and the account that granted it something.
#[derive(Clone, Copy)]
pub(crate) struct CallLine {
    /// The number of the account.
    account: u64,
    /// What the call has paid to it, and what has become of it there.
    sum: CallSum,
}

/// Puts the calls of an account behind those of others.
pub(crate) fn add_calls(
    lines: &mut Vec<CallLine>,
    account: u64,
    sums: &[CallSum],
) -> Result<(), AllocError>
    ensures { OnOk result (lines.new.items ≡ lines.old.items ++ map
        (call_line_of account) sums.now) }
{
    for sum in sums {
        lines.push(CallLine { account, sum: *sum })?;
    }
    Ok(())
}
