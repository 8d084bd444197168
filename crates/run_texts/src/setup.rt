//! The setup table of a run: its accounts and its subscribers.

ghost use Rattle.std.specs.Prelude.{◌≡◌, ◌≤◌, ◌+◌, IfOk, IfSome, OnOk, length};
ghost use Rattle.run_texts.specs.ListedRows.{ListsRow, list_fault_of};
ghost use Rattle.run_texts.specs.Setups.{account_row, setup_row_at, table_setup_of, subscriber_row};
ghost use Rattle.run_texts.specs.Views.{setup_in};
ghost use Rattle.std.specs.Result.{result_map_both};
ghost use Rattle.csv.specs.Records.{fields_of};
ghost use Rattle.table_core.specs.Faults.{GivesTable};
ghost use Rattle.table_core.specs.Rows.{rows_of};
ghost use Rattle.run_values.specs.Setups.{ListingIsWithin};

use crate::fields::{account, amount, party, until};
use csv::ByteRecord;
use run_values::{Directory, MAX_ACCOUNTS, OpeningCredit, SetupFault};
use std::alloc::Global;
use std::io::Read;
use table_core::{RowKind, TableFault, TakeFault, TakeRow, field, has_word, is_blank, take_table};

/// The most rows of a setup, its header not counted.
const MAX_ROWS: u32 = 10_000;

/// The accounts and the subscribers of a table with the header `kind,key,value,until`, whose rows
/// are `account,NUMBER,OPENING,UNTIL`, where UNTIL may be empty, and `subscriber,DIGITS,ACCOUNT,`;
/// or with the older header `kind,key,value`, where no account has a last moment.
///
/// Rows are judged in order as they are read, a row in this order: `Csv` where it hasn't the
/// header's fields; `TooManyRows` past 10,000 rows or 1,000 accounts; `What` where its first word
/// is another one; `Number` where an account's number isn't a decimal of 32 bits, an opening credit
/// not one of 0 to `price_core::MAX_MONEY`, its last moment not one of 0 to `MAX_MOMENT`, or a
/// subscriber not 1 to 15 digits; `Empty` where a subscriber has a last moment; `Repeated` where it
/// names an account or a subscriber again; `Unknown` where no earlier row has a subscriber's
/// account. `Header` is the fault of row 1.
pub fn read_setup<I: Read + Drop>(alloc: Global, reader: I) -> Result<Directory, TableFault>
    ensures means { IfSome (I.remaining reader)
        (λ text. GivesTable setup_in result (table_setup_of (rows_of text))) }
    ensures within { IfOk result ListingIsWithin }
{
    let headers: &[&[&str]] = &[
        &["kind", "key", "value"],
        &["kind", "key", "value", "until"],
    ];
    let mut setup = Setup {
        directory: Directory::new(alloc),
    };
    take_table(alloc, reader, headers, MAX_ROWS, &mut setup)?;
    let Setup { directory } = setup;
    Ok(directory)
}

/// A setup, as far as it was read.
#[derive(Drop)]
struct Setup {
    directory: Directory,
}

impl TakeRow for Setup {
    ghost use Rattle.std.specs.Prelude.{⊤};
    ghost use Rattle.run_texts.specs.ListedRows.{IsListingOf};
    ghost use Rattle.run_texts.specs.Setups.{TableSetup, setup_row_at};

    ghost Terms = { ⊤ };

    ghost Made = { TableSetup };

    ghost judge = { λ terms header earlier fields. setup_row_at earlier fields };

    ghost Has = { λ terms setup rows named. IsListingOf rows named setup.directory };

    fn take(&mut self, _header: usize, row: &ByteRecord) -> Result<(), TakeFault> {
        list_row(&mut self.directory, row)
    }
}

/// Lists what a row names.
#[tactic(auto, unfolding(crate::specs::Setups::setup_row_at))]
fn list_row(directory: &mut Directory, row: &ByteRecord) -> Result<(), TakeFault>
    requires { length directory.old.accounts ≤ MAX_ACCOUNTS }
    ensures means { ListsRow result (setup_in directory.new)
        (setup_row_at (setup_in directory.old) (fields_of row.now)) }
    ensures few { OnOk result (length directory.new.accounts ≤ MAX_ACCOUNTS) }
    ensures count { OnOk result (length directory.new.accounts + length directory.new.subscribers
        ≡ length directory.old.accounts + length directory.old.subscribers + 1) }
{
    if has_word(row, 0, "account") {
        list_account(directory, row)
    } else if has_word(row, 0, "subscriber") {
        list_subscriber(directory, row)
    } else {
        Err(TakeFault::Row(RowKind::What))
    }
}

/// Lists an account: its number, its opening credit, and its last moment or nothing.
fn list_account(directory: &mut Directory, row: &ByteRecord) -> Result<(), TakeFault>
    requires { length directory.old.accounts ≤ MAX_ACCOUNTS }
    ensures means { ListsRow result (setup_in directory.new)
        (account_row (setup_in directory.old) (fields_of row.now)) }
    ensures few { OnOk result (length directory.new.accounts ≤ MAX_ACCOUNTS) }
    ensures count { OnOk result (length directory.new.accounts + length directory.new.subscribers
        ≡ length directory.old.accounts + length directory.old.subscribers + 1) }
{
    if directory.account_count() >= MAX_ACCOUNTS {
        return Err(TakeFault::Row(RowKind::TooManyRows));
    }
    let number = account(field(row, 1))?;
    let opening = OpeningCredit {
        amount: amount(field(row, 2))?,
        until: until(field(row, 3))?,
    };
    listed(directory.account(number, opening))
}

/// Lists a subscriber: its number, and the account that pays for its calls.
fn list_subscriber(directory: &mut Directory, row: &ByteRecord) -> Result<(), TakeFault>
    requires { length directory.old.accounts ≤ MAX_ACCOUNTS }
    ensures means { ListsRow result (setup_in directory.new)
        (subscriber_row (setup_in directory.old) (fields_of row.now)) }
    ensures few { OnOk result (length directory.new.accounts ≤ MAX_ACCOUNTS) }
    ensures count { OnOk result (length directory.new.accounts + length directory.new.subscribers
        ≡ length directory.old.accounts + length directory.old.subscribers + 1) }
{
    let number = party(field(row, 1))?;
    let account = account(field(row, 2))?;
    if !is_blank(row, 3) {
        return Err(TakeFault::Row(RowKind::Empty));
    }
    listed(directory.subscriber(number, account))
}

/// Whether what a row of a setup names was listed, by what its directory says of it.
fn listed(outcome: Result<(), SetupFault>) -> Result<(), TakeFault>
    ensures { result ≡ result_map_both (λ done. done) list_fault_of outcome }
{
    match outcome {
        Ok(()) => Ok(()),
        Err(SetupFault::Repeated) => Err(TakeFault::Row(RowKind::Repeated)),
        Err(SetupFault::Unknown) => Err(TakeFault::Row(RowKind::Unknown)),
        Err(SetupFault::OutOfRange) => Err(TakeFault::Row(RowKind::Number)),
        Err(SetupFault::OutOfMemory) => Err(TakeFault::OutOfMemory),
    }
}
