//! The records of a run's calls.

ghost use Rattle.std.specs.Prelude.{◌≡◌, IfOk};
ghost use Rattle.std.specs.Option.{option_map};
ghost use Rattle.cap_values.specs.NumberDigits.{digits_of_number};
ghost use Rattle.run_values.specs.Setups.{account_of};
ghost use Rattle.run_outputs.specs.Calls.{call_reports_of};
ghost use Rattle.run_outputs.specs.KeptRecords.{HaveAccounts, HaveReports, HaveStarts};
ghost use Rattle.run_outputs.specs.Records.{AreRecords, IsPrefixOf, IsRecordFrom, Run};
ghost use Rattle.run_outputs.specs.Standings.{past_of, standing_of};

use crate::accounts::{AccountCalls, accounts_in, standing_in};
use crate::reports::{CallReports, reports_in, reports_of};
use crate::standing::Standing;
use crate::starts::{Start, starts_in};
use crate::{CallRecord, Outcome};
use account_core::{Book, RisingMap};
use cap_values::Number;
use run_values::{Body, RunSetup};
use std::alloc::{AllocError, Global};
use std::collections::BTreeMap;
use tariff_core::Tariff;

/// A record of each call that starts among what a run's workers were given, by rising number: as
/// they were given, and as its account's book says.
pub fn records(
    alloc: Global,
    setup: &RunSetup,
    given: &[(u64, Body)],
    books: &[Book],
) -> Result<Vec<CallRecord>, AllocError>
    ensures { IfOk result (λ calls. AreRecords (record {
      setup = setup.now;
      given = given.now;
      books = books.now;
    }) calls.items) }
{
    let starts = starts_in(alloc, given)?;
    let reports = reports_in(alloc, given)?;
    let accounts = accounts_in(alloc, books)?;
    list(alloc, setup, &starts, &reports, &accounts)
}

/// A record of each call that starts.
fn list(
    alloc: Global,
    setup: &RunSetup,
    starts: &BTreeMap<u64, Start>,
    reports: &RisingMap<CallReports>,
    accounts: &BTreeMap<u32, AccountCalls>,
) -> Result<Vec<CallRecord>, AllocError>
    ensures { IfOk result (λ calls. (run : Run) → run.setup ≡ setup.now
        → HaveStarts starts.now run.given → HaveReports reports.now run.given
        → HaveAccounts accounts.now run.books → AreRecords run calls.items) }
{
    let mut records = Vec::new(alloc);
    for (call, start) in starts.iter() {
        let account = setup.account_of(start.calling);
        let standing = standing_in(accounts, account, *call);
        let reports = reports_of(reports, *call);
        let record = record_call(alloc, setup, *call, *start, account, &reports, &standing)?;
        records.push(record)?;
    }
    Ok(records)
}

/// The record of a call.
fn record_call(
    alloc: Global,
    setup: &RunSetup,
    call: u64,
    start: Start,
    account: Option<u32>,
    reports: &CallReports,
    standing: &Standing,
) -> Result<CallRecord, AllocError>
    ensures call { IfOk result (λ made. made.call ≡ call) }
    ensures from { IfOk result (λ made. (run : Run) → run.setup ≡ setup.now
        → account ≡ account_of start.calling setup.now.subscribers
        → reports.now ≡ call_reports_of call run.given
        → standing.now ≡ standing_of call (past_of account run.books)
        → IsRecordFrom run start made) }
{
    let prefix = prefix_of(alloc, setup.tariff(), start.called)?;
    let outcome = Outcome::of(account, prefix.is_some(), reports, standing);
    Ok(CallRecord {
        call,
        calling: start.calling,
        called: start.called,
        account,
        prefix,
        start: start.at,
        answer: reports.answer,
        end: reports.end,
        times: standing.times,
        paid: standing.paid,
        outcome,
    })
}

/// The longest prefix of a tariff that a called number begins with, if there is one. It is the same
/// at each moment.
fn prefix_of(alloc: Global, tariff: &Tariff, called: Number) -> Result<Option<Vec<u8>>, AllocError>
    ensures { IfOk result (λ prefix. IsPrefixOf tariff.now (digits_of_number called)
        (option_map (λ digits. digits.items) prefix)) }
{
    let Some(quote) = tariff.quote(called.as_bytes(), 0) else {
        return Ok(None);
    };
    Ok(Some(Vec::from_slice(alloc, quote.prefix)?))
}
