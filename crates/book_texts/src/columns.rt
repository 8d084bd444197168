//! What is written of an operation and of a reply, in the columns of the table of books.

ghost use Rattle.std.specs.Prelude.{◌≡◌, ◌++◌, [], OnOk, string_bytes};
ghost use Rattle.std.specs.Fmt.{decimal};
ghost use Rattle.account_core.specs.Asked.{Reserves};
ghost use Rattle.account_core.specs.Entries.{asked_of};
ghost use Rattle.book_texts.specs.Columns.{reply_fields, answer_text, no_operation, operation_of, operation_text, settle_of, steps_columns};
ghost use Rattle.price_core.specs.RatesOf.{rates_of};
ghost use Rattle.table_core.specs.Fields.{number_or_empty};

use crate::version::Version;
use account_core::{Op, Reply};
use price_core::{Plan, TimeInfo};
use std::alloc::AllocError;
use table_core::Field;

/// Adds the columns of an operation, from op to x7, in version 4 to x9, each with a comma behind
/// it.
pub fn write_operation(text: &mut String, version: Version, op: Op) -> Result<(), AllocError>
    ensures { OnOk result (string_bytes text.new ≡ string_bytes text.old
        ++ operation_text (operation_of version (asked_of op))) }
{
    match op {
        Op::Credit { amount, until } => write_money(text, version, "credit", amount, until),
        Op::Reserve {
            call,
            plan,
            wanted,
            least,
            at,
        } => write_reserve(text, version, call, plan, wanted, least, at),
        Op::Settle { call, number, info } => write_settle(text, version, call, number, info),
        Op::Return { call } => {
            write!(text, "return,{call},,,,,,,,")?;
            write_no_steps(text, version)
        }
    }
}

/// Adds the columns of an opening or a credit, which have this word, as those of an operation.
pub fn write_money(
    text: &mut String,
    version: Version,
    word: &str,
    amount: u64,
    until: Option<u64>,
) -> Result<(), AllocError>
    ensures { OnOk result (string_bytes text.new ≡ string_bytes text.old
        ++ operation_text (record (no_operation version) {
          op = word.now;
          x1 = decimal amount;
          x2 = number_or_empty until;
        })) }
{
    let until = Field(until);
    write!(text, "{word},,{amount},{until},,,,,,")?;
    write_no_steps(text, version)
}

/// Adds the columns of a reserve.
fn write_reserve(
    text: &mut String,
    version: Version,
    call: u64,
    plan: Plan,
    wanted: u32,
    least: u32,
    at: u64,
) -> Result<(), AllocError>
    ensures { OnOk result (string_bytes text.new ≡ string_bytes text.old ++ operation_text
        (operation_of version (Reserves call (rates_of plan) wanted least at))) }
{
    let Plan {
        fee,
        before,
        free,
        first,
        step,
        ..
    } = plan;
    let after = Field(plan.after);
    write!(
        text,
        "reserve,{call},{fee},{before},{after},{wanted},{least},{free},{at},"
    )?;
    match version {
        Version::Four => write!(text, "{first},{step},"),
        _ => Ok(()),
    }
}

/// Adds x8 and x9 of a row that isn't a reserve, where the version has them.
fn write_no_steps(text: &mut String, version: Version) -> Result<(), AllocError>
    ensures { OnOk result (string_bytes text.new ≡ string_bytes text.old
        ++ steps_columns version [] []) }
{
    match version {
        Version::Four => write!(text, ",,"),
        _ => Ok(()),
    }
}

/// Adds the columns of a settle.
fn write_settle(
    text: &mut String,
    version: Version,
    call: u64,
    number: u64,
    info: TimeInfo,
) -> Result<(), AllocError>
    ensures { OnOk result (string_bytes text.new ≡ string_bytes text.old
        ++ operation_text (settle_of version call number info)) }
{
    let (word, time, interval) = match info {
        TimeInfo::NoSwitch { t } => ("n", t, None),
        TimeInfo::Switch { since, interval } => ("s", since, interval),
    };
    let interval = Field::short(interval);
    write!(text, "settle,{call},{number},{word},{time},{interval},,,,")?;
    write_no_steps(text, version)
}

/// Adds the columns of a reply, from reply to y3, and the end of the line.
pub fn write_answer(text: &mut String, reply: Reply) -> Result<(), AllocError>
    ensures { OnOk result (string_bytes text.new ≡ string_bytes text.old
        ++ answer_text (reply_fields reply)) }
{
    match reply {
        Reply::Credited { available } => write_reply_columns(text, "credited", None, "", available),
        Reply::CreditOver { available } => write_reply_columns(text, "over", None, "", available),
        Reply::Granted {
            units,
            last,
            available,
        } => {
            let more = if last { "last" } else { "more" };
            write_reply_columns(text, "granted", Some(u64::from(units)), more, available)
        }
        Reply::Denied { available } => write_reply_columns(text, "denied", None, "", available),
        Reply::Settled { paid, available } => {
            write_reply_columns(text, "settled", Some(paid), "", available)
        }
        Reply::Forfeit { paid, available } => {
            write_reply_columns(text, "forfeit", Some(paid), "", available)
        }
        Reply::Returned { paid, available } => {
            write_reply_columns(text, "returned", Some(paid), "", available)
        }
    }
}

/// Adds the columns of a reply by what they say, and the end of the line.
fn write_reply_columns(
    text: &mut String,
    word: &str,
    y1: Option<u64>,
    y2: &str,
    available: u64,
) -> Result<(), AllocError>
    ensures { OnOk result (string_bytes text.new ≡ string_bytes text.old
        ++ answer_text (record {
          reply = word.now;
          y1 = number_or_empty y1;
          y2 = y2.now;
          y3 = decimal available;
        })) }
{
    let y1 = Field(y1);
    writeln!(text, "{word},{y1},{y2},{available}")
}
