//! The message in a row.

ghost use Rattle.std.specs.Prelude.{◌≡◌, ◌≤◌, IfOk, true};
ghost use Rattle.std.specs.Result.{result_map_both};
ghost use Rattle.run_texts.specs.Messages.{message_call_in, charging_report_in, ended_message_in, event_report_in, initial_in, message_in, report_without_switch, recharge_message_in, speech_in, speech_of, report_with_switch};
ghost use Rattle.run_texts.specs.MessageViews.{view_of};
ghost use Rattle.csv.specs.Records.{fields_of};

use crate::fields::{account, amount, moment_field, party, until};
use crate::words::{Word, read_word};
use cap_values::{Event, Leg, Mode, SsfMsg};
use csv::ByteRecord;
use price_core::{DAY, HORIZON, TimeInfo};
use run_values::Body;
use table_core::{RowKind, field, is_blank, number, optional, when_blank};

/// A message of the switch of a call, or a recharge by the operator, and when.
#[derive(Clone, Copy, Debug, PartialEq, Eq)]
pub struct Message {
    /// The moment, in units of 100 ms: 0 to `HORIZON`.
    pub at: u64,
    /// Its number among the messages, if the row has one.
    pub number: Option<u64>,
    /// What is said.
    pub body: Body,
}

/// The message in a row of the nine columns of a trace: `moment,number,call,from,what,x1,x2,x3,x4`.
///
/// The words are those that a trace prints for a switch and for an operator. A moment is 0 to
/// `HORIZON`; a number may be left out. Judged in this order: `What` where a word is another one;
/// `Number` where a field isn't a decimal, a moment, or the digits of a party, within its range;
/// `Empty` where a field that must be empty isn't.
pub(crate) fn read_message(row: &ByteRecord) -> Result<Message, RowKind>
    ensures says { result_map_both view_of (λ kind. kind) result ≡ message_in (fields_of row.now) }
    ensures in_range { IfOk result (λ message. message.at ≤ HORIZON) }
{
    let word = read_word(row)?;
    let at = moment_field(field(row, 0), HORIZON)?;
    let number = optional(row, 1, u64::MAX)?;
    let body = read_body(row, word)?;
    Ok(Message { at, number, body })
}

/// What is said in a row with this word.
fn read_body(row: &ByteRecord, word: Word) -> Result<Body, RowKind>
    ensures { result_map_both speech_of (λ kind. kind) result
        ≡ speech_in (fields_of row.now) word }
{
    match word {
        Word::InitialDp => read_initial(row),
        Word::EventReport(event, mode) => read_event_report(row, event, mode),
        Word::ChargingReport(active, switched) => read_charging_report(row, active, switched),
        Word::Ended => read_ended(row),
        Word::Recharge => read_recharge(row),
    }
}

/// The call: any number of 64 bits.
fn read_call(row: &ByteRecord) -> Result<u64, RowKind>
    ensures { result ≡ message_call_in (fields_of row.now) }
{
    number(row, 2, u64::MAX)
}

/// InitialDP: x1 is the calling and x2 the called party.
fn read_initial(row: &ByteRecord) -> Result<Body, RowKind>
    ensures { result_map_both speech_of (λ kind. kind) result ≡ initial_in (fields_of row.now) }
{
    let call = read_call(row)?;
    let calling = party(field(row, 5))?;
    let called = party(field(row, 6))?;
    let msg = SsfMsg::InitialDp {
        call,
        calling,
        called,
    };
    when_blank(
        is_blank(row, 7) && is_blank(row, 8),
        Body::Ssf { call, msg },
    )
}

/// EventReportBCSM, whose event and mode are words: x2 is the leg, or empty.
fn read_event_report(row: &ByteRecord, event: Event, mode: Mode) -> Result<Body, RowKind>
    ensures { result_map_both speech_of (λ kind. kind) result
        ≡ event_report_in (fields_of row.now) event mode }
{
    let call = read_call(row)?;
    let leg = match optional(row, 6, 2)? {
        None => None,
        Some(1) => Some(Leg::One),
        Some(2) => Some(Leg::Two),
        Some(_) => return Err(RowKind::Number),
    };
    let msg = SsfMsg::EventReport { event, leg, mode };
    when_blank(is_blank(row, 8), Body::Ssf { call, msg })
}

/// ApplyChargingReport: x3 and x4 are its times.
fn read_charging_report(row: &ByteRecord, active: bool, switched: bool) -> Result<Body, RowKind>
    ensures { result_map_both speech_of (λ kind. kind) result
        ≡ charging_report_in (fields_of row.now) active switched }
{
    let call = read_call(row)?;
    let (info, blank) = if switched {
        (read_switch(row)?, true)
    } else {
        (read_no_switch(row)?, is_blank(row, 8))
    };
    let msg = SsfMsg::ChargingReport { active, info };
    when_blank(blank, Body::Ssf { call, msg })
}

/// The times of a report that knows no switch: x3.
fn read_no_switch(row: &ByteRecord) -> Result<TimeInfo, RowKind>
    ensures { result ≡ report_without_switch (fields_of row.now) }
{
    let t = number(row, 7, u64::from(DAY))? as u32;
    Ok(TimeInfo::NoSwitch { t })
}

/// The times of a report that knows a switch: x3 is the time since, and x4 that before, or empty.
fn read_switch(row: &ByteRecord) -> Result<TimeInfo, RowKind>
    ensures { result ≡ report_with_switch (fields_of row.now) }
{
    let since = number(row, 7, u64::from(DAY))? as u32;
    let interval = match optional(row, 8, u64::from(DAY))? {
        Some(interval) => Some(interval as u32),
        None => None,
    };
    TimeInfo::switch(since, interval).map_err(|_| RowKind::Number)
}

/// Ended: it says no more.
fn read_ended(row: &ByteRecord) -> Result<Body, RowKind>
    ensures { result_map_both speech_of (λ kind. kind) result ≡ ended_message_in
        (fields_of row.now) }
{
    let call = read_call(row)?;
    let blank = is_blank(row, 5) && is_blank(row, 6) && is_blank(row, 7) && is_blank(row, 8);
    when_blank(
        blank,
        Body::Ssf {
            call,
            msg: SsfMsg::Ended,
        },
    )
}

/// Recharge: x1 is the account, x2 the amount, and x3 its last moment from then on, or empty.
fn read_recharge(row: &ByteRecord) -> Result<Body, RowKind>
    ensures { result_map_both speech_of (λ kind. kind) result ≡ recharge_message_in
        (fields_of row.now) }
{
    let account = account(field(row, 5))?;
    let amount = amount(field(row, 6))?;
    let until = until(field(row, 7))?;
    let recharge = Body::Recharge {
        account,
        amount,
        until,
    };
    when_blank(is_blank(row, 2) && is_blank(row, 8), recharge)
}
