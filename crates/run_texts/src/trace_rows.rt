//! The rows of a post and of its answer.

ghost use Rattle.std.specs.Prelude.{◌≡◌, ◌++◌, Some, map, OnOk, string_bytes};
ghost use Rattle.run_texts.specs.Said.{message_said, operation_said, post_said, report_said, event_word, leg_number, mode_word};
ghost use Rattle.run_texts.specs.Tables.{answer_rows, call_of_post, trace_row, said_text, sender_of, service_rows};

use cap_values::{Event, Leg, Mode, ScfOp, SsfMsg};
use price_core::TimeInfo;
use run_values::{Answer, Body};
use ssf_core::operations_of;
use std::alloc::AllocError;
use table_core::Field;
use tariff_core::{Clock, MomentField};

/// The call of a post, if it has one.
pub(crate) fn call_of(body: &Body) -> Option<u64>
    ensures { result ≡ call_of_post body.now }
{
    match *body {
        Body::Ssf { call, .. } => Some(call),
        Body::Recharge { .. } => None,
    }
}

/// Adds the row of a post, behind the head of its rows.
pub(crate) fn write_post(
    text: &mut String,
    clock: Clock,
    head: &str,
    body: &Body,
) -> Result<(), AllocError>
    ensures { OnOk result (string_bytes text.new ≡ string_bytes text.old
        ++ trace_row head.now (sender_of body.now) (post_said clock body.now)) }
{
    match *body {
        Body::Ssf { msg, .. } => {
            write!(text, "{head},switch,")?;
            write_message(text, &msg)
        }
        Body::Recharge {
            account,
            amount,
            until,
        } => {
            let until = MomentField(clock, until);
            writeln!(text, "{head},operator,Recharge,{account},{amount},{until},")
        }
    }
}

/// Adds what a message says, to the end of its row.
fn write_message(text: &mut String, msg: &SsfMsg) -> Result<(), AllocError>
    ensures { OnOk result (string_bytes text.new ≡ string_bytes text.old
        ++ said_text (message_said msg.now)) }
{
    match *msg {
        SsfMsg::InitialDp {
            calling,
            called,
            ..
        } => writeln!(text, "InitialDP,{calling},{called},,"),
        SsfMsg::EventReport { event, leg, mode } => {
            let (event, leg, mode) = (event_word(event), leg_number(leg), mode_word(mode));
            writeln!(text, "EventReportBCSM,{event},{leg},{mode},")
        }
        SsfMsg::ChargingReport { active, info } => write_report(text, active, info),
        SsfMsg::Ended => writeln!(text, "Ended,,,,"),
    }
}

/// Adds what a charging report says, to the end of its row.
fn write_report(text: &mut String, active: bool, info: TimeInfo) -> Result<(), AllocError>
    ensures { OnOk result (string_bytes text.new ≡ string_bytes text.old
        ++ said_text (report_said active info)) }
{
    let state = if active { "active" } else { "inactive" };
    match info {
        TimeInfo::NoSwitch { t } => writeln!(text, "ApplyChargingReport,{state},n,{t},"),
        TimeInfo::Switch { since, interval } => {
            let interval = Field::short(interval);
            writeln!(text, "ApplyChargingReport,{state},s,{since},{interval}")
        }
    }
}

/// Adds the rows of an answer, each behind the same head: its operations, in order, then whether
/// the post was stray, and the fault that an ask of an account got.
pub(crate) fn write_answer(text: &mut String, head: &str, answer: &Answer) -> Result<(), AllocError>
    ensures { OnOk result (string_bytes text.new ≡ string_bytes text.old
        ++ answer_rows head.now (Some answer.now)) }
{
    let operations = operations_of(answer.instructions);
    write_operations(text, head, operations.as_slice())?;
    if answer.stray {
        writeln!(text, "{head},service,stray,,,,")?;
    }
    if let Some(fault) = answer.refused {
        writeln!(text, "{head},service,refused,{fault},,,")?;
    }
    Ok(())
}

/// Adds the rows of operations, in order.
fn write_operations(text: &mut String, head: &str, ops: &[ScfOp]) -> Result<(), AllocError>
    ensures { OnOk result (string_bytes text.new ≡ string_bytes text.old
        ++ service_rows head.now (map operation_said ops.now)) }
{
    for op in ops {
        write!(text, "{head},service,")?;
        write_operation(text, op)?;
    }
    Ok(())
}

/// Adds what an operation says, to the end of its row.
fn write_operation(text: &mut String, op: &ScfOp) -> Result<(), AllocError>
    ensures { OnOk result (string_bytes text.new ≡ string_bytes text.old
        ++ said_text (operation_said op.now)) }
{
    match *op {
        ScfOp::RequestReport(_) => writeln!(text, "RequestReportBCSMEvent,,,,"),
        ScfOp::ApplyCharging(charge) => {
            let (period, switch) = (charge.period, Field::short(charge.switch));
            let release = if charge.release { "release" } else { "" };
            writeln!(text, "ApplyCharging,{period},{switch},{release},")
        }
        ScfOp::Continue => writeln!(text, "Continue,,,,"),
        ScfOp::ReleaseCall(cause) => {
            let value = cause.value;
            writeln!(text, "ReleaseCall,{value},,,")
        }
    }
}

/// The word for an event.
fn event_word(event: Event) -> &'static str
    ensures { result.now ≡ event_word event }
{
    match event {
        Event::CollectedInfo => "collectedInfo",
        Event::RouteSelectFailure => "routeSelectFailure",
        Event::CalledPartyBusy => "busy",
        Event::NoAnswer => "noAnswer",
        Event::Answer => "answer",
        Event::Disconnect => "disconnect",
        Event::Abandon => "abandon",
    }
}

/// The word for how an event was watched.
fn mode_word(mode: Mode) -> &'static str
    ensures { result.now ≡ mode_word mode }
{
    match mode {
        Mode::Interrupted => "interrupted",
        Mode::NotifyAndContinue => "notify",
        Mode::Transparent => "transparent",
    }
}

/// The number of a leg, where there is one.
fn leg_number(leg: Option<Leg>) -> Field
    ensures { result.0 ≡ leg_number leg }
{
    match leg {
        Some(leg) => Field(Some(u64::from(leg.code()))),
        None => Field(None),
    }
}
