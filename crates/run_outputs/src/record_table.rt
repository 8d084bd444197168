//! The table of calls.

ghost use Rattle.std.specs.Prelude.{◌≡◌, ◌++◌, IfOk, OnOk, codes, string_bytes};
ghost use Rattle.run_outputs.specs.Tables.{call_text, moments_text, record_row, outcome_word};

use crate::{CallRecord, Outcome};
use std::alloc::{AllocError, Global};
use table_core::{Field, write_digits};
use tariff_core::{Clock, MomentField};

/// The table of these calls, in order: a header, and a row of each, with its moments as the clock
/// prints them.
pub fn call_table(alloc: Global, clock: Clock, calls: &[CallRecord]) -> Result<String, AllocError>
    ensures { IfOk result (λ text. string_bytes text ≡ call_text clock calls.now) }
{
    let mut text = String::new(alloc);
    writeln!(
        text,
        "call,calling,called,account,prefix,start,answer,end,before,after,paid,outcome"
    )?;
    for call in calls {
        write_record(&mut text, clock, call)?;
    }
    Ok(text)
}

/// Adds the row of a call.
fn write_record(text: &mut String, clock: Clock, call: &CallRecord) -> Result<(), AllocError>
    ensures { OnOk result (string_bytes text.new
        ≡ string_bytes text.old ++ record_row clock call.now) }
{
    let (number, account) = (call.call, Field::short(call.account));
    let (calling, called) = (call.calling, call.called);
    write!(text, "{number},{calling},{called},{account},")?;
    if let Some(prefix) = &call.prefix {
        write_digits(text, prefix.as_slice())?;
    }
    write_outcome(text, clock, call)
}

/// Adds the moments of a call, its times, what it has paid and what became of it, each behind a
/// comma, and the end of the line.
fn write_outcome(text: &mut String, clock: Clock, call: &CallRecord) -> Result<(), AllocError>
    ensures { OnOk result (string_bytes text.new ≡ string_bytes text.old ++ (codes ","
        ++ (moments_text clock call.now ++ (outcome_word call.now.outcome ++ codes "\n")))) }
{
    let start = MomentField(clock, Some(call.start));
    let (answer, end) = (
        MomentField(clock, call.answer),
        MomentField(clock, call.end),
    );
    let (before, after, paid) = (call.times.before(), call.times.after(), call.paid);
    let word = word(call.outcome);
    writeln!(
        text,
        ",{start},{answer},{end},{before},{after},{paid},{word}"
    )
}

/// The word for what became of a call.
fn word(outcome: Outcome) -> &'static str
    ensures { result.now ≡ outcome_word outcome }
{
    match outcome {
        Outcome::Unknown => "unknown",
        Outcome::NoRoute => "noroute",
        Outcome::Denied => "denied",
        Outcome::Refused => "refused",
        Outcome::Forfeit => "forfeit",
        Outcome::Open => "open",
        Outcome::Busy => "busy",
        Outcome::NoAnswer => "noanswer",
        Outcome::RouteFail => "routefail",
        Outcome::Abandoned => "abandoned",
        Outcome::Ended => "ended",
        Outcome::Cut => "cut",
        Outcome::Released => "released",
    }
}
