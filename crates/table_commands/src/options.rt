//! The options of `price` and of `replay`, and what those of all commands are read by.

ghost use Rattle.std.specs.Prelude.{◌≡◌, ◌≤◌, option_map, unwrap_or, IfSome};
ghost use Rattle.table_commands.specs.Options.{clock_by, has_flag, optional_number_in, plan_of, wished_account, wished_number, wished_plan};
ghost use Rattle.table_commands.specs.Wishes.{Replays};
ghost use Rattle.clap.specs.Words.{first_of, found_of, rows_of};
ghost use Rattle.price_core.specs.RatesOf.{rates_of};

use crate::request::Opening;
use account_core::{MAX_LIMIT, MIN_LIMIT};
use clap::ArgMatches;
use price_core::{DAY, MAX_MONEY, MAX_RATE, Plan};
use table_core::decimal;
use tariff_core::Clock;

/// The plan that the options of `price` give.
pub(crate) fn price_plan(options: &ArgMatches<'_>) -> Option<Plan>
    ensures { option_map rates_of result ≡ wished_plan (rows_of (found_of options.now)) }
{
    let fee = number(options, "fee", MAX_RATE)?;
    let before = number(options, "before", MAX_RATE)?;
    let after = optional_number(options, "after", MAX_RATE)?;
    let plan = Plan::new(fee, before, after).ok()?;
    with_units(options, plan)
}

/// The plan with the units that the options of `price` give.
fn with_units(options: &ArgMatches<'_>, plan: Plan) -> Option<Plan>
    ensures { option_map rates_of result ≡ plan_of (rows_of (found_of options.now))
        (rates_of plan).fee (rates_of plan).before (rates_of plan).after }
{
    let free = optional_number(options, "free", u64::from(DAY))?;
    let first = optional_number(options, "first", u64::from(DAY))?;
    let step = optional_number(options, "step", u64::from(DAY))?;
    let plan = plan.with_free(free.unwrap_or(0) as u32).ok()?;
    plan.with_steps(first.unwrap_or(0) as u32, step.unwrap_or(1) as u32)
        .ok()
}

/// The account that the options of `replay` open.
pub(crate) fn replay_opening(options: &ArgMatches<'_>) -> Option<Opening>
    ensures { option_map (λ account. Replays account.opening account.limit) result
        ≡ wished_account (rows_of (found_of options.now)) }
{
    let opening = number(options, "opening", MAX_MONEY)?;
    let limit = optional_number(options, "limit", u64::from(MAX_LIMIT))?;
    let limit = limit.map_or(MAX_LIMIT, |limit| limit as u32);
    if limit < MIN_LIMIT {
        return None;
    }
    Some(Opening { opening, limit })
}

/// The text of an option, none where it is left out.
pub(crate) fn option_text<'a>(options: &ArgMatches<'a>, name: &str) -> Option<&'a str>
    ensures { option_map (λ text. text.now) result
        ≡ first_of name.now (rows_of (found_of options.now)) }
{
    options.get_str(name)
}

/// Whether a flag was given.
pub(crate) fn has_flag(options: &ArgMatches<'_>, name: &str) -> bool
    ensures { result ≡ has_flag (rows_of (found_of options.now)) name.now }
{
    option_text(options, name) == Some("true")
}

/// How moments are printed: as dates and times where that was asked for.
pub(crate) fn clock_by(dates: bool) -> Clock
    ensures { result ≡ clock_by dates }
{
    if dates { Clock::Dates } else { Clock::Digits }
}

/// The number of an option, from 0 to `most`.
fn number(options: &ArgMatches<'_>, name: &str, most: u64) -> Option<u64>
    ensures value { result ≡ wished_number (rows_of (found_of options.now)) name.now most }
    ensures within { IfSome result (λ number. number ≤ most) }
{
    match option_text(options, name) {
        Some(text) => decimal(text.as_bytes(), most),
        None => None,
    }
}

/// The same of an option that may be left out.
pub(crate) fn optional_number(
    options: &ArgMatches<'_>,
    name: &str,
    most: u64,
) -> Option<Option<u64>>
    ensures value { result ≡ optional_number_in (rows_of (found_of options.now)) name.now most }
    ensures within { IfSome result (λ number. unwrap_or number 0 ≤ most) }
{
    match option_text(options, name) {
        Some(text) => Some(Some(decimal(text.as_bytes(), most)?)),
        None => Some(None),
    }
}
