//! The lines that `quote` prints.

ghost use Rattle.std.specs.Prelude.{◌≡◌, ◌+◌, ◌++◌, ◌≤◌, ◌<◌, codes, IfOk, IfSome, OnOk, string_bytes};
ghost use Rattle.table_commands.specs.QuoteWishes.{quote_wish_of};
ghost use Rattle.table_commands.specs.Quotes.{IsQuoteText, afford_line, band_line, prefix_text, price_line, quote_lines, steps_text, switch_line};
ghost use Rattle.price_core.specs.RatesOf.{rates_of};

use crate::QuoteAsk;
use price_core::{DAY, Plan, Route, Times, afford};
use rating::{PricedTimes, charge_call};
use std::alloc::{AllocError, Global};
use table_core::write_digits;
use tariff_core::{Clock, MomentField, Quote, Tariff, TimeOfDay};

/// What a call to a number costs at a moment: the band and the switch, and the price of a call and
/// the units that a credit affords where they are asked for; `no route` where no prefix fits.
pub(crate) fn print_quote(
    alloc: Global,
    tariff: &Tariff,
    ask: &QuoteAsk,
) -> Result<String, AllocError>
    ensures { IfOk result (λ text.
        IsQuoteText tariff.now (quote_wish_of ask.now) (string_bytes text)) }
{
    let mut text = String::new(alloc);
    let Some(quote) = tariff.quote(ask.called.as_bytes(), ask.at) else {
        text.push_str("no route\n")?;
        return Ok(text);
    };
    write_quote(&mut text, ask, &quote)?;
    Ok(text)
}

/// Adds the lines of a quote.
fn write_quote(text: &mut String, ask: &QuoteAsk, quote: &Quote<'_>) -> Result<(), AllocError>
    requires { IfSome quote.now.route.switch_at (λ at. (ask.now.at < at)
        × (at ≤ ask.now.at + DAY)) }
    ensures { OnOk result (string_bytes text.new ≡ string_bytes text.old
        ++ quote_lines (quote_wish_of ask.now) quote.now.prefix.now quote.now.start
        quote.now.route) }
{
    let route = &quote.route;
    write_band(text, quote.prefix, quote.start, &route.plan)?;
    write_switch(text, ask.clock, route)?;
    write_price(text, route, ask.at, ask.talk)?;
    write_afforded(text, &route.plan, ask.credit)
}

/// Adds the line of the price of a call, where one is asked for.
fn write_price(
    text: &mut String,
    route: &Route,
    at: u64,
    talk: Option<u32>,
) -> Result<(), AllocError>
    requires time { IfSome talk (λ talk. talk ≤ DAY) }
    requires switch { IfSome route.now.switch_at (λ switch. at < switch) }
    ensures { OnOk result (string_bytes text.new ≡ string_bytes text.old
        ++ price_line (rates_of route.now.plan) at route.now.switch_at talk) }
{
    match talk {
        Some(talk) => {
            let PricedTimes { price, .. } = charge_call(route, at, talk);
            writeln!(text, "price {price}")
        }
        None => Ok(()),
    }
}

/// Adds the line of the units that a credit affords, where one is asked for.
fn write_afforded(text: &mut String, plan: &Plan, credit: Option<u64>) -> Result<(), AllocError>
    ensures { OnOk result (string_bytes text.new ≡ string_bytes text.old
        ++ afford_line (rates_of plan.now) credit) }
{
    match credit {
        Some(credit) => {
            let units = afford(plan, Times::ZERO, DAY, credit);
            writeln!(text, "afford {units}")
        }
        None => Ok(()),
    }
}

/// Adds the line of a band.
fn write_band(text: &mut String, prefix: &[u8], start: u32, plan: &Plan) -> Result<(), AllocError>
    ensures { OnOk result (string_bytes text.new ≡ string_bytes text.old
        ++ band_line prefix.now start (rates_of plan.now)) }
{
    text.push_str("prefix ")?;
    write_prefix(text, prefix)?;
    let start = TimeOfDay(start);
    let Plan {
        fee,
        before,
        free,
        ..
    } = plan;
    write!(text, " from {start} fee {fee} rate {before} free {free}")?;
    write_steps(text, plan)
}

/// Adds the billing steps of a plan, where it has any, and ends the line.
fn write_steps(text: &mut String, plan: &Plan) -> Result<(), AllocError>
    ensures { OnOk result (string_bytes text.new ≡ string_bytes text.old
        ++ (steps_text (rates_of plan.now) ++ codes "\n")) }
{
    if !plan.has_steps() {
        return text.push('\n');
    }
    let Plan { first, step, .. } = plan;
    writeln!(text, " first {first} step {step}")
}

/// Adds the digits of a prefix, or `-` where it has none.
fn write_prefix(text: &mut String, prefix: &[u8]) -> Result<(), AllocError>
    ensures { OnOk result (string_bytes text.new ≡ string_bytes text.old
        ++ prefix_text prefix.now) }
{
    if prefix.is_empty() {
        return text.push('-');
    }
    write_digits(text, prefix)
}

/// Adds the line of a switch, where there is one.
fn write_switch(text: &mut String, clock: Clock, route: &Route) -> Result<(), AllocError>
    ensures { OnOk result (string_bytes text.new ≡ string_bytes text.old
        ++ switch_line clock route.now.switch_at route.now.plan.after) }
{
    match (route.switch_at, route.plan.after) {
        (Some(at), Some(rate)) => {
            let at = MomentField(clock, Some(at));
            writeln!(text, "switch {at} rate {rate}")
        }
        _ => Ok(()),
    }
}
