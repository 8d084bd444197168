//! The options of `quote`.

ghost use Rattle.std.specs.Prelude.{◌≡◌, ◌≤◌, option_map, IfSome};
ghost use Rattle.table_commands.specs.QuoteWishes.{quote_wish_of};
ghost use Rattle.table_commands.specs.QuoteWords.{called_of, moment_asked, wished_quote};
ghost use Rattle.cap_values.specs.NumberDigits.{digits_of_number};
ghost use Rattle.clap.specs.Words.{found_of, rows_of};

use crate::options::{clock_by, has_flag, option_text, optional_number};
use crate::request::QuoteAsk;
use cap_values::Number;
use clap::ArgMatches;
use price_core::{DAY, MAX_MOMENT, MAX_MONEY};
use tariff_core::{moment, time_of_day};

/// What the options ask for.
#[tactic(auto, unfolding(crate::specs::QuoteWords::wished_quote))]
pub(crate) fn quote_ask(options: &ArgMatches<'_>) -> Option<QuoteAsk>
    ensures { option_map quote_wish_of result ≡ wished_quote (rows_of (found_of options.now)) }
{
    let called = called(option_text(options, "called")?)?;
    let at = moment_asked(option_text(options, "at")?)?;
    let talk = optional_number(options, "for", u64::from(DAY))?;
    let credit = optional_number(options, "credit", MAX_MONEY)?;
    Some(QuoteAsk {
        called,
        at,
        talk: talk.map(|units| units as u32),
        credit,
        clock: clock_by(has_flag(options, "clock")),
    })
}

/// The number that a text writes, 1 to 15 digits.
fn called(text: &str) -> Option<Number>
    ensures { option_map digits_of_number result ≡ called_of text.now }
{
    Number::new(text).ok()
}

/// The moment that is asked for: `HH:MM` of the first day, a number of units of 100 ms, or a date
/// and a time.
fn moment_asked(text: &str) -> Option<u64>
    ensures value { result ≡ moment_asked text.now }
    ensures within { IfSome result (λ at. at ≤ MAX_MOMENT) }
{
    match time_of_day(text.as_bytes()) {
        Some(time) => Some(u64::from(time)),
        None => moment(text.as_bytes(), MAX_MOMENT),
    }
}
