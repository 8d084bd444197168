//! The options of `rate`.

ghost use Rattle.std.specs.Prelude.{◌≡◌, option_map};
ghost use Rattle.table_commands.specs.RateWords.{wished_rate, wished_times};
ghost use Rattle.clap.specs.Words.{found_of, rows_of};
ghost use Rattle.rating.specs.SaidOf.{times_of, rate_wish_of};

use crate::options::{has_flag, option_text};
use clap::ArgMatches;
use rating::{Names, RateAsk, TimeNames};

/// What the options ask for; none where they name the times of a call in two ways, or only one of
/// the columns before the tariff switch and after it.
#[tactic(auto, unfolding(crate::specs::RateWords::wished_rate))]
pub(crate) fn rate_ask<'a>(options: &ArgMatches<'a>) -> Option<RateAsk<'a>>
    ensures { option_map rate_wish_of result ≡ wished_rate (rows_of (found_of options.now)) }
{
    let times = named_times(options)?;
    let names = Names {
        called: option_text(options, "called").unwrap_or("called"),
        answer: option_text(options, "answer").unwrap_or("answer"),
        times,
        paid: option_text(options, "paid"),
    };
    Some(RateAsk {
        names,
        differing: has_flag(options, "differing"),
        summary: has_flag(options, "summary"),
    })
}

/// By which columns the times of a call are found.
fn named_times<'a>(options: &ArgMatches<'a>) -> Option<TimeNames<'a>>
    ensures { option_map times_of result ≡ wished_times (rows_of (found_of options.now)) }
{
    let time = option_text(options, "time");
    let end = option_text(options, "end");
    let before = option_text(options, "before");
    let after = option_text(options, "after");
    match (time, end, before, after) {
        (None, None, None, None) => Some(TimeNames::UsualNames),
        (Some(name), None, None, None) => Some(TimeNames::Time(name)),
        (None, Some(name), None, None) => Some(TimeNames::End(name)),
        (None, None, Some(before), Some(after)) => Some(TimeNames::Split(before, after)),
        _ => None,
    }
}
