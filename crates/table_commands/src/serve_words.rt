//! The options of `serve`.

ghost use Rattle.std.specs.Prelude.{◌≡◌, option_map};
ghost use Rattle.table_commands.specs.Arguments.{IsRequestOf};
ghost use Rattle.table_commands.specs.Capped.{capped_live_ask};
ghost use Rattle.table_commands.specs.ServeWords.{end_in, end_of, live_ask_in, log_in, serve_in};
ghost use Rattle.clap.specs.Words.{found_of, rows_of};
ghost use Rattle.run_values.specs.Logs.{log_wish_of};

use crate::options::{has_flag, option_text, optional_number};
use crate::request::Request;
use crate::run_words::setting;
use crate::words_fault::WordsFault;
use clap::ArgMatches;
use run_values::{LiveAsk, LiveOptions, LiveOutput, LogAsk};

/// The service that the options ask for. `Config` where a time is out of its range, however large;
/// `Arguments` where an option has no number of its own, where messages of a log are to be printed
/// again and there is no log, or where more than one thing is to be printed at the end.
pub(crate) fn serve_request<'a>(options: &ArgMatches<'a>) -> Result<Request<'a>, WordsFault>
    ensures { IsRequestOf (serve_in (rows_of (found_of options.now))) result }
{
    let (Some(ask), Some(log)) = (live_ask(options), log_ask(options)) else {
        return Err(WordsFault::Arguments);
    };
    match LiveOptions::new(ask) {
        Some(options) => Ok(Request::Serve(options, log)),
        None => Err(WordsFault::Config),
    }
}

/// The log that is to be kept, `Some(None)` for no log. None where `--again` isn't a number, or is
/// there without a log.
fn log_ask<'a>(options: &ArgMatches<'a>) -> Option<Option<LogAsk<'a>>>
    ensures { option_map (option_map log_wish_of) result
        ≡ log_in (rows_of (found_of options.now)) }
{
    let again = optional_number(options, "again", u64::MAX)?;
    match (option_text(options, "log"), again) {
        (Some(path), again) => Some(Some(LogAsk { path, again })),
        (None, None) => Some(None),
        (None, Some(_)) => None,
    }
}

/// What the options say.
#[tactic(auto, unfolding(crate::specs::ServeWords::live_ask_in))]
pub(crate) fn live_ask(options: &ArgMatches<'_>) -> Option<LiveAsk>
    ensures { result ≡ option_map capped_live_ask (live_ask_in (rows_of (found_of options.now))) }
{
    let wanted = setting(options, "wanted", 600)?;
    let least = setting(options, "least", 50)?;
    let tccd = setting(options, "tccd", 50)?;
    let output = end(options)?;
    Some(LiveAsk {
        wanted,
        least,
        tccd,
        output,
    })
}

/// What is to be printed at the end; none where more than one thing is asked for.
fn end(options: &ArgMatches<'_>) -> Option<LiveOutput>
    ensures { result ≡ end_in (rows_of (found_of options.now)) }
{
    let lines = has_flag(options, "lines");
    let book = has_flag(options, "book");
    let calls = has_flag(options, "calls");
    end_of(lines, book, calls)
}

/// The same, by whether each is asked for.
fn end_of(lines: bool, book: bool, calls: bool) -> Option<LiveOutput>
    ensures { result ≡ end_of lines book calls }
{
    match (lines, book, calls) {
        (false, false, false) => Some(LiveOutput::Nothing),
        (true, false, false) => Some(LiveOutput::Lines),
        (false, true, false) => Some(LiveOutput::Book),
        (false, false, true) => Some(LiveOutput::Calls),
        _ => None,
    }
}
