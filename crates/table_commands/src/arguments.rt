//! The words of a command line.

ghost use Rattle.std.specs.Prelude.{◌≡◌, Some, map, ok_or, IfOk};
ghost use Rattle.table_commands.specs.Arguments.{IsRead, IsClapRefusal, IsRequestOf, explains, table_wish_in, wish_in};
ghost use Rattle.table_commands.specs.declared.words_fault.WordsFault.TheVariants as fault;
ghost use Rattle.table_commands.specs.CommandLine.{command_in, errors_in};
ghost use Rattle.clap.specs.Words.{FailsBy, found_of, kind_of, rows_of, subcommand_rows_of};

use crate::audit_words::audit_ask;
use crate::command_line::program_command;
use crate::explanations::Said;
use crate::options::{price_plan, replay_opening};
use crate::quote_words::quote_ask;
use crate::rate_words::rate_ask;
use crate::request::Request;
use crate::run_words::run_request;
use crate::serve_words::serve_request;
use crate::times::{push_live_times, push_run_times};
use crate::words_fault::WordsFault;
use clap::error::ErrorKind;
use clap::{ArgMatches, Error};
use std::alloc::{AllocError, Global};
use std::convert::AsStr;

/// What the words after the program's name ask for. `Arguments` where they ask for nothing that the
/// program does, a number out of its range among them; `Config` where only a time of `run` or
/// `serve` is out of its range.
pub fn read_words<'a, S: AsStr>(alloc: Global, words: &'a [S]) -> Result<Request<'a>, WordsFault>
    ensures { IsRead (map S.text words.now) result }
{
    match parse(alloc, words) {
        Ok(matches) => asked(&matches),
        Err(error) => refusal(alloc, &error),
    }
}

/// What `clap` makes of words.
fn parse<'a, S: AsStr>(alloc: Global, words: &'a [S]) -> Result<ArgMatches<'a>, Error>
    ensures command { IfOk result (λ matches. subcommand_rows_of matches
        ≡ command_in (map S.text words.now)) }
    ensures kinds { FailsBy (errors_in (map S.text words.now)) result }
{
    program_command(alloc)?.try_get_matches_from(words)
}

/// Whether a fault is to be explained: the word `--explain` is in front of the others.
pub fn explains<S: AsStr>(words: &[S]) -> bool
    ensures { result ≡ explains (map S.text words.now) }
{
    match words.first() {
        Some(word) => word.as_str() == "--explain",
        None => false,
    }
}

/// What `clap` says of words that it doesn't take. Of words that it takes, which time of `run` or
/// `serve` is out of its range, or else that the options of the command aren't taken.
pub(crate) fn explain_words<S: AsStr>(alloc: Global, words: &[S]) -> Result<String, AllocError> {
    match parse(alloc, words) {
        Ok(matches) => explain_options(alloc, &matches),
        Err(error) => explain_error(alloc, &error),
    }
}

/// What `clap` says of words that it doesn't take.
fn explain_error(alloc: Global, error: &Error) -> Result<String, AllocError> {
    match error.kind() {
        ErrorKind::OutOfMemory => Err(AllocError),
        _ => error.to_string(alloc),
    }
}

/// Which time of a command is out of its range, or else that its options aren't taken.
fn explain_options(alloc: Global, matches: &ArgMatches<'_>) -> Result<String, AllocError> {
    let mut said = Said::new(alloc);
    if let Some((name, options)) = matches.subcommand() {
        push_times(&mut said, name, options);
        if said.is_empty() {
            push_refused(&mut said, name);
        }
    }
    said.into_text()
}

/// Adds which time of a command is out of its range.
fn push_times(said: &mut Said, name: &str, options: &ArgMatches<'_>) {
    match name {
        "run" => push_run_times(said, options),
        "serve" => push_live_times(said, options),
        _ => {}
    }
}

/// Adds that the options of a command aren't taken.
fn push_refused(said: &mut Said, name: &str) {
    writeln!(
        said,
        "the options don't go together, or one has a value that it doesn't take: \
         see prepaid help {name}"
    );
}

/// What the command that the words name asks for, if its options say it.
fn asked<'a>(matches: &ArgMatches<'a>) -> Result<Request<'a>, WordsFault>
    ensures { IsRequestOf (wish_in (subcommand_rows_of matches.now)) result }
{
    match matches.subcommand() {
        Some((name, options)) => request_of(name, options),
        None => Err(WordsFault::Arguments),
    }
}

/// What the command of a name asks for.
fn request_of<'a>(name: &str, options: &ArgMatches<'a>) -> Result<Request<'a>, WordsFault>
    ensures { IsRequestOf (wish_in (Some (name.now, rows_of (found_of options.now)))) result }
{
    match name {
        "run" => run_request(options),
        "serve" => serve_request(options),
        _ => table_request(name, options).ok_or(WordsFault::Arguments),
    }
}

/// What a command over a table asks for; none where its options don't say it, or there is no such
/// command.
fn table_request<'a>(name: &str, options: &ArgMatches<'a>) -> Option<Request<'a>>
    ensures { IsRequestOf
        (ok_or (table_wish_in name.now (rows_of (found_of options.now))) fault.Arguments)
        (ok_or result fault.Arguments) }
{
    let request = match name {
        "price" => Request::Price(price_plan(options)?),
        "replay" => Request::Replay(replay_opening(options)?),
        "audit" => Request::Audit(audit_ask(options)),
        "quote" => Request::Quote(quote_ask(options)?),
        "rate" => Request::Rate(rate_ask(options)?),
        _ => return None,
    };
    Some(request)
}

/// What is answered where `clap` gives no matches: its help or the version where that was asked
/// for.
fn refusal<'a>(alloc: Global, error: &Error) -> Result<Request<'a>, WordsFault>
    ensures { IsClapRefusal (kind_of error.now) result }
{
    match error.kind() {
        ErrorKind::DisplayHelp | ErrorKind::DisplayVersion => {
            Ok(Request::Text(error.to_string(alloc)?))
        }
        ErrorKind::OutOfMemory => Err(WordsFault::OutOfMemory),
        _ => Err(WordsFault::Arguments),
    }
}
