//! The commands and their options, as help says them.

ghost use Rattle.std.specs.Prelude.{◌≡◌};
ghost use Rattle.table_commands.specs.CommandLine.{audit_app, price_app, quote_app, rate_app, replay_app, run_app, serve_app};
ghost use Rattle.table_commands.specs.Commands.{app_in};

use crate::help;

/// An option, and what help says of it.
#[derive(Clone, Copy)]
pub(crate) enum CommandOption {
    /// `[--name]`
    Flag(&'static str, &'static str),
    /// `[--name VALUE]`, without the brackets where it is required.
    Value(&'static str, &'static str, bool, &'static str),
}

/// A command with its options, and what help says of it.
#[derive(Clone, Copy)]
pub(crate) struct CommandWords {
    pub(crate) name: &'static str,
    pub(crate) about: &'static str,
    /// How it is called.
    pub(crate) usage: &'static str,
    /// What its help ends with.
    pub(crate) ends: &'static str,
    pub(crate) options: &'static [CommandOption],
}

/// An option as a usage line writes it.
macro_rules! option {
    (--$name:ident $help:literal) => {
        CommandOption::Flag(stringify!($name), $help)
    };
    ([--$name:ident <$value:ident>] $help:literal) => {
        CommandOption::Value(stringify!($name), stringify!($value), false, $help)
    };
    (--$name:ident <$value:ident> $help:literal) => {
        CommandOption::Value(stringify!($name), stringify!($value), true, $help)
    };
}

/// The options in front of every command.
pub(crate) const FRONT_OPTIONS: &[CommandOption] = &[
    option!(--explain "Says behind a fault where it is and what is wrong there"),
    option!(--plain "Keeps --explain away where standard error is a terminal"),
];

#[tactic(auto, unfolding(crate::specs::CommandLine::price_app))]
pub(crate) fn price() -> CommandWords
    ensures { app_in result ≡ price_app }
{
    CommandWords {
        name: "price",
        about: "Prints what each report adds to the price of a call",
        usage: "prepaid price [OPTIONS] --fee <N> --before <N> < FILE",
        ends: help::PRICE,
        options: &[
            option!(--fee <N> "The fee, in the smallest coin"),
            option!(--before <N> "The rate a minute before the switch"),
            option!([--after <N>] "The rate a minute after the switch"),
            option!([--free <N>] "How long the call is free, in units of 100 ms [default: 0]"),
            option!([--first <N>]
                "How long the least time is that is billed, in units of 100 ms [default: 0]"),
            option!([--step <N>]
                "In which steps the time beyond is billed, in units of 100 ms [default: 1]"),
        ],
    }
}

#[tactic(auto, unfolding(crate::specs::CommandLine::replay_app))]
pub(crate) fn replay() -> CommandWords
    ensures { app_in result ≡ replay_app }
{
    CommandWords {
        name: "replay",
        about: "Prints what an account replies to each operation",
        usage: "prepaid replay [OPTIONS] --opening <N> < FILE",
        ends: help::REPLAY,
        options: &[
            option!(--opening <N> "The opening credit, in the smallest coin"),
            option!([--limit <N>] "How many entries its history may have, 3 to 1000000 [1000000]"),
        ],
    }
}

#[tactic(auto, unfolding(crate::specs::CommandLine::run_app))]
pub(crate) fn run() -> CommandWords
    ensures { app_in result ≡ run_app }
{
    CommandWords {
        name: "run",
        about: "Plays a script of calls, and prints what its accounts come to",
        usage: "prepaid run [OPTIONS] < FILE",
        ends: help::RUN,
        options: &[
            option!([--wanted <N>] "The time that the service asks for [600]"),
            option!([--least <N>] "The least time that it takes [50]"),
            option!([--tssf <N>] "How long a switch waits for instructions [100]"),
            option!([--tccd <N>] "How long it waits for more time [50]"),
            option!([--delay <N>] "How long instructions take to it [2]"),
            option!([--workers <N>] "How many workers serve it, 1 to 16 [2]"),
            option!([--parts <N>] "Plays it in this number of parts, in less memory"),
            option!([--threads <N>] "How many threads play the parts, 1 to 64 [1]"),
            option!([--default <WORD>] "Without instructions: proceed, release [release]"),
            option!(--book "Prints the book, in place of the lines"),
            option!(--calls "Prints the calls, in place of the lines"),
            option!(--trace "Prints what was said, in place of the lines"),
            option!(--clock "Prints the moments of calls or a trace as dates and times"),
            option!(
                [--into <FOLDER>] "Writes lines, book, calls and trace into files of this folder"
            ),
        ],
    }
}

#[tactic(auto, unfolding(crate::specs::CommandLine::audit_app))]
pub(crate) fn audit() -> CommandWords
    ensures { app_in result ≡ audit_app }
{
    CommandWords {
        name: "audit",
        about: "Says of each account of a book whether its history is right",
        usage: "prepaid audit [OPTIONS] < FILE",
        ends: help::AUDIT,
        options: &[
            option!(--long "Takes a book of any size, and reads it row by row"),
            option!(--rows "Prints the first wrong row of each account, and what is right there"),
            option!(--lines "Prints the lines that run prints of such a book"),
        ],
    }
}

#[tactic(auto, unfolding(crate::specs::CommandLine::quote_app))]
pub(crate) fn quote() -> CommandWords
    ensures { app_in result ≡ quote_app }
{
    CommandWords {
        name: "quote",
        about: "Prints what a call to a number costs at a moment",
        usage: "prepaid quote [OPTIONS] --called <DIGITS> --at <MOMENT> < FILE",
        ends: help::QUOTE,
        options: &[
            option!(--called <DIGITS> "The called number"),
            option!(--at <MOMENT> "When the call is answered"),
            option!([--for <UNITS>] "How long a call lasts whose price is printed"),
            option!([--credit <N>] "A credit of which is printed what it affords"),
            option!(--clock "Prints the moment of the switch as a date and a time"),
        ],
    }
}

#[tactic(auto, unfolding(crate::specs::CommandLine::rate_app))]
pub(crate) fn rate() -> CommandWords
    ensures { app_in result ≡ rate_app }
{
    CommandWords {
        name: "rate",
        about: "Prints what each record of a table of calls should have cost",
        usage: "prepaid rate [OPTIONS] < FILE",
        ends: help::RATE,
        options: &[
            option!([--called <NAME>] "The column of the number called"),
            option!([--answer <NAME>] "The column of the answer"),
            option!([--paid <NAME>] "The column of what was charged"),
            option!([--time <NAME>] "The column of how long it lasted"),
            option!([--end <NAME>] "The column of when it ended"),
            option!([--before <NAME>] "The column of the time before the switch"),
            option!([--after <NAME>] "The column of the time after it"),
            option!(--differing "Prints only the rows that differ or have a fault"),
            option!(--summary "Prints what was counted, on standard error"),
        ],
    }
}

#[tactic(auto, unfolding(crate::specs::CommandLine::serve_app))]
pub(crate) fn serve() -> CommandWords
    ensures { app_in result ≡ serve_app }
{
    CommandWords {
        name: "serve",
        about: "Answers the messages of switches as they come, line by line",
        usage: "prepaid serve [OPTIONS] < FILE",
        ends: help::SERVE,
        options: &[
            option!([--wanted <N>] "The time that the service asks for [600]"),
            option!([--least <N>] "The least time that it takes [50]"),
            option!([--tccd <N>] "How long a switch waits for more time [50]"),
            option!([--log <FILE>] "The file that keeps the accepted messages"),
            option!([--again <N>] "The first message of it whose rows are printed again"),
            option!(--lines "Prints the lines of accounts and calls at the end"),
            option!(--book "Prints the book at the end"),
            option!(--calls "Prints the calls at the end"),
        ],
    }
}
