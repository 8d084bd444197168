//! Which time of a command is out of its range.

use crate::explanations::Said;
use crate::options::option_text;
use crate::run_words::run_ask;
use crate::serve_words::live_ask;
use clap::ArgMatches;
use price_core::DAY;
use std::fmt;

/// Adds a line about the first time of `run` that is out of its range, if one is.
pub(crate) fn push_run_times(said: &mut Said, options: &ArgMatches<'_>) {
    let Some(ask) = run_ask(options) else {
        return;
    };
    let rising = [
        ("delay", ask.delay),
        ("tccd", ask.tccd),
        ("least", ask.least),
        ("wanted", ask.wanted),
    ];
    if !push_fallen(said, options, &rising) {
        push_fallen(said, options, &[("tssf", ask.tssf)]);
    }
}

/// Adds a line about the first time of `serve` that is out of its range, if one is.
pub(crate) fn push_live_times(said: &mut Said, options: &ArgMatches<'_>) {
    let Some(ask) = live_ask(options) else {
        return;
    };
    let rising = [
        ("tccd", ask.tccd),
        ("least", ask.least),
        ("wanted", ask.wanted),
    ];
    push_fallen(said, options, &rising);
}

/// Adds, of times that are to rise from 1 to a day, a line about the first that doesn't. Whether
/// there is one.
fn push_fallen(said: &mut Said, options: &ArgMatches<'_>, times: &[(&'static str, u32)]) -> bool {
    let mut below = None;
    let mut least = 1;
    for &(name, units) in times {
        let time = Time {
            name,
            said: option_text(options, name),
            units,
        };
        if units < least {
            push_low(said, below, time);
            return true;
        }
        below = Some(time);
        least = units;
    }
    if let Some(last) = below {
        if least > DAY {
            writeln!(said, "{last} is above {DAY}");
            return true;
        }
    }
    false
}

/// Adds a line about a time that is below the one before it, or below 1.
fn push_low(said: &mut Said, before: Option<Time<'_>>, time: Time<'_>) {
    match before {
        None => writeln!(said, "{time} is below 1"),
        Some(before) => writeln!(said, "{before} is above {time}"),
    }
}

/// A time of a command: its name, and what its option says, or what it is where that is left out.
#[derive(Clone, Copy)]
struct Time<'a> {
    name: &'static str,
    said: Option<&'a str>,
    units: u32,
}

impl fmt::Display for Time<'_> {
    fn fmt<W: fmt::Write>(&self, f: &mut fmt::Formatter<W>) -> fmt::Result {
        let Time { name, said, units } = *self;
        match said {
            Some(said) => write!(f, "{name} {said}"),
            None => write!(f, "{name} {units}"),
        }
    }
}
