//! The laws of a live run, each the contract of a function that does nothing.

ghost use Rattle.std.specs.Prelude.{◌≡◌};
ghost use Rattle.live_answers.specs.Laws.{LogsAreHeardAgain, ReplaysAreSilent};
ghost use Rattle.live_answers.specs.declared.group.TheConstants.{MAX_GROUP};
ghost use Rattle.live_answers.specs.declared.line.TheConstants.{MAX_LINE};

/// The limits of a line, and of the lines that are taken at once, in plain numbers.
pub fn limits_in_numbers()
    ensures most_bytes { MAX_LINE ≡ 4096 }
    ensures most_lines { MAX_GROUP ≡ 2048 }
{}

/// Nothing that was logged is lost, and nothing is made: an input of the lines of a log, with more
/// lines behind them, has just the messages that were accepted, under the same numbers, and what is
/// behind the log says what it says behind all the lines that were logged and that weren't.
pub fn logs_are_heard_again()
    ensures { LogsAreHeardAgain }
{}

/// A run over a log, all of which is heard in silence, and then over more lines prints just what
/// these come to, with the numbers that they have behind all messages of the log.
pub fn replays_are_silent()
    ensures { ReplaysAreSilent }
{}
