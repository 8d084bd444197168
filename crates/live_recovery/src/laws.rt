//! The laws of recovery, each the contract of a function that does nothing.

ghost use Rattle.live_recovery.specs.Laws.{LongerRunsAnswerAlike, RestartsPrintTheRest, RunsAreAlike};
ghost use Rattle.live_recovery.specs.Recovery.{CutOffRunsGoOn, LiveRunsAreAlike, OutputsAreJoined, StoppedLogsAreRight, StoppedRunsGoOn};

use live_answers::{logs_are_heard_again, replays_are_silent};

/// Where two runs of one worker over the same setup are given the same messages, and no account
/// refuses an ask in either, they answer the same, and come to the same books.
pub fn runs_are_alike()
    ensures { RunsAreAlike }
{}

/// Where one of two such runs is given what the other was given, and then more, its answers begin
/// with those of the other.
pub fn longer_runs_answer_alike()
    ensures { LongerRunsAnswerAlike }
{}

/// A run that was cut off and begins again with its log, all of it in silence, prints of the lines
/// behind the log just what a run that was never cut off, and was given the same, prints of them:
/// each message with its number and its answer. Lines that aren't accepted are counted anew.
pub fn restarts_print_the_rest()
    ensures { RestartsPrintTheRest }
{
    replays_are_silent();
}

/// An input has one output and one set of books: two live runs over it, with the same setup, that
/// were not cut off and that heard as many of its messages before and in silence, print the same,
/// byte for byte, and come to the same books. The tariff was read, and no account refuses an ask.
pub fn live_runs_are_alike()
    ensures { LiveRunsAreAlike }
{}

/// What is left of the log of a run that was stopped at any byte, as where its process was killed:
/// its whole lines are those of the messages in the first lines of the input, so many of them as
/// are left, each once and in order. A check of them, before they are heard, finds none of them
/// wrong.
pub fn stopped_logs_are_right()
    ensures { StoppedLogsAreRight }
{
    logs_are_heard_again();
}

/// A run begins with the whole lines that are left of such a log, and goes on with further lines.
/// Where the tariff was read, and no account refuses an ask, it goes on as a run over all the lines
/// that was never cut off:
///
/// * each line of the log is accepted again, as the same message;
/// * of the further lines just that is printed which that run prints of them, with the same numbers
///   and the same answers. Before it come the messages of the log again, but for the quiet ones, as
///   that run prints them. Lines that weren't accepted are not printed again, and those that aren't
///   are counted anew;
/// * its log has grown by what that run logs, each message once, and it has come to the books of
///   that run.
///
/// Where it is cut off too, it has printed what that run prints of the lines that it took in, as
/// far as its output took that.
pub fn stopped_runs_go_on()
    ensures { StoppedRunsGoOn }
{
    logs_are_heard_again();
}

/// The same by what two live runs come to. The first was cut off anywhere, be it that the output,
/// the log or the input failed, or it has ended; its log was a head alone before. The second begins
/// with the whole lines of that log (`live_answers::find_lines`), and goes on with further lines.
/// Besides what `stopped_runs_go_on` says:
///
/// * the log has the messages of just the lines that the first run took in. Where the log failed it
///   may have some of the next `live_answers::MAX_GROUP` lines, which were not answered;
/// * of these lines the first run has printed what a run over all the lines prints that was never
///   cut off: all, or where the output failed a front.
pub fn cut_off_runs_go_on()
    ensures { CutOffRunsGoOn }
{
    logs_are_heard_again();
}

/// The outputs of two such runs put together are the output of one run over all the lines, byte for
/// byte: where the first heard nothing before, and ended with its input or where that failed; where
/// the second heard all of the log in silence, and wasn't cut off; and where no further line is
/// wrong, since a wrong line is printed with its own number, which the second counts anew.
pub fn outputs_are_joined()
    ensures { OutputsAreJoined }
{
    logs_are_heard_again();
}
