//! Laws of the calls that a worker holds, and of the books of a run, whatever else is refused.

ghost use Rattle.std.specs.Prelude.{List};
ghost use Rattle.held_calls.specs.Going.{PaidCallsGoOn};
ghost use Rattle.held_calls.specs.Held.{CallsAreHeld};
ghost use Rattle.held_calls.specs.Laws.{EndedCallsAreReturned, TakenReportsAreSettled, WorkedCallsAreReturned, WorkedReportsAreSettled};
ghost use Rattle.held_calls.specs.Runs.{RunCallsAreReturned, RunCallsThatEndAreReturned, RunReportsAreSettled};
ghost use Rattle.runs_core.specs.Refusals.{RefusesAt};

use crate::runs::{run_calls_are_of_one_worker, run_owed_is_never_refused};
use account_core::{Shared, answers_fit_their_operations};
use turn_account::{TurnAccount, calls_of_one_seat_are_alone};

/// The entries of a worker show each call as its dialogue is, whatever posts it has handled and
/// whatever was refused: all entries of a call are at the account of its dialogue. From the first
/// grant until the reply to its Return the call is open by them, and while it goes on, no report
/// has come since the last grant.
pub fn calls_are_held()
    ensures { CallsAreHeld }
{}

/// A ChargingReport of a call that goes on is settled at the call's account and at no other, with
/// the number of its post, and no other report is settled for it.
///
/// It takes that what the call is owed is never refused (`NeverRefusesOwed`), which
/// `owed_is_never_refused` gives where the call is the worker's alone. What else
/// is asked for the report, such as a further Reserve, may be refused.
pub fn taken_reports_are_settled<S: Shared>()
    ensures { (seats : List S.Seat) → TakenReportsAreSettled (RefusesAt S.was seats) }
{}

/// A call that goes on and is ended by a message is returned at its account, and no other call is
/// returned there or at another account. It takes the same premise.
pub fn ended_calls_are_returned<S: Shared>()
    ensures { (seats : List S.Seat) → EndedCallsAreReturned (RefusesAt S.was seats) }
{}

/// A call goes on with what it was granted where the operations that answered it say so: its
/// InitialDP was answered with an ApplyCharging, at the account of the calling number, and so was
/// each report since, and no message has ended it (`specs/Going.antt`).
pub fn paid_calls_go_on<S: Shared>()
    ensures { (seats : List S.Seat) → PaidCallsGoOn (RefusesAt S.was seats) }
{}

/// The Settles of a call by a worker at an account are just the reports of the call that came while
/// it went on there, in order, each with the number of its post.
pub fn worked_reports_are_settled<S: Shared>()
    ensures { (seats : List S.Seat) → WorkedReportsAreSettled (RefusesAt S.was seats) }
{}

/// A call that went on when a message ended it has one Return at the account where it went on, and
/// none at any other.
pub fn worked_calls_are_returned<S: Shared>()
    ensures { (seats : List S.Seat) → WorkedCallsAreReturned (RefusesAt S.was seats) }
{}

/// In a run over accounts by turns the Settles of a call in the book of an account are just the
/// reports of the call that came while it went on there, in order, each with the number of its
/// item, whatever else was refused. What the driver has given and heard says which these are
/// (`specs/Going.antt`).
///
/// It takes what `serve` says of a run (`IsRun`), and that there is a worker.
pub fn run_reports_are_settled()
    ensures { RunReportsAreSettled }
{
    run_owed_is_never_refused();
    run_calls_are_of_one_worker::<TurnAccount>();
    calls_of_one_seat_are_alone();
}

/// In such a run a call that went on when a message ended it has one Return in the book of the
/// account where it went on, and none in any other, whatever else was refused.
pub fn run_calls_are_returned()
    ensures { RunCallsAreReturned }
{
    run_owed_is_never_refused();
    run_calls_are_of_one_worker::<TurnAccount>();
    calls_of_one_seat_are_alone();
}

/// In such a run the book of an account has one Return of a call where the call went on there and
/// goes on no more in the end, whether a message ended it or a report that no ApplyCharging
/// answered, and none else. So nothing is held any more for a call that is over.
///
/// It takes that the opening credit of the book is at most `MAX_MONEY`, a clause of
/// `Book::history`.
pub fn run_calls_that_end_are_returned()
    ensures { RunCallsThatEndAreReturned }
{
    answers_fit_their_operations();
    run_owed_is_never_refused();
    run_calls_are_of_one_worker::<TurnAccount>();
    calls_of_one_seat_are_alone();
}
