//! Laws of what the books of a run have to do with what its workers handled.

ghost use Rattle.held_calls.specs.Entered.{RechargesAreInTheBooks, ReservesAreInTheBooks, RunCallsAreOfOneWorker, RunOwedIsNeverRefused, RunEntriesAreServed, RunListsAreWorked};

use crate::workers::{entries_come_from_posts, recharges_are_entered, reserves_are_on_terms};
use account_core::Shared;
use turn_account::calls_of_one_seat_are_alone;

/// A worker's entries in the books of a run are what handling its posts, one after another, comes
/// to, and those of the posts were refused of which the answers say it.
///
/// The premise of this law and of those below is what `serve` says of each worker of a run
/// (`answered` of `IsRun`).
pub fn run_lists_are_worked<S: Shared>()
    ensures { RunListsAreWorked S.stood }
{}

/// In the book of an account each entry of a worker comes from what the worker has handled: each
/// Settle is of a report and carries its post's number, each Credit is of a recharge of the
/// account, both in the order of the posts, and each Reserve or Return is of a call that had an
/// InitialDP.
pub fn run_entries_are_served<S: Shared>()
    ensures { RunEntriesAreServed S.stood }
{
    entries_come_from_posts();
}

/// In the book of an account the Credits of a worker are just the recharges of that account which
/// the worker handled and which weren't refused, in order. What each worker handles, `handled`
/// gives, and which of that was refused, `refusals`.
pub fn recharges_are_in_the_books<S: Shared>()
    ensures { RechargesAreInTheBooks S.stood }
{
    recharges_are_entered();
}

/// In the book of an account each Reserve of a worker is of a call of a subscriber of that account,
/// with the plan of the called number's route, and for what the service wants.
pub fn reserves_are_in_the_books<S: Shared>()
    ensures { ReservesAreInTheBooks S.stood }
{
    reserves_are_on_terms();
}

/// In the books of a run each entry of a call is by one worker, that of the call's remainder.
pub fn run_calls_are_of_one_worker<S: Shared>()
    ensures { RunCallsAreOfOneWorker S.stood }
{
    entries_come_from_posts();
}

/// In a run over accounts by turns no Return of a call that its worker's own entries show open is
/// refused, and no first Settle since its last grant.
pub fn run_owed_is_never_refused()
    ensures { RunOwedIsNeverRefused }
{
    entries_come_from_posts();
    calls_of_one_seat_are_alone();
}
