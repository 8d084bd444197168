//! Laws of what the command `run` answers, each the contract of a function that does nothing.

ghost use Rattle.run_laws.specs.Answered.{AnsweredCallsHavePaid, CallsOfPartsHavePaid, CallsOfTablesHavePaid, PartsHaveAllAccounts, AnsweredBooksPass, AnsweredPartsPass, AnsweredTablesPass};
ghost use Rattle.run_laws.specs.Joined.{JoinedBooksHaveAllAccounts, JoinedBooksPass};
ghost use Rattle.run_laws.specs.Played.{PlayedBooksPass, PlayedCallsHavePaid};

use crate::books::runs_pass_the_audit;
use crate::records::{calls_pay_their_route, records_sum_up, unrouted_calls_pay_nothing};
use ssf_core::{initial_dp_is_first, reports_are_in_range};
use turn_account::TurnAccount;

/// The table of books that `run` prints, or `run_tables`, passes an audit: a long one always, and a
/// short one where that takes as many rows. So does the table of a run in parts, whose books are
/// those of all accounts of the input, in order.
pub fn answered_books_pass()
    ensures alone { AnsweredBooksPass }
    ensures tables { AnsweredTablesPass }
    ensures parts { AnsweredPartsPass }
    ensures accounts { PartsHaveAllAccounts }
{
    played_books_pass();
    joined_books_pass();
}

/// The records of the calls of a run have paid, all together, what the calls of its books have, a
/// call without a route nothing, and a call without a forfeit the price of its times by its route.
/// So they have where all texts of the run are asked for, and in each part of a run in parts.
pub fn answered_calls_have_paid()
    ensures alone { AnsweredCallsHavePaid }
    ensures tables { CallsOfTablesHavePaid }
    ensures parts { CallsOfPartsHavePaid }
{
    played_calls_have_paid();
}

/// The table of the books of a run passes a long audit: the gsmSSFs send reports in range alone,
/// and `MAX_ACCOUNTS` histories of `MAX_LIMIT` entries have fewer rows than that takes.
fn played_books_pass()
    ensures { PlayedBooksPass }
{
    reports_are_in_range();
    runs_pass_the_audit::<TurnAccount>();
}

/// The joined books of all parts of a run are those of its accounts, in order, and their table
/// passes the audit as that of a run that isn't in parts.
fn joined_books_pass()
    ensures accounts { JoinedBooksHaveAllAccounts }
    ensures pass { JoinedBooksPass }
{
    reports_are_in_range();
    runs_pass_the_audit::<TurnAccount>();
}

/// The records of the calls of a run have paid, all together, what the calls of its books have, a
/// call without a route has paid nothing, and a call without a forfeit the price of its times by
/// the route at its start: the gsmSSF of a call sends one InitialDP.
fn played_calls_have_paid()
    ensures { PlayedCallsHavePaid }
{
    initial_dp_is_first();
    records_sum_up::<TurnAccount>();
    unrouted_calls_pay_nothing::<TurnAccount>();
    calls_pay_their_route::<TurnAccount>();
}
