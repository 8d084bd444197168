//! Laws of talks and of workers, each the contract of a function that does nothing.

ghost use Rattle.std.specs.Prelude.{ℕ, List};
ghost use Rattle.held_calls.specs.Workers.{CallsAreReserved, CallsAreReturned, EntriesComeFromPosts, PostsAreHandled, RechargesAreEntered, ReportsAreSettled, ReservesAreOnTerms, WhatIsSaidIsSent};
ghost use Rattle.runs_core.specs.Refusals.{RefusesAt};
ghost use Rattle.held_calls.specs.Owed.{IsAloneWith, NeverRefusesOwed};

use account_core::Shared;

/// An answer to a message that asks no account has the operations that the dialogue said at once,
/// and no refusal.
pub fn what_is_said_is_sent()
    ensures { WhatIsSaidIsSent }
{}

/// Each entry of a worker comes from the posts that it handled: each Settle is of a report and
/// carries its post's number, each Credit is of a recharge of the account, both in the order of the
/// posts, and each Reserve or Return is of a call that had an InitialDP.
pub fn entries_come_from_posts()
    ensures { EntriesComeFromPosts }
{}

/// The Credits of an account by a worker are just the recharges of it that the worker handled and
/// that weren't refused, in order, each with its amount and its last moment.
pub fn recharges_are_entered()
    ensures { RechargesAreEntered }
{}

/// Each Reserve by a worker is for the account of the calling number of its call's InitialDP, with
/// the plan of the called number's route at that moment, and for what the service wants and takes
/// at least. It is asked for at the moment of a message of the call.
pub fn reserves_are_on_terms()
    ensures { ReservesAreOnTerms }
{}

/// Each post of a worker that wasn't refused is handled after those before it, and its lists in the
/// end come from what it holds then.
pub fn posts_are_handled()
    ensures { PostsAreHandled }
{}

/// The first InitialDP of a call from a subscriber, to a number with a route, has its Reserve at
/// the subscriber's account, or it was refused.
pub fn calls_are_reserved()
    ensures { CallsAreReserved }
{}

/// What a call is owed that is the seats' alone, its Return or its first Settle since its last
/// grant, by the own entries of the seat that asks, is never refused by an account that the seat
/// knows.
pub fn owed_is_never_refused<S: Shared>()
    ensures { (seats : List S.Seat) (call : ℕ) → IsAloneWith S.was seats call
        → NeverRefusesOwed (RefusesAt S.was seats) call }
{}

/// A ChargingReport of a call that goes on is settled just once, at the call's account and at no
/// other: in its place among the reports, and with the number of its post. Or it was refused.
pub fn reports_are_settled()
    ensures { ReportsAreSettled }
{}

/// A call that goes on and is ended by a message is returned just once, at its account and at no
/// other, in the message's place. Or its Return was refused.
pub fn calls_are_returned()
    ensures { CallsAreReturned }
{}
