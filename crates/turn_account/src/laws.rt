//! Laws of the books of turn accounts, each the contract of a function that does nothing.

ghost use Rattle.turn_account.specs.Seen.{CallsOfOneSeatAreAlone};

/// A call whose entries in a book are all by one seat of a turn account was that seat's alone: at
/// no moment had the account other entries of the call than the seat's own.
pub fn calls_of_one_seat_are_alone()
    ensures { CallsOfOneSeatAreAlone }
{}
