//! Laws of the runs of a dialogue, each the contract of a function that does nothing.

ghost use Rattle.held_calls.specs.Dialogues.{HonestRepliesAreExpected, OneReturnIfGranted, OneSettleAGrant};

/// Between a grant of time and the next one a dialogue asks the account to settle at most once.
pub fn one_settle_a_grant()
    ensures { OneSettleAGrant }
{}

/// A dialogue that is done with the account has returned exactly once what it was granted, and has
/// returned nothing where it was granted nothing.
pub fn one_return_if_granted()
    ensures { OneReturnIfGranted }
{}

/// No reply of the kind that an account gives to what it was asked last is unexpected.
pub fn honest_replies_are_expected()
    ensures { HonestRepliesAreExpected }
{}
