//! What a call of a run has come to.

use crate::Outcome;
use cap_values::Number;
use price_core::Times;

/// What a call has come to. Moments and times are in units of 100 ms.
#[derive(Drop)]
pub struct CallRecord {
    /// The call.
    pub call: u64,
    /// The calling party.
    pub calling: Number,
    /// The number that was dialled.
    pub called: Number,
    /// The account of the calling party, if it is a subscriber.
    pub account: Option<u32>,
    /// The longest prefix of the tariff that the called number begins with, if there is one; of the
    /// empty one no digits.
    pub prefix: Option<Vec<u8>>,
    /// The moment of its InitialDP.
    pub start: u64,
    /// The moment at which its answer was reported.
    pub answer: Option<u64>,
    /// The moment at which its dialogue ended.
    pub end: Option<u64>,
    /// The times that its account knows of it.
    pub times: Times,
    /// What it has paid there, and 0 where it was never granted anything.
    pub paid: u64,
    /// What became of it.
    pub outcome: Outcome,
}
