//! What an account comes to.

use crate::CallSum;

/// What a legal history of an account comes to. Amounts are in units of money.
#[derive(Drop)]
pub struct AccountSum {
    /// The credit that it was opened with.
    pub opening: u64,
    /// The credit that is left.
    pub available: u64,
    /// How many entries its history has; `u64::MAX` where they are more.
    pub entries: u64,
    /// The calls that were granted anything, by rising number.
    pub calls: Vec<CallSum>,
}
