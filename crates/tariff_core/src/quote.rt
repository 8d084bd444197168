//! What a tariff says of a called number at a moment.

use price_core::Route;

/// The route of a call to a number, and the row of the tariff that it comes from.
#[derive(Clone, Copy)]
pub struct Quote<'a> {
    /// The prefix that counts, the first digits of the called number.
    pub prefix: &'a [u8],
    /// When the row of the prefix starts, in units of 100 ms after midnight.
    pub start: u32,
    /// What the call is charged by.
    pub route: Route,
}
