//! The plan of the calls.

use price_core::Plan;

/// Two rates, the second cheaper.
pub(crate) const CHEAPER: Plan = Plan {
    fee: 50,
    before: 1000,
    after: Some(400),
    free: 0,
    first: 0,
    step: 1,
};
