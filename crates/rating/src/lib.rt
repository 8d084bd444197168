//! The records of a real system, held against a tariff: what each call should have cost.
#![tactic(auto)]

mod ask;
mod call;
mod charge;
mod columns;
mod cursor;
mod cut_rows;
mod fault;
mod kind;
mod laws;
mod line;
mod rated;
mod rating;
mod score;

pub use ask::{Column, Names, RateAsk, TimeNames};
pub use call::MAX_SHOWN;
pub use charge::{PricedTimes, charge_call};
pub use fault::{HeaderFault, RateFault};
pub use kind::RateKind;
pub use laws::pieces_are_rated;
pub use rating::rate;
pub use score::Score;
