//! What a call costs: the times that it has been talked, the plan that it is charged by, and the
//! price of the one under the other.
#![tactic(auto)]

mod laws;
mod plan;
mod pricing;
mod reading;
mod route;
mod times;

pub use laws::{afforded_is_greatest, ceiling_is_greatest, lawful_times_follow, limits_in_numbers};
pub use plan::{MAX_MONEY, MAX_RATE, Plan, PlanRange};
pub use pricing::{MAX_PRICE, afford, ceiling, debit, lawful, price};
pub use reading::read_times;
pub use route::Route;
pub use times::{DAY, HORIZON, MAX_MOMENT, TimeInfo, TimeRange, Times};
