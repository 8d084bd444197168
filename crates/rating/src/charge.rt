//! The price of a call by its route.

ghost use Rattle.std.specs.Prelude.{◌≡◌, ◌+◌, ◌-◌, ◌<◌, ◌≤◌, IfSome};
ghost use Rattle.price_core.specs.RatesOf.{rates_of};
ghost use Rattle.rating.specs.Charges.{price_of_call};
ghost use Rattle.rating.specs.Rated.{charged, charge_by};
ghost use Rattle.rating.specs.declared.call.Talk.TheVariants as talks;

use price_core::{DAY, Route, price};

/// The times of a call before the tariff switch and after it, in units of 100 ms, and their price,
/// in units of money.
#[derive(Clone, Copy)]
pub struct PricedTimes {
    /// Before the switch.
    pub before: u32,
    /// After it.
    pub after: u32,
    /// The price of both.
    pub price: u64,
}

impl PricedTimes {
    /// No time, at no price.
    pub(crate) const NONE: PricedTimes = PricedTimes {
        before: 0,
        after: 0,
        price: 0,
    };

    /// Times at their price.
    pub(crate) fn of_times(route: &Route, before: u32, after: u32) -> PricedTimes
        requires { before + after ≤ DAY }
        ensures { result ≡ charged route.now before after }
    {
        PricedTimes {
            before,
            after,
            price: price(&route.plan, before, after),
        }
    }
}

/// What a call costs that is answered at a moment, before the switch of its route, and lasts so
/// many units of 100 ms, a day at most: its time is split at the switch.
pub fn charge_call(route: &Route, at: u64, talk: u32) -> PricedTimes
    requires time { talk ≤ DAY }
    requires switch { IfSome route.now.switch_at (λ switch. at < switch) }
    ensures exact { result ≡ charge_by route.now at (talks.Lasts talk) }
    ensures price { result.price
        ≡ price_of_call (rates_of route.now.plan) at route.now.switch_at talk }
{
    let before = match route.switch_at {
        Some(switch) => u64::from(talk).min(switch - at) as u32,
        None => talk,
    };
    PricedTimes::of_times(route, before, talk - before)
}
