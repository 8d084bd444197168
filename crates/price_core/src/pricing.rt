//! What times cost, the most that granted times can cost, the units that money covers, and which
//! times may follow.

ghost use Rattle.std.specs.Prelude.{◌≡◌, ◌+◌, ◌*◌, ◌<◌, ◌≤◌, true, IsSome};
ghost use Rattle.price_core.specs.Lawful.{is_lawful};
ghost use Rattle.price_core.specs.Price.{billed, price_of, price_at};
ghost use Rattle.price_core.specs.RatesOf.{rates_of};
ghost use Rattle.price_core.specs.Ceiling.{ceiling_of};
ghost use Rattle.price_core.specs.Afford.{units_afforded};

use crate::{DAY, Plan, Times};

/// The most that a call can cost: the highest fee, and the most units that are billed of a day, one
/// less than two days, at the highest rate.
pub const MAX_PRICE: u64 = 2_880_998_333_334;

/// The units of 100 ms in a minute, which rates are given for.
const MINUTE: u64 = 600;

/// What it costs to have talked `before` units of 100 ms before the tariff switch and `after` units
/// after it, a day together at most: nothing where nothing was talked, else the fee and what is
/// billed of each time at its rate, rounded up once. The time before the switch uses the free units
/// up first, and a billing step that begins before the switch is billed whole before it. Without a
/// second rate what is billed after the switch costs nothing.
#[tactic(auto, using(crate::proofs::Prices::billed_grows))]
pub fn price(plan: &Plan, before: u32, after: u32) -> u64
    requires { before + after ≤ DAY }
    ensures exact { result ≡ price_of (rates_of plan.now) before after }
    ensures bounded { result ≤ MAX_PRICE }
{
    if before == 0 && after == 0 {
        return 0;
    }
    let charged = before.saturating_sub(plan.free);
    let later = after.saturating_sub(plan.free.saturating_sub(before));
    let first = billed(plan, charged);
    let second = billed(plan, charged + later) - first;
    let cost = u64::from(first) * plan.before + u64::from(second) * plan.after.unwrap_or(0);
    plan.fee + cost.div_ceil(MINUTE)
}

/// The units that are billed where `charged` units are charged for.
#[tactic(auto, unfolding(crate::specs::Price::billed))]
fn billed(plan: &Plan, charged: u32) -> u32
    requires { charged ≤ DAY }
    ensures exact { result ≡ billed (rates_of plan.now) charged }
    ensures bounded { result < 2 * DAY }
{
    if charged == 0 {
        return 0;
    }
    let beyond = charged.saturating_sub(plan.first);
    plan.first + beyond.div_ceil(plan.step) * plan.step
}

/// What a report adds to the price: that of `new` less that of `old`, which the caller has found
/// lawful one after the other.
pub fn debit(plan: &Plan, old: Times, new: Times) -> u64
    requires { is_lawful (rates_of plan.now) old new DAY ≡ true }
    ensures exact { price_at (rates_of plan.now) old + result ≡ price_at (rates_of plan.now) new }
    ensures bounded { price_at (rates_of plan.now) new ≤ MAX_PRICE }
{
    price(plan, new.before(), new.after()) - price(plan, old.before(), old.after())
}

/// The greatest price over all times that are lawful after `old`, where `more` units of 100 ms are
/// granted beyond what was talked. A dearer second rate counts from the first of these units.
pub fn ceiling(plan: &Plan, old: Times, more: u32) -> u64
    requires room { old.before + old.after + more ≤ DAY }
    requires rated { old.switched ≡ true → IsSome plan.now.after }
    ensures exact { result ≡ ceiling_of (rates_of plan.now) old more }
    ensures bounded { result ≤ MAX_PRICE }
{
    let at_first = price(plan, old.before() + more, old.after());
    let at_second = price(plan, old.before(), old.after() + more);
    match plan.after {
        Some(_) if old.switched() => at_second,
        Some(_) => at_first.max(at_second),
        None => at_first,
    }
}

/// The most units of 100 ms, up to `wanted` and to a day in all, that `money` covers at their
/// dearest; 0 if there are none.
pub fn afford(plan: &Plan, old: Times, wanted: u32, money: u64) -> u32
    requires { old.switched ≡ true → IsSome plan.now.after }
    ensures exact { result ≡ units_afforded (rates_of plan.now) old wanted money }
    ensures wanted { result ≤ wanted }
    ensures room { old.before + old.after + result ≤ DAY }
{
    let most = wanted.min(DAY - old.total());
    if ceiling(plan, old, most) <= money {
        return most;
    }
    let mut covered = 0;
    let mut beyond = most + 1;
    while covered + 1 < beyond {
        let middle = covered + (beyond - covered) / 2;
        if ceiling(plan, old, middle) <= money {
            covered = middle;
        } else {
            beyond = middle;
        }
    }
    covered
}

/// Whether a call may report `new` after it reported `old`, with `granted` units of 100 ms granted
/// in all. Neither time falls, a switch stays and with it the time before it, only a plan with a
/// second rate switches, and no more was talked than was granted.
pub fn lawful(plan: &Plan, old: Times, new: Times, granted: u32) -> bool
    ensures { result ≡ is_lawful (rates_of plan.now) old new granted }
{
    let keeps_switch = !old.switched() || (new.switched() && new.before() == old.before());
    new.before() >= old.before()
        && new.after() >= old.after()
        && keeps_switch
        && (!new.switched() || plan.after.is_some())
        && new.total() <= granted
}
