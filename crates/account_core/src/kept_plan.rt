//! A plan in little memory.

ghost use Rattle.std.specs.Prelude.{◌≡◌, ◌≤◌, unwrap_or};
ghost use Rattle.price_core.specs.declared.plan.TheConstants.{MAX_RATE};
ghost use Rattle.price_core.specs.declared.times.TheConstants.{DAY};

use price_core::Plan;

/// A plan as the state of a call keeps it. Its numbers have 32 bits, so that it takes half the
/// memory of a plan: books may have hundreds of thousands of calls.
#[derive(Clone, Copy)]
pub(crate) struct KeptPlan {
    fee: u32,
    before: u32,
    after: Option<u32>,
    free: u32,
    first: u32,
    step: u32,
    ghost fee_in_range: { fee ≤ MAX_RATE },
    ghost before_in_range: { before ≤ MAX_RATE },
    ghost after_in_range: { unwrap_or after 0 ≤ MAX_RATE },
    ghost free_within_day: { free ≤ DAY },
    ghost first_within_day: { first ≤ DAY },
    ghost step_positive: { 1 ≤ step },
    ghost step_within_day: { step ≤ DAY },
}

impl KeptPlan {
    ghost use Rattle.account_core.specs.KeptPlans.{rates_kept};
    ghost use Rattle.price_core.specs.RatesOf.{rates_of};

    /// What is kept of a plan.
    pub fn of(plan: Plan) -> KeptPlan
        ensures { rates_kept result ≡ rates_of plan }
    {
        let after = match plan.after {
            Some(rate) => Some(rate as u32),
            None => None,
        };
        KeptPlan {
            fee: plan.fee as u32,
            before: plan.before as u32,
            after,
            free: plan.free,
            first: plan.first,
            step: plan.step,
        }
    }

    /// The plan that was kept.
    pub fn plan(self) -> Plan
        ensures { rates_of result ≡ rates_kept self }
    {
        let after = match self.after {
            Some(rate) => Some(u64::from(rate)),
            None => None,
        };
        Plan {
            fee: u64::from(self.fee),
            before: u64::from(self.before),
            after,
            free: self.free,
            first: self.first,
            step: self.step,
        }
    }
}
