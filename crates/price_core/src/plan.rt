//! What a call is charged by.

ghost use Rattle.std.specs.Prelude.{◌≡◌, ◌≤◌, ◌↔◌, IsOk, IfOk, Some, unwrap_or};
ghost use Rattle.price_core.specs.RangeTexts.{plan_range_text};
ghost use Rattle.price_core.specs.Rates.{AreRates, AreSteps, has_steps};
ghost use Rattle.price_core.specs.declared.plan.TheConstants.{MAX_RATE};
ghost use Rattle.price_core.specs.declared.times.TheConstants.{DAY};

use crate::DAY;
use std::error::Error;
use std::fmt;

/// The largest amount of money: no account has more credit.
pub const MAX_MONEY: u64 = 1_000_000_000_000_000;

/// The highest fee, and the highest rate a minute, in units of money.
pub const MAX_RATE: u64 = 1_000_000_000;

/// A fee or a rate is above `MAX_RATE`, or free units or a billing step are out of range.
#[derive(Clone, Copy, Debug, PartialEq, Eq)]
pub struct PlanRange;

impl fmt::Display for PlanRange {
    ghost output = { λ _. Some plan_range_text };

    fn fmt<W: fmt::Write>(&self, f: &mut fmt::Formatter<W>) -> fmt::Result {
        write!(
            f,
            "a fee or a rate is above {MAX_RATE}, free units or a step are above {DAY}, \
             or a step is 0"
        )
    }
}

impl Error for PlanRange {}

/// A charging plan: what a call costs once it is talked, what a minute of it costs, how long it is
/// free, and in which steps the rest is billed.
#[derive(Clone, Copy, Debug, PartialEq, Eq)]
pub struct Plan {
    /// Charged once, as soon as any time is talked: 0 to `MAX_RATE`.
    pub fee: u64,
    /// The rate a minute before the tariff switch: 0 to `MAX_RATE`.
    pub before: u64,
    /// The rate a minute after the switch, where the plan has one: 0 to `MAX_RATE`.
    pub after: Option<u64>,
    /// How many units of 100 ms cost nothing, 0 to `DAY`: the first of the time before the switch,
    /// and where that was shorter, the first after it. The fee is charged all the same.
    pub free: u32,
    /// How many units of 100 ms are billed at least once any is charged for, 0 to `DAY`.
    pub first: u32,
    /// What lies beyond these is billed in whole steps of so many units of 100 ms, 1 to `DAY`. A
    /// step that begins before the tariff switch is billed whole at the rate before it.
    pub step: u32,
    pub ghost fee_in_range: { fee ≤ MAX_RATE },
    pub ghost before_in_range: { before ≤ MAX_RATE },
    pub ghost after_in_range: { unwrap_or after 0 ≤ MAX_RATE },
    pub ghost free_within_day: { free ≤ DAY },
    pub ghost first_within_day: { first ≤ DAY },
    pub ghost step_positive: { 1 ≤ step },
    pub ghost step_within_day: { step ≤ DAY },
}

impl Plan {
    ghost use Rattle.price_core.specs.RatesOf.{rates_of};

    /// The plan of a fee and one or two rates a minute, each 0 to `MAX_RATE`, without free units,
    /// each unit billed by itself.
    pub fn new(fee: u64, before: u64, after: Option<u64>) -> Result<Plan, PlanRange>
        ensures made { IsOk result ↔ AreRates fee before after }
        ensures rates { IfOk result
            (λ plan. rates_of plan
            ≡ record { fee = fee; before = before; after = after; free = 0; first = 0; step = 1 }) }
    {
        if fee > MAX_RATE || before > MAX_RATE || after.unwrap_or(0) > MAX_RATE {
            return Err(PlanRange);
        }
        Ok(Plan {
            fee,
            before,
            after,
            free: 0,
            first: 0,
            step: 1,
        })
    }

    /// The same plan with so many free units of 100 ms, 0 to `DAY`.
    pub fn with_free(self, free: u32) -> Result<Plan, PlanRange>
        ensures made { IsOk result ↔ (free ≤ DAY) }
        ensures rates { IfOk result
            (λ plan. rates_of plan ≡ record (rates_of self) { free = free }) }
    {
        if free > DAY {
            return Err(PlanRange);
        }
        let Plan {
            fee,
            before,
            after,
            first,
            step,
            ..
        } = self;
        Ok(Plan {
            fee,
            before,
            after,
            free,
            first,
            step,
        })
    }

    /// The same plan, billed in steps: `first` units of 100 ms at least, 0 to `DAY`, and what lies
    /// beyond them in whole steps of `step` units, 1 to `DAY`.
    pub fn with_steps(self, first: u32, step: u32) -> Result<Plan, PlanRange>
        ensures made { IsOk result ↔ AreSteps first step }
        ensures rates { IfOk result
            (λ plan. rates_of plan ≡ record (rates_of self) { first = first; step = step }) }
    {
        if first > DAY || step == 0 || step > DAY {
            return Err(PlanRange);
        }
        let Plan {
            fee,
            before,
            after,
            free,
            ..
        } = self;
        Ok(Plan {
            fee,
            before,
            after,
            free,
            first,
            step,
        })
    }

    /// Whether units are billed in steps, and not each by itself.
    pub fn has_steps(&self) -> bool
        ensures { result ≡ has_steps (rates_of self.now) }
    {
        self.first != 0 || self.step != 1
    }
}
