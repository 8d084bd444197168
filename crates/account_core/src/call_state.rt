//! What an account knows of a call, and what it answers by that.

ghost use Rattle.std.specs.Prelude.{◌≡◌, ◌≢◌, ◌+◌, ◌≤◌, None, false, true};
ghost use Rattle.account_core.specs.Answers.{accepted_times, misplaced, units_offered, inadmissible_for};
ghost use Rattle.account_core.specs.CallStages.{stage_of};
ghost use Rattle.account_core.specs.Entries.{asked_of};
ghost use Rattle.account_core.specs.Kept.{known_of};
ghost use Rattle.account_core.specs.Known.{deed_of, known_after, paid_if_granted, plan_in_force, taken_of, Grants};
ghost use Rattle.account_core.specs.Places.{refusal_for};
ghost use Rattle.account_core.specs.Replies.{reserve_reply, return_reply, settle_reply, reply_for};
ghost use Rattle.account_core.specs.Sound.{GrantsWithinDay, IsSound};
ghost use Rattle.account_core.specs.Asked.{is_in_range};
ghost use Rattle.price_core.specs.RatesOf.{rates_of};

use crate::held_call::HeldCall;
use crate::kept_plan::KeptPlan;
use crate::{AccountFault, CallStage, Op, Reply};
use price_core::{
    DAY, MAX_MONEY, Plan, TimeInfo, Times, afford, afforded_is_greatest, ceiling,
    ceiling_is_greatest, read_times,
};

/// What an account knows of a call.
#[derive(Clone, Copy)]
pub(crate) enum CallState {
    /// It was never granted anything.
    Fresh,
    /// It is open, and no report has come since its last grant.
    Granted(HeldCall),
    /// It is open, and a report has come since its last grant.
    Reported(HeldCall),
    /// It is over.
    Over(HeldCall),
}

impl CallState {
    /// Whether nothing is known of the call.
    #[inline(always)]
    pub fn is_fresh(&self) -> bool
        ensures fresh { result ≡ true → self.now ≡ CallState.Fresh }
        ensures known { result ≡ false → self.now ≢ CallState.Fresh }
    {
        matches!(self, CallState::Fresh)
    }

    /// At what stage the call is.
    pub fn stage(&self) -> CallStage
        ensures { result ≡ stage_of (known_of self.now) }
    {
        match *self {
            CallState::Fresh => CallStage::Fresh,
            CallState::Granted(_) => CallStage::Open { awaits: true },
            CallState::Reported(_) => CallStage::Open { awaits: false },
            CallState::Over(_) => CallStage::Over,
        }
    }

    /// What the call has paid so far, where it was granted anything.
    pub fn paid_if_granted(&self) -> Option<u64>
        ensures { result ≡ paid_if_granted (known_of self.now) }
    {
        match self {
            CallState::Fresh => None,
            CallState::Granted(held) | CallState::Reported(held) | CallState::Over(held) => Some(
                held.paid(),
            ),
        }
    }

    /// What the call takes of the credit.
    #[tactic(auto, unfolding(crate::specs::Known::taken_of))]
    pub fn taken(&self) -> u64
        ensures { result ≡ taken_of (known_of self.now) }
    {
        match self {
            CallState::Fresh => 0,
            CallState::Granted(held) | CallState::Reported(held) => held.top,
            CallState::Over(held) => held.paid(),
        }
    }

    /// The reply to a Reserve, which may come late, after the account's last moment, with this much
    /// credit available.
    #[tactic(auto, unfolding(crate::specs::Answers::units_offered))]
    #[inline(always)]
    pub fn reserve(&self, plan: Plan, wanted: u32, least: u32, late: bool, available: u64) -> Reply
        requires sound { IsSound (known_of self.now) }
        requires money { available + taken_of (known_of self.now) ≤ MAX_MONEY }
        ensures { result ≡ reserve_reply available (known_of self.now)
            (rates_of plan) wanted least late
            (units_offered available (known_of self.now) (rates_of plan) wanted) }
    {
        afforded_is_greatest();
        let plan = self.plan_in_force(plan);
        let money = available + self.taken();
        let times = self.times();
        let units = afford(&plan, times, wanted, money);
        if units < least || units == 0 || self.is_forfeited() || late {
            return Reply::Denied { available };
        }
        let held = ceiling(&plan, times, units);
        Reply::Granted {
            units,
            last: units < wanted,
            available: money - held,
        }
    }

    /// The reply to a Settle.
    #[inline(always)]
    pub fn settle(&self, info: TimeInfo, available: u64) -> Reply
        ensures { result ≡ settle_reply available (known_of self.now)
            (accepted_times (known_of self.now) info) }
    {
        match self {
            CallState::Fresh => Reply::Forfeit { paid: 0, available },
            CallState::Granted(held) | CallState::Reported(held) | CallState::Over(held) =>
                held.settle(info, available),
        }
    }

    /// The reply to a Return.
    #[inline(always)]
    pub fn give_back(&self, available: u64) -> Reply
        requires sound { IsSound (known_of self.now) }
        requires money { available + taken_of (known_of self.now) ≤ MAX_MONEY }
        ensures { result ≡ return_reply available (known_of self.now) }
    {
        ceiling_is_greatest();
        let paid = self.paid_if_granted().unwrap_or(0);
        Reply::Returned {
            paid,
            available: available + self.taken() - paid,
        }
    }

    /// What is known after an entry of the call, in its place.
    #[inline(always)]
    pub fn after(self, op: Op, reply: Reply) -> CallState
        requires sound { IsSound (known_of self) }
        requires placed { misplaced (known_of self) (asked_of op) ≡ None }
        requires room { GrantsWithinDay (known_of self) (deed_of (asked_of op) reply) }
        ensures { known_of result ≡ known_after (known_of self) (deed_of (asked_of op) reply) }
    {
        match (self, op, reply) {
            (_, Op::Reserve { plan, .. }, Reply::Granted { units, .. }) => {
                self.granted(plan, units)
            }
            (
                CallState::Granted(held) | CallState::Reported(held),
                Op::Settle { info, .. },
                Reply::Settled { .. },
            ) => CallState::Reported(HeldCall {
                times: read_times(held.times, info).unwrap_or(held.times),
                ..held
            }),
            (
                CallState::Granted(held) | CallState::Reported(held),
                Op::Settle { .. },
                Reply::Forfeit { .. },
            ) => CallState::Reported(HeldCall {
                forfeited: true,
                ..held
            }),
            (
                CallState::Granted(held) | CallState::Reported(held),
                Op::Return { .. },
                Reply::Returned { .. },
            ) => CallState::Over(held),
            _ => self,
        }
    }

    /// What is known after a grant.
    #[inline(always)]
    fn granted(self, plan: Plan, units: u32) -> CallState
        requires sound { IsSound (known_of self) }
        requires unreturned { (known_of self).returned ≡ false }
        requires room { (known_of self).times.before + (known_of self).times.after + units ≤ DAY }
        ensures { known_of result ≡ known_after (known_of self) (Grants (rates_of plan) units) }
    {
        let plan = self.plan_in_force(plan);
        let times = self.times();
        CallState::Granted(HeldCall {
            plan: KeptPlan::of(plan),
            times,
            granted: times.total() + units,
            top: ceiling(&plan, times, units),
            forfeited: self.is_forfeited(),
        })
    }

    /// The plan that a grant goes by: the call's first one.
    fn plan_in_force(&self, plan: Plan) -> Plan
        ensures { rates_of result ≡ plan_in_force (known_of self.now) (rates_of plan) }
    {
        match self {
            CallState::Fresh => plan,
            CallState::Granted(held) | CallState::Reported(held) | CallState::Over(held) => {
                held.plan.plan()
            }
        }
    }

    /// What its last accepted report states, and no time before that.
    fn times(&self) -> Times
        ensures { result ≡ (known_of self.now).times }
    {
        match self {
            CallState::Fresh => Times::ZERO,
            CallState::Granted(held) | CallState::Reported(held) | CallState::Over(held) =>
                held.times,
        }
    }

    /// Whether it has a forfeit.
    fn is_forfeited(&self) -> bool
        ensures { result ≡ (known_of self.now).forfeited }
    {
        match self {
            CallState::Fresh => false,
            CallState::Granted(held) | CallState::Reported(held) | CallState::Over(held) =>
                held.forfeited,
        }
    }
}

/// Why an operation is refused, if it is: out of range, else out of place, else over the limit.
#[inline(always)]
pub(crate) fn judge(
    op: &Op,
    state: &CallState,
    entries: usize,
    owed: usize,
    limit: u32,
) -> Option<AccountFault>
    requires { entries + owed ≤ limit }
    ensures { result ≡ refusal_for limit entries owed (known_of state.now) (asked_of op.now) }
{
    if let Some(fault) = inadmissible(op, state) {
        return Some(fault);
    }
    if entries + owed + state.stage().needed(op) > limit as usize {
        Some(AccountFault::HistoryFull)
    } else {
        None
    }
}

/// Whether an operation is out of range, or out of place.
#[inline(always)]
pub(crate) fn inadmissible(op: &Op, state: &CallState) -> Option<AccountFault>
    ensures { result ≡ inadmissible_for (known_of state.now) (asked_of op.now) }
{
    if !is_in_range(op) {
        return Some(AccountFault::OutOfRange);
    }
    match (op, state) {
        (Op::Reserve { .. }, CallState::Over(_)) => Some(AccountFault::CallUsed),
        (Op::Settle { .. } | Op::Return { .. }, CallState::Fresh | CallState::Over(_)) => {
            Some(AccountFault::NotOpen)
        }
        _ => None,
    }
}

/// Whether an operation's amount and times are within their ranges.
fn is_in_range(op: &Op) -> bool
    ensures { result ≡ is_in_range (asked_of op.now) }
{
    match *op {
        Op::Credit { amount, .. } => 1 <= amount && amount <= MAX_MONEY,
        Op::Reserve { wanted, least, .. } => 1 <= wanted && wanted <= DAY && least <= DAY,
        Op::Settle { .. } | Op::Return { .. } => true,
    }
}

/// The reply to an operation that isn't refused, where the funds are the opening and the accepted
/// credits, so much of them is available, and the account has this last moment, if any.
#[inline(always)]
pub(crate) fn reply(
    op: Op,
    state: &CallState,
    funds: u64,
    available: u64,
    last_moment: Option<u64>,
) -> Reply
    requires sound { IsSound (known_of state.now) }
    requires money { available + taken_of (known_of state.now) ≤ MAX_MONEY }
    requires capped { funds ≤ MAX_MONEY }
    requires ranged { is_in_range (asked_of op) ≡ true }
    ensures { result ≡ reply_for available funds last_moment (known_of state.now) (asked_of op) }
{
    match op {
        Op::Credit { amount, .. } if funds + amount <= MAX_MONEY => Reply::Credited {
            available: available + amount,
        },
        Op::Credit { .. } => Reply::CreditOver { available },
        Op::Reserve {
            plan,
            wanted,
            least,
            at,
            ..
        } => {
            let late = matches!(last_moment, Some(last) if last < at);
            state.reserve(plan, wanted, least, late, available)
        }
        Op::Settle { info, .. } => state.settle(info, available),
        Op::Return { .. } => state.give_back(available),
    }
}
