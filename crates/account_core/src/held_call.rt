//! What an account keeps of a call that was granted something.

ghost use Rattle.std.specs.Prelude.{◌≡◌, Bool, Some, false};
ghost use Rattle.account_core.specs.Answers.{accepted_times};
ghost use Rattle.account_core.specs.Kept.{facts_of_held};
ghost use Rattle.account_core.specs.Known.{paid_of, price_under};
ghost use Rattle.account_core.specs.Replies.{settle_reply};

use crate::Reply;
use crate::kept_plan::KeptPlan;
use price_core::{TimeInfo, Times, lawful, price, read_times};

/// What an account keeps of a call that was granted something, while it is open and afterwards.
#[derive(Clone, Copy)]
pub(crate) struct HeldCall {
    /// The plan of its first grant.
    pub plan: KeptPlan,
    /// What its last accepted report states.
    pub times: Times,
    /// The time granted in all, cumulative as the reports are.
    pub granted: u32,
    /// Whether it has a forfeit.
    pub forfeited: bool,
    /// The most that it can come to pay for the time granted. It is last, where the others
    /// leave it no gap.
    pub top: u64,
}

impl HeldCall {
    /// What the call has paid so far.
    pub fn paid(&self) -> u64
        ensures { result ≡ paid_of (facts_of_held self.now false false) }
    {
        if self.forfeited {
            self.top
        } else {
            self.price_of(self.times)
        }
    }

    /// The times that a report gives the call, where it is accepted.
    #[tactic(auto, unfolding(crate::specs::Answers::accepted_times))]
    pub fn accept(&self, info: TimeInfo) -> Option<Times>
        ensures { (returned awaits : Bool)
            → result ≡ accepted_times (facts_of_held self.now returned awaits) info }
    {
        if self.forfeited {
            return None;
        }
        let times = read_times(self.times, info)?;
        if lawful(&self.plan.plan(), self.times, times, self.granted) {
            Some(times)
        } else {
            None
        }
    }

    /// The reply to a Settle.
    pub fn settle(&self, info: TimeInfo, available: u64) -> Reply
        ensures { (returned awaits : Bool)
            → result ≡ settle_reply available (facts_of_held self.now returned awaits)
            (accepted_times (facts_of_held self.now returned awaits) info) }
    {
        match self.accept(info) {
            Some(times) => Reply::Settled {
                paid: self.price_of(times),
                available,
            },
            None => Reply::Forfeit {
                paid: self.top,
                available,
            },
        }
    }

    /// The price of times under the call's plan.
    fn price_of(&self, times: Times) -> u64
        ensures { result ≡ price_under (facts_of_held self.now false false).plan times }
    {
        price(&self.plan.plan(), times.before(), times.after())
    }
}
