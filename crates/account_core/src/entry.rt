//! What an account is asked, what it answers, and what it keeps of both.

ghost use Rattle.std.specs.Prelude.{◌≡◌};
ghost use Rattle.account_core.specs.Answers.{shown_by};
ghost use Rattle.account_core.specs.Asked.{call_of};
ghost use Rattle.account_core.specs.Available.{credited};
ghost use Rattle.account_core.specs.Expiry.{last_moment_after};

use price_core::{Plan, TimeInfo};

/// An operation on an account. Times and moments are in units of 100 ms, amounts in units of money.
#[derive(Clone, Copy, Debug, PartialEq, Eq)]
pub enum Op {
    /// Adds money to the account, and may give it another last moment: after that nothing new is
    /// granted.
    Credit {
        /// How much, 1 to `MAX_MONEY`.
        amount: u64,
        /// The account's last moment from then on, or none where it stays as it was.
        until: Option<u64>,
    },
    /// Holds money for the next time of a call.
    Reserve {
        /// The call.
        call: u64,
        /// What it is charged by. A call that is open keeps its first plan.
        plan: Plan,
        /// The time that is asked for, 1 to DAY.
        wanted: u32,
        /// The least time that is of use, 0 to DAY.
        least: u32,
        /// The moment of asking.
        at: u64,
    },
    /// What an open call has used, as its charging report states it.
    Settle {
        /// The call.
        call: u64,
        /// The number of the message that brought the report, in a run that of its post. It is kept
        /// and not judged.
        number: u64,
        /// The times of the report, cumulative from the call's answer.
        info: TimeInfo,
    },
    /// Ends an open call, and gives back what it holds and hasn't used.
    Return {
        /// The call.
        call: u64,
    },
}

impl Op {
    ghost use Rattle.account_core.specs.Entries.{asked_of};

    /// The call that it is of; 0 for a Credit, which is of none.
    pub fn call(&self) -> u64
        ensures { result ≡ call_of (asked_of self.now) }
    {
        match *self {
            Op::Credit { .. } => 0,
            Op::Reserve { call, .. } | Op::Settle { call, .. } | Op::Return { call } => call,
        }
    }
}

/// The answer to an operation. `available` is the account's credit after the entry, `paid` what the
/// call has paid so far.
#[derive(Clone, Copy, Debug, PartialEq, Eq)]
pub enum Reply {
    /// The amount was added.
    Credited {
        /// The credit after it.
        available: u64,
    },
    /// The amount would pass the largest money. Nothing was added.
    CreditOver {
        /// The credit, as it was.
        available: u64,
    },
    /// Money is held for more time.
    Granted {
        /// How much time, at least 1.
        units: u32,
        /// Whether it is less than was wanted, so that nothing more can be expected.
        last: bool,
        /// The credit that is left beside what is held.
        available: u64,
    },
    /// Less time than is of use is covered, or the call has a forfeit, or the account's last moment
    /// is over. What the call holds is unchanged.
    Denied {
        /// The credit, as it was.
        available: u64,
    },
    /// The report was accepted.
    Settled {
        /// The price of its times.
        paid: u64,
        /// The credit, as it was.
        available: u64,
    },
    /// The report passed what was granted or took back what an earlier one said, or one before it
    /// did. The call pays all that was held.
    Forfeit {
        /// All that was held.
        paid: u64,
        /// The credit, as it was.
        available: u64,
    },
    /// The call is over.
    Returned {
        /// What it has paid in all.
        paid: u64,
        /// The credit after the rest was given back.
        available: u64,
    },
}

impl Reply {
    /// The account's credit after the entry.
    pub fn available(&self) -> u64
        ensures { result ≡ shown_by self.now }
    {
        match *self {
            Reply::Credited { available }
            | Reply::CreditOver { available }
            | Reply::Granted { available, .. }
            | Reply::Denied { available }
            | Reply::Settled { available, .. }
            | Reply::Forfeit { available, .. }
            | Reply::Returned { available, .. } => available,
        }
    }
}

/// One entry of an account's history.
#[derive(Clone, Copy, Debug, PartialEq, Eq)]
pub struct Entry {
    /// The seat that asked.
    pub seat: u32,
    /// What it asked.
    pub op: Op,
    /// What was answered.
    pub reply: Reply,
}

impl Entry {
    ghost use Rattle.account_core.specs.Entries.{asked_of};

    /// What the entry adds to the account's funds.
    pub fn credited(&self) -> u64
        ensures { result ≡ credited (asked_of self.now.op) self.now.reply }
    {
        match (self.op, self.reply) {
            (Op::Credit { amount, .. }, Reply::Credited { .. }) => amount,
            _ => 0,
        }
    }

    /// The account's last moment after the entry, if it has one, by that before it.
    pub fn last_moment(&self, before: Option<u64>) -> Option<u64>
        ensures { result ≡ last_moment_after before (asked_of self.now.op) self.now.reply }
    {
        match (self.op, self.reply) {
            (Op::Credit { until, .. }, Reply::Credited { .. }) => until.or(before),
            _ => before,
        }
    }
}
