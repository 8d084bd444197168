//! What a worker is sent, and what it answers.

ghost use Rattle.std.specs.Prelude.{◌≤◌};
ghost use Rattle.price_core.specs.declared.times.TheConstants.{HORIZON};

use account_core::AccountFault;
use cap_values::{Instructions, SsfMsg};

/// What a post is about.
#[derive(Clone, Copy, Debug, PartialEq, Eq)]
pub enum Body {
    /// A message of the gsmSSF of a call.
    Ssf {
        /// The call. The number inside an InitialDP isn't looked at.
        call: u64,
        /// The message.
        msg: SsfMsg,
    },
    /// Money for an account.
    Recharge {
        /// The account's number.
        account: u32,
        /// How much, in units of money, 1 to `MAX_MONEY`; an account refuses any other.
        amount: u64,
        /// The account's last moment from then on, in units of 100 ms; none leaves it as it is.
        until: Option<u64>,
    },
}

/// A message or a recharge with its number in the run and its moment.
#[derive(Clone, Copy, Debug, PartialEq, Eq)]
pub struct Post {
    /// Counted from 0 in the order in which the driver gave them.
    pub number: u64,
    /// The moment, in units of 100 ms: 0 to `price_core::HORIZON`.
    pub at: u64,
    /// What it is about.
    pub body: Body,
    pub ghost in_range: { at ≤ HORIZON },
}

/// What a worker answers to a post.
#[derive(Clone, Copy)]
pub struct Answer {
    /// The number of the post.
    pub number: u64,
    /// What the gsmSSF of the post's call is sent.
    pub instructions: Instructions,
    /// Whether the post has no place here. No account was asked then.
    pub stray: bool,
    /// The last fault that an ask of an account got.
    pub refused: Option<AccountFault>,
}
