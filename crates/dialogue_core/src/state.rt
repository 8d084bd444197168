//! The states of the service.

ghost use Rattle.std.specs.Prelude.{◌≤◌};
ghost use Rattle.std.specs.Option.{ForSome};
ghost use Rattle.cap_values.specs.declared.charge.TheConstants.{MAX_SWITCH};

use price_core::Plan;

/// Where a dialogue is. An ask is pending in FirstAsk, Settling, MoreAsk and Returning.
#[derive(Clone, Copy, PartialEq, Eq)]
pub(crate) enum State {
    /// The first time was asked for.
    FirstAsk(Terms),
    /// The call was granted time.
    Running(Terms),
    /// A report is being settled; active where the call goes on.
    Settling {
        /// The call's terms.
        terms: Terms,
        /// Whether the call goes on after the report.
        active: bool,
        /// The moment of the report.
        at: u64,
    },
    /// More time was asked for.
    MoreAsk(Terms),
    /// What is left is being returned.
    Returning(Then),
    /// The account is done with; the gsmSSF isn't.
    Ending,
    /// The dialogue is over.
    Closed,
}

/// What follows a return.
#[derive(Clone, Copy, PartialEq, Eq)]
pub(crate) enum Then {
    /// No operation.
    Nothing,
    /// The call goes on.
    GoOn,
    /// The call is cleared, as the credit is used up.
    Clear,
    /// The call is cleared, as a report was a forfeit, or the account refused what was asked.
    Fail,
    /// The dialogue is over.
    Close,
}

/// What a dialogue keeps of a call that has a route, from its beginning on.
#[derive(Clone, Copy, PartialEq, Eq)]
pub(crate) struct Terms {
    /// The call.
    pub call: u64,
    /// What it is charged by.
    pub plan: Plan,
    /// The time that each reserve asks for, in units of 100 ms.
    pub wanted: u32,
    /// The least time that is worth a grant.
    pub least: u32,
    /// The seconds to the tariff switch, counted from the beginning.
    pub switch: Option<u32>,
    pub ghost switch_in_range: { ForSome switch
        (λ seconds. (1 ≤ seconds) × (seconds ≤ MAX_SWITCH)) },
}
