//! What is said in a run, in short: messages of calls, and recharges.

use crate::making::number;
use cap_values::{Number, SsfMsg};
use price_core::TimeInfo;
use run_values::Body;
use std::alloc::Global;
use std::process::Abort;

/// A message of a call, which has this number, or a recharge.
#[derive(Clone, Copy)]
pub(crate) enum Say {
    /// A call of this calling number to 4930 starts.
    Begins(u64, &'static str),
    /// A call reports whether it is still active, and the time that was talked, in 100 ms.
    Reports(u64, bool, u32),
    Ends(u64),
    /// An account is credited an amount.
    Recharges(u32, u64),
}

/// A round: one message, or two.
pub(crate) type Round = (Say, Option<Say>);

fn of_call(call: u64, msg: SsfMsg) -> Body {
    Body::Ssf { call, msg }
}

fn begun(call: u64, calling: Number, called: Number) -> Body {
    let msg = SsfMsg::InitialDp {
        call,
        calling,
        called,
    };
    of_call(call, msg)
}

fn report(call: u64, active: bool, t: u32) -> Body {
    let info = TimeInfo::NoSwitch { t };
    of_call(call, SsfMsg::ChargingReport { active, info })
}

pub(crate) fn recharge(account: u32, amount: u64) -> Body {
    Body::Recharge {
        account,
        amount,
        until: None,
    }
}

/// The body of the post that says it.
fn body_of(rt: &impl Abort, say: Say) -> Body {
    match say {
        Say::Begins(call, calling) => begun(call, number(rt, calling), number(rt, "4930")),
        Say::Reports(call, active, t) => report(call, active, t),
        Say::Ends(call) => of_call(call, SsfMsg::Ended),
        Say::Recharges(account, amount) => recharge(account, amount),
    }
}

/// The bodies of the posts of a round.
fn bodies_of_round(rt: &impl Abort, round: Round) -> (Body, Option<Body>) {
    let (first, second) = round;
    let first = body_of(rt, first);
    match second {
        Some(say) => (first, Some(body_of(rt, say))),
        None => (first, None),
    }
}

/// The bodies of the posts of rounds.
pub(crate) fn bodies_of(
    rt: &impl Abort,
    alloc: Global,
    rounds: &[Round],
) -> Vec<(Body, Option<Body>)> {
    let mut bodies = Vec::new(alloc);
    for round in rounds {
        bodies.push(bodies_of_round(rt, *round)).expect(rt, "room");
    }
    bodies
}
