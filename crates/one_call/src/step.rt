//! One input of the gsmSSF.

ghost use Rattle.std.specs.Prelude.{◌≡◌, ◌≤◌, ◌++◌, List, drop};
ghost use Rattle.cap_values.specs.Orders.{Period};
ghost use Rattle.ssf_core.specs.Meters.{Metered};
ghost use Rattle.one_call.specs.Deliveries.{queued_in};
ghost use Rattle.one_call.specs.Steps.{Given, IsNextGiven};

use crate::script::take_event;
use price_core::HORIZON;
use ssf_core::{BcsmEvent, Delivery, Moment, Ssf, Step, take_due};
use std::collections::VecDeque;

/// Gives the gsmSSF its next input at a moment: a delivery that is due, else an event that is, else
/// the time alone.
pub(crate) fn step(
    ssf: &mut Ssf,
    deliveries: &mut VecDeque<Delivery>,
    script: &[(Moment, BcsmEvent)],
    played: &mut usize,
    now: Moment,
) -> Step
    requires { now ≤ HORIZON }
    ensures next { (given : Given)
        × IsNextGiven now deliveries.old.items (drop played.old script.now)
        given deliveries.new.items (drop played.new script.now) }
    ensures metered { (handed : List Period)
        × ((queued_in deliveries.old.items ≡ handed ++ queued_in deliveries.new.items)
        × Metered handed ssf.old result.sent.items ssf.new) }
{
    if let Some(delivery) = take_due(deliveries, now) {
        return ssf.operation(now, delivery.op);
    }
    if let Some(event) = take_event(script, played, now) {
        return ssf.event(now, event);
    }
    ssf.advance(now)
}
