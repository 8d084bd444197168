//! When the gsmSSF is given its next input.

ghost use Rattle.std.specs.Prelude.{◌≡◌, ◌≤◌, ℕ, List, Option, drop};
ghost use Rattle.std.specs.Option.{ForSome};
ghost use Rattle.ssf_core.specs.Calls.{IsNextDue, Stands};
ghost use Rattle.ssf_core.specs.Deliveries.{next_delivery};
ghost use Rattle.ssf_core.specs.Happenings.{Happening};
ghost use Rattle.ssf_core.specs.Moments.{in_reach, sooner};
ghost use Rattle.one_call.specs.Scripts.{next_event};

use crate::script::next_event;
use price_core::HORIZON;
use ssf_core::{BcsmEvent, Delivery, Moment, Ssf, next_delivery, next_moment};
use std::collections::VecDeque;

/// The moment of the next input: the least of the next event's, the next delivery's and that at
/// which a timer is due. None where there is none of them.
pub(crate) fn next_input(
    ssf: &Ssf,
    deliveries: &VecDeque<Delivery>,
    script: &[(Moment, BcsmEvent)],
    played: usize,
) -> Option<Moment>
    ensures in_range { ForSome result (λ moment. moment ≤ HORIZON) }
    ensures least { (t : List Happening) → Stands ssf.now t → (due : Option ℕ)
        × (IsNextDue ssf.now.config t due
        × (result ≡ in_reach (sooner
        (sooner (next_event (drop played script.now)) (next_delivery deliveries.now.items))
        due))) }
{
    let event = next_event(script, played);
    next_moment(event, next_delivery(deliveries), ssf.next_due())
}
