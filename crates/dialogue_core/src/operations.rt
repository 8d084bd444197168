//! The turns that grant time.

ghost use Rattle.std.specs.Prelude.{◌≡◌, ◌≤◌, None, [], ◌∷◌};
ghost use Rattle.std.specs.Option.{ForSome};
ghost use Rattle.cap_values.specs.Orders.{GoOn, Pay, Watch};
ghost use Rattle.dialogue_core.specs.Phases.{Sends};
ghost use Rattle.dialogue_core.specs.ServiceArms.{service_arms};
ghost use Rattle.dialogue_core.specs.Views.{says_of};

use crate::Turn;
use cap_values::{Arming, Arms, Charge, Event, Instructions, Leg, MAX_SWITCH, Mode};
use price_core::DAY;

/// The first period of a call: its points are watched, it is charged, and it goes on.
pub(crate) fn first_period(units: u32, switch: Option<u32>, release: bool) -> Turn
    requires positive { 1 ≤ units }
    requires within_day { units ≤ DAY }
    requires switch { ForSome switch (λ seconds. (1 ≤ seconds) × (seconds ≤ MAX_SWITCH)) }
    ensures { says_of result ≡ Sends (Watch service_arms ∷ Pay units switch release ∷ GoOn ∷ []) }
{
    let charge = Charge {
        period: units,
        switch,
        release,
    };
    Turn::Send(Instructions::FirstPeriod(service_arms(), charge))
}

/// A further period of a call.
pub(crate) fn further_period(units: u32, release: bool) -> Turn
    requires positive { 1 ≤ units }
    requires within_day { units ≤ DAY }
    ensures { says_of result ≡ Sends (Pay units None release ∷ []) }
{
    let charge = Charge {
        period: units,
        switch: None,
        release,
    };
    Turn::Send(Instructions::FurtherPeriod(charge))
}

/// The points that the service watches: all events before the call is over are reported, and the
/// call waits where a party of it hangs up.
#[tactic(auto, unfolding(crate::specs::ServiceArms::service_arms))]
fn service_arms() -> Arms
    ensures { result ≡ service_arms }
{
    let notified = |event| Arming {
        event,
        leg: None,
        mode: Mode::NotifyAndContinue,
    };
    let interrupted = |leg| Arming {
        event: Event::Disconnect,
        leg: Some(leg),
        mode: Mode::Interrupted,
    };
    Arms::new(&[
        notified(Event::RouteSelectFailure),
        notified(Event::CalledPartyBusy),
        notified(Event::NoAnswer),
        notified(Event::Answer),
        notified(Event::Abandon),
        interrupted(Leg::One),
        interrupted(Leg::Two),
    ])
    .unwrap()
}
