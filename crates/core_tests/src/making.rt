//! Values that the tests need made, each in its range.

use cap_values::{Arming, Arms, Charge, Event, Leg, Mode, Number};
use std::process::Abort;

pub(crate) fn number(rt: &impl Abort, text: &str) -> Number {
    Number::new(text).expect(rt, "a number")
}

pub(crate) fn charge(rt: &impl Abort, period: u32, switch: Option<u32>, release: bool) -> Charge {
    Charge::new(Some(period), switch, release).expect(rt, "a charge")
}

const fn arming(event: Event, leg: Option<Leg>, mode: Mode) -> Arming {
    Arming { event, leg, mode }
}

/// The arms of the service, with a mode for CalledPartyBusy.
pub(crate) fn arms(rt: &impl Abort, busy: Mode) -> Arms {
    let reported = Mode::NotifyAndContinue;
    let armings = [
        arming(Event::RouteSelectFailure, None, reported),
        arming(Event::CalledPartyBusy, None, busy),
        arming(Event::NoAnswer, None, reported),
        arming(Event::Answer, None, reported),
        arming(Event::Abandon, None, reported),
        arming(Event::Disconnect, Some(Leg::One), Mode::Interrupted),
        arming(Event::Disconnect, Some(Leg::Two), Mode::Interrupted),
    ];
    Arms::new(&armings).expect(rt, "arms")
}
