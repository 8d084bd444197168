//! How the points of a call are to be watched.

ghost use Rattle.std.specs.Prelude.{◌≡◌, IfOk};
ghost use Rattle.std.specs.Option.{option_or};
ghost use Rattle.std.specs.Result.{result_err};
ghost use Rattle.cap_values.specs.Armings.{mode_asked_at, arming_fault, point_of, uninterrupted};
ghost use Rattle.cap_values.specs.Arms.{arm_at, arms_of};
ghost use Rattle.cap_values.specs.declared.arming.Point.{Point as APoint};

use crate::{Arming, Event, Leg, Mode, Point, ValueFault};

/// For each of the seven points a mode, or none where the point keeps the mode that it has
/// (GSM 09.78, RequestReportBCSMEvent).
#[derive(Clone, Copy, Debug, PartialEq, Eq)]
pub struct Arms {
    route_select_failure: Option<Mode>,
    called_party_busy: Option<Mode>,
    no_answer: Option<Mode>,
    answer: Option<Mode>,
    disconnect_one: Option<Mode>,
    disconnect_two: Option<Mode>,
    abandon: Option<Mode>,
}

impl Arms {
    /// Every point keeps its mode.
    const KEEPING: Arms = Arms {
        route_select_failure: None,
        called_party_busy: None,
        no_answer: None,
        answer: None,
        disconnect_one: None,
        disconnect_two: None,
        abandon: None,
    };

    /// The arms of a list of armings: points not named are kept, and a point named twice takes the
    /// last mode. An empty list is `MissingParameter`; else the first arming with a fault counts,
    /// and of it event, leg and mode in this order.
    pub fn new(armings: &[Arming]) -> Result<Arms, ValueFault>
        ensures fault { result_err result ≡ arming_fault armings.now }
        ensures value { IfOk result (λ arms. arms ≡ arms_of armings.now) }
    {
        if armings.is_empty() {
            return Err(ValueFault::MissingParameter);
        }
        let mut arms = Arms::KEEPING;
        for arming in armings {
            let point = point_of(arming)?;
            arms.arm(point, arming.mode);
        }
        Ok(arms)
    }

    /// The mode for a point, or none where the point keeps the one that it has.
    pub fn mode_at(&self, point: Point) -> Option<Mode>
        ensures { result ≡ arm_at self.now point }
    {
        match point {
            Point::RouteSelectFailure => self.route_select_failure,
            Point::CalledPartyBusy => self.called_party_busy,
            Point::NoAnswer => self.no_answer,
            Point::Answer => self.answer,
            Point::Disconnect(Leg::One) => self.disconnect_one,
            Point::Disconnect(Leg::Two) => self.disconnect_two,
            Point::Abandon => self.abandon,
        }
    }

    /// Watches a point in a mode.
    fn arm(&mut self, point: Point, mode: Mode)
        ensures { (p : APoint) → arm_at self.new p
            ≡ option_or (mode_asked_at p (Ok point) mode) (arm_at self.old p) }
    {
        match point {
            Point::RouteSelectFailure => self.route_select_failure = Some(mode),
            Point::CalledPartyBusy => self.called_party_busy = Some(mode),
            Point::NoAnswer => self.no_answer = Some(mode),
            Point::Answer => self.answer = Some(mode),
            Point::Disconnect(Leg::One) => self.disconnect_one = Some(mode),
            Point::Disconnect(Leg::Two) => self.disconnect_two = Some(mode),
            Point::Abandon => self.abandon = Some(mode),
        }
    }
}

/// The point that an arming names, or what is wrong with it.
fn point_of(arming: &Arming) -> Result<Point, ValueFault>
    ensures { result ≡ point_of arming.now }
{
    match arming.event {
        Event::CollectedInfo => Err(ValueFault::ParameterOutOfRange),
        Event::RouteSelectFailure => Ok(Point::RouteSelectFailure),
        Event::CalledPartyBusy => Ok(Point::CalledPartyBusy),
        Event::NoAnswer => Ok(Point::NoAnswer),
        Event::Answer => uninterrupted(Point::Answer, arming.mode),
        Event::Disconnect => {
            let leg = arming.leg.ok_or(ValueFault::MissingParameter)?;
            Ok(Point::Disconnect(leg))
        }
        Event::Abandon => uninterrupted(Point::Abandon, arming.mode),
    }
}

/// A point at which the call isn't interrupted.
fn uninterrupted(point: Point, mode: Mode) -> Result<Point, ValueFault>
    ensures { result ≡ uninterrupted point mode }
{
    match mode {
        Mode::Interrupted => Err(ValueFault::ParameterOutOfRange),
        Mode::NotifyAndContinue | Mode::Transparent => Ok(point),
    }
}
