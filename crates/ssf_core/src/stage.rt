//! Where a call is: each state with the data that it needs, and no other.

ghost use Rattle.std.specs.Prelude.{◌≡◌, ◌≤◌};
ghost use Rattle.ssf_core.specs.Phases.{state_of_phase};
ghost use Rattle.ssf_core.specs.Stages.{started};
ghost use Rattle.ssf_core.specs.Stands.{ssf_phase_of};
ghost use Rattle.ssf_core.specs.Modes.{armed_modes, modes_at};
ghost use Rattle.ssf_core.specs.Rules.{any_watched, is_watched};

use crate::Moment;
use cap_values::{Arms, Charge, Leg, Mode, Point};
use price_core::HORIZON;

/// A state of the call, with its phase.
#[derive(Clone, Copy)]
pub(crate) enum Stage {
    /// Idle, never invoked.
    Unused,
    /// WaitForRequest.
    Requested,
    /// WaitingForInstructions before the call goes on; Tssf is due at `due`.
    Initial { early: Early, due: Moment },
    /// Monitoring before the answer.
    Early(Early),
    /// Monitoring after the answer.
    Active(Active),
    /// WaitingForInstructions after the call was interrupted; Tssf is due at `due`.
    Down { due: Moment },
    /// Idle for good.
    Ended,
}

/// A call before its answer.
#[derive(Clone, Copy)]
pub(crate) struct Early {
    pub modes: Modes,
    /// The pending period.
    pub charge: Option<Charge>,
    pub switch: Switch,
}

/// A call after its answer.
#[derive(Clone, Copy)]
pub(crate) struct Active {
    pub modes: Modes,
    pub answered: Moment,
    /// The sum of the accepted periods.
    pub granted: u32,
    pub charging: Charging,
    pub switch: Switch,
}

/// Whether a period runs.
#[derive(Clone, Copy)]
pub(crate) enum Charging {
    /// No period was ever accepted.
    Off,
    /// A period runs; Tcp is due at its end, and then the call is released or not.
    Running { release: bool },
    /// The last period is over; Tccd is due at `due`.
    Over { due: Moment },
}

/// The tariff switch.
#[derive(Clone, Copy)]
pub(crate) enum Switch {
    /// No interval was given.
    Unset,
    /// Tsw is due.
    Due(Moment),
    /// Tsw has expired.
    Passed(Moment),
}

/// The Tsw rule: an interval, in seconds, starts Tsw anew unless it has expired; without one Tsw is
/// left as it is.
pub(crate) fn started(switch: Switch, now: Moment, seconds: Option<u32>) -> Switch
    requires { now ≤ HORIZON }
    ensures { result ≡ started switch now seconds }
{
    match (switch, seconds) {
        (Switch::Unset | Switch::Due(_), Some(seconds)) => {
            Switch::Due(now + 10 * u64::from(seconds))
        }
        _ => switch,
    }
}

/// The state that a caller sees.
pub(crate) fn state_of(stage: &Stage) -> State
    ensures { result ≡ state_of_phase (ssf_phase_of stage.now) }
{
    match stage {
        Stage::Unused | Stage::Ended => State::Idle,
        Stage::Requested => State::WaitForRequest,
        Stage::Initial { .. } | Stage::Down { .. } => State::WaitingForInstructions,
        Stage::Early(_) | Stage::Active(_) => State::Monitoring,
    }
}

/// A state of the gsmSSF (GSM 03.78).
#[derive(Clone, Copy, Debug, PartialEq, Eq)]
pub enum State {
    /// It wasn't invoked yet, or its dialogue has ended.
    Idle,
    /// Invoked, and not triggered yet.
    WaitForRequest,
    /// The call waits for the service.
    WaitingForInstructions,
    /// The call goes on, and its events are watched.
    Monitoring,
}

/// The mode of each of the seven points.
#[derive(Clone, Copy)]
pub(crate) struct Modes {
    pub route_select_failure: Mode,
    pub called_party_busy: Mode,
    pub no_answer: Mode,
    pub answer: Mode,
    pub disconnect_one: Mode,
    pub disconnect_two: Mode,
    pub abandon: Mode,
}

/// All points are Transparent.
pub(crate) const UNARMED: Modes = Modes {
    route_select_failure: Mode::Transparent,
    called_party_busy: Mode::Transparent,
    no_answer: Mode::Transparent,
    answer: Mode::Transparent,
    disconnect_one: Mode::Transparent,
    disconnect_two: Mode::Transparent,
    abandon: Mode::Transparent,
};

/// The modes after a report request: they are set where they aren't kept.
pub(crate) fn armed(modes: &Modes, arms: &Arms) -> Modes
    ensures { result ≡ armed_modes modes.now arms.now }
{
    Modes {
        route_select_failure: arms
            .mode_at(Point::RouteSelectFailure)
            .unwrap_or(modes.route_select_failure),
        called_party_busy: arms
            .mode_at(Point::CalledPartyBusy)
            .unwrap_or(modes.called_party_busy),
        no_answer: arms.mode_at(Point::NoAnswer).unwrap_or(modes.no_answer),
        answer: arms.mode_at(Point::Answer).unwrap_or(modes.answer),
        disconnect_one: arms
            .mode_at(Point::Disconnect(Leg::One))
            .unwrap_or(modes.disconnect_one),
        disconnect_two: arms
            .mode_at(Point::Disconnect(Leg::Two))
            .unwrap_or(modes.disconnect_two),
        abandon: arms.mode_at(Point::Abandon).unwrap_or(modes.abandon),
    }
}

/// The mode of a point.
pub(crate) fn mode_of(modes: &Modes, point: Point) -> Mode
    ensures { result ≡ modes_at modes.now point }
{
    match point {
        Point::RouteSelectFailure => modes.route_select_failure,
        Point::CalledPartyBusy => modes.called_party_busy,
        Point::NoAnswer => modes.no_answer,
        Point::Answer => modes.answer,
        Point::Disconnect(Leg::One) => modes.disconnect_one,
        Point::Disconnect(Leg::Two) => modes.disconnect_two,
        Point::Abandon => modes.abandon,
    }
}

/// Whether any point is not Transparent.
pub(crate) fn any_watched(modes: &Modes) -> bool
    ensures { result ≡ any_watched (modes_at modes.now) }
{
    watches(modes.route_select_failure)
        || watches(modes.called_party_busy)
        || watches(modes.no_answer)
        || watches(modes.answer)
        || watches(modes.disconnect_one)
        || watches(modes.disconnect_two)
        || watches(modes.abandon)
}

/// Whether a mode has the event reported.
fn watches(mode: Mode) -> bool
    ensures { result ≡ is_watched mode }
{
    match mode {
        Mode::Interrupted | Mode::NotifyAndContinue => true,
        Mode::Transparent => false,
    }
}
