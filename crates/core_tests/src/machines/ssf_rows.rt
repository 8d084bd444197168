//! The rows of calls as the switch runs them: with `tssf` 100, `tccd` 50 and the default handling
//! Release where no other is named.

use cap_values::{Event, Leg, Mode};
use price_core::TimeInfo;
use ssf_core::{BcsmEvent, DefaultHandling, Moment, SsfFault, State};

/// What a gsmSSF is handed.
pub(crate) enum Input {
    /// A charge for a period of this length.
    Charge(u32),
    Continue,
    /// A release with the cause of a call that was rejected.
    Reject,
    Event(BcsmEvent),
    Advance,
}

/// What it sends.
pub(crate) enum Sent {
    Proceed,
    /// The call is cleared for a temporary failure.
    Fail,
    /// The call is cleared as rejected.
    Reject,
    /// The times of a report, and whether the call goes on.
    Report(bool, TimeInfo),
    Event(Event, Option<Leg>, Mode),
    Ended,
}

/// An input and its moment, why it is refused, what is sent, the state then, and when a timer is
/// due then.
pub(crate) type Row = (
    Moment,
    Input,
    Option<SsfFault>,
    &'static [(Moment, Sent)],
    State,
    Option<Moment>,
);

/// Where the rows of a call begin.
pub(crate) enum Start {
    /// Triggered at 0, with this default handling.
    Triggered(DefaultHandling),
    /// Armed with this mode for a busy party, charged for 600 and continued at 2.
    Monitored(Mode),
    /// So too at this moment, with this switch, and answered at 100.
    Answered(Moment, Option<u32>),
}

const UNEXPECTED: Option<SsfFault> = Some(SsfFault::UnexpectedComponentSequence);

const PERIOD_OVER: Sent = Sent::Report(true, TimeInfo::NoSwitch { t: 600 });

/// The tariff switched before the answer.
const SWITCHED_BEFORE: Sent = Sent::Report(
    true,
    TimeInfo::Switch {
        since: 600,
        interval: None,
    },
);

/// The tariff switched as the period ended.
const SWITCHED_AT_END: Sent = Sent::Report(
    true,
    TimeInfo::Switch {
        since: 0,
        interval: Some(600),
    },
);

const LAST_REPORT: Sent = Sent::Report(false, TimeInfo::NoSwitch { t: 300 });

const HUNG_UP: Sent = Sent::Event(Event::Disconnect, Some(Leg::One), Mode::Interrupted);

const BUSY: Sent = Sent::Event(Event::CalledPartyBusy, None, Mode::Interrupted);

const A_PERIOD_ENDS: [Row; 2] = [
    (100, Input::Advance, None, &[], State::Monitoring, Some(700)),
    (
        5000,
        Input::Advance,
        None,
        &[(700, PERIOD_OVER), (750, Sent::Fail), (750, Sent::Ended)],
        State::Idle,
        None,
    ),
];

const SWITCHES_BEFORE_ANSWER: [Row; 1] = [(
    700,
    Input::Advance,
    None,
    &[(700, SWITCHED_BEFORE)],
    State::Monitoring,
    Some(750),
)];

const SWITCHES_AT_THE_END: [Row; 1] = [(
    700,
    Input::Advance,
    None,
    &[(700, SWITCHED_AT_END)],
    State::Monitoring,
    Some(750),
)];

const A_PARTY_HANGS_UP: [Row; 2] = [
    (
        400,
        Input::Event(BcsmEvent::Disconnect(Leg::One)),
        None,
        &[(400, LAST_REPORT), (400, HUNG_UP)],
        State::WaitingForInstructions,
        Some(500),
    ),
    (
        402,
        Input::Continue,
        None,
        &[(402, Sent::Proceed), (402, Sent::Ended)],
        State::Idle,
        None,
    ),
];

const A_FURTHER_PERIOD: [Row; 4] = [
    (
        200,
        Input::Charge(600),
        UNEXPECTED,
        &[],
        State::Monitoring,
        Some(700),
    ),
    (
        700,
        Input::Advance,
        None,
        &[(700, PERIOD_OVER)],
        State::Monitoring,
        Some(750),
    ),
    (
        749,
        Input::Charge(49),
        Some(SsfFault::ParameterOutOfRange),
        &[],
        State::Monitoring,
        Some(750),
    ),
    (
        749,
        Input::Charge(50),
        None,
        &[],
        State::Monitoring,
        Some(750),
    ),
];

const A_LATE_PERIOD: [Row; 2] = [
    (
        700,
        Input::Advance,
        None,
        &[(700, PERIOD_OVER)],
        State::Monitoring,
        Some(750),
    ),
    (
        750,
        Input::Charge(600),
        UNEXPECTED,
        &[(750, Sent::Fail), (750, Sent::Ended)],
        State::Idle,
        None,
    ),
];

const AN_EARLY_PERIOD: [Row; 2] = [
    (
        3,
        Input::Charge(600),
        UNEXPECTED,
        &[],
        State::Monitoring,
        None,
    ),
    (
        1,
        Input::Advance,
        Some(SsfFault::TimeBackwards),
        &[],
        State::Monitoring,
        None,
    ),
];

const NOTHING_IS_HEARD: [Row; 4] = [
    (
        100,
        Input::Advance,
        None,
        &[(100, Sent::Proceed), (100, Sent::Ended)],
        State::Idle,
        None,
    ),
    (101, Input::Continue, UNEXPECTED, &[], State::Idle, None),
    (
        101,
        Input::Event(BcsmEvent::Answer),
        Some(SsfFault::NoSuchEvent),
        &[],
        State::Idle,
        None,
    ),
    (101, Input::Advance, None, &[], State::Idle, None),
];

const NOTHING_IS_HEARD_AND_CLEARED: [Row; 1] = [(
    100,
    Input::Advance,
    None,
    &[(100, Sent::Fail), (100, Sent::Ended)],
    State::Idle,
    None,
)];

const A_CALL_IS_INTERRUPTED: [Row; 2] = [
    (
        10,
        Input::Event(BcsmEvent::Busy),
        None,
        &[(10, BUSY)],
        State::WaitingForInstructions,
        Some(110),
    ),
    (
        11,
        Input::Reject,
        None,
        &[(11, Sent::Reject), (11, Sent::Ended)],
        State::Idle,
        None,
    ),
];

/// Calls: where each begins, and its rows.
pub(crate) static CALLS: [(&str, Start, &[Row]); 10] = [
    ("a period ends", Start::Answered(2, None), &A_PERIOD_ENDS),
    (
        "switches before answer",
        Start::Answered(2, Some(5)),
        &SWITCHES_BEFORE_ANSWER,
    ),
    (
        "switches at the end",
        Start::Answered(0, Some(70)),
        &SWITCHES_AT_THE_END,
    ),
    (
        "a party hangs up",
        Start::Answered(2, None),
        &A_PARTY_HANGS_UP,
    ),
    (
        "a further period",
        Start::Answered(2, None),
        &A_FURTHER_PERIOD,
    ),
    ("a late period", Start::Answered(2, None), &A_LATE_PERIOD),
    (
        "an early period",
        Start::Monitored(Mode::NotifyAndContinue),
        &AN_EARLY_PERIOD,
    ),
    (
        "nothing is heard",
        Start::Triggered(DefaultHandling::Proceed),
        &NOTHING_IS_HEARD,
    ),
    (
        "nothing is heard and cleared",
        Start::Triggered(DefaultHandling::Release),
        &NOTHING_IS_HEARD_AND_CLEARED,
    ),
    (
        "a call is interrupted",
        Start::Monitored(Mode::Interrupted),
        &A_CALL_IS_INTERRUPTED,
    ),
];
