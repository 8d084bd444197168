//! The codes and the ranges of GSM 09.78.

use crate::looking::gives;
use cap_values::{Arming, Arms, Charge, Event, Leg, Mode, Point, ScfOp, ValueFault};

/// What a code stands for.
type Coded = (Option<Event>, Option<Mode>, Option<Leg>);

/// The period, the switch and the release of a charge.
type Fields = (Option<u32>, Option<u32>, bool);

const CODES: [(u8, Coded); 13] = [
    (0, (None, Some(Mode::Interrupted), None)),
    (1, (None, Some(Mode::NotifyAndContinue), Some(Leg::One))),
    (
        2,
        (
            Some(Event::CollectedInfo),
            Some(Mode::Transparent),
            Some(Leg::Two),
        ),
    ),
    (3, (None, None, None)),
    (4, (Some(Event::RouteSelectFailure), None, None)),
    (5, (Some(Event::CalledPartyBusy), None, None)),
    (6, (Some(Event::NoAnswer), None, None)),
    (7, (Some(Event::Answer), None, None)),
    (8, (None, None, None)),
    (9, (Some(Event::Disconnect), None, None)),
    (10, (Some(Event::Abandon), None, None)),
    (11, (None, None, None)),
    (255, (None, None, None)),
];

const OUT_OF_RANGE: Option<ValueFault> = Some(ValueFault::ParameterOutOfRange);

const MISSING: Option<ValueFault> = Some(ValueFault::MissingParameter);

/// Charges, and why each is none.
const CHARGES: [(Fields, Option<ValueFault>); 12] = [
    ((Some(1), None, true), None),
    ((Some(1), Some(1), true), None),
    ((Some(1), Some(86_400), true), None),
    ((Some(864_000), None, true), None),
    ((Some(864_000), Some(1), true), None),
    ((Some(864_000), Some(86_400), true), None),
    ((Some(0), None, false), OUT_OF_RANGE),
    ((Some(864_001), None, false), OUT_OF_RANGE),
    ((Some(1), Some(0), false), OUT_OF_RANGE),
    ((Some(1), Some(86_401), false), OUT_OF_RANGE),
    ((None, None, false), MISSING),
    ((None, Some(0), false), MISSING),
];

const BUSY: Arming = Arming {
    event: Event::CalledPartyBusy,
    leg: Some(Leg::One),
    mode: Mode::Interrupted,
};

const QUIET: Arming = Arming {
    event: Event::CalledPartyBusy,
    leg: None,
    mode: Mode::Transparent,
};

const HANG_UP: Arming = Arming {
    event: Event::Disconnect,
    leg: Some(Leg::Two),
    mode: Mode::Interrupted,
};

const ANSWER: Arming = Arming {
    event: Event::Answer,
    leg: None,
    mode: Mode::NotifyAndContinue,
};

const NO_LEG: Arming = Arming {
    event: Event::Disconnect,
    leg: None,
    mode: Mode::Interrupted,
};

const FIRST: Arming = Arming {
    event: Event::CollectedInfo,
    leg: None,
    mode: Mode::NotifyAndContinue,
};

const HELD: Arming = Arming {
    event: Event::Answer,
    leg: None,
    mode: Mode::Interrupted,
};

const GONE: Arming = Arming {
    event: Event::Abandon,
    leg: None,
    mode: Mode::Interrupted,
};

static ARMED: [Arming; 4] = [BUSY, HANG_UP, QUIET, ANSWER];

/// The points of a call, and the modes that these armings together give them.
const MODES: [(Point, Option<Mode>); 7] = [
    (Point::RouteSelectFailure, None),
    (Point::CalledPartyBusy, Some(Mode::Transparent)),
    (Point::NoAnswer, None),
    (Point::Answer, Some(Mode::NotifyAndContinue)),
    (Point::Disconnect(Leg::One), None),
    (Point::Disconnect(Leg::Two), Some(Mode::Interrupted)),
    (Point::Abandon, None),
];

/// Armings that make no arms, and why.
static NO_ARMS: [(&[Arming], ValueFault); 7] = [
    (&[BUSY, NO_LEG], ValueFault::MissingParameter),
    (&[BUSY, FIRST], ValueFault::ParameterOutOfRange),
    (&[BUSY, HELD], ValueFault::ParameterOutOfRange),
    (&[BUSY, GONE], ValueFault::ParameterOutOfRange),
    (&[], ValueFault::MissingParameter),
    (&[HELD, NO_LEG], ValueFault::ParameterOutOfRange),
    (&[NO_LEG, HELD], ValueFault::MissingParameter),
];

#[test]
fn codes_stand_for_values(rt: HostRuntime) {
    for &(code, want) in &CODES {
        let decoded = (
            Event::from_code(code),
            Mode::from_code(code),
            Leg::from_code(code),
        );
        gives(&rt, &code, &decoded, &want);
    }
    assert!(rt; ScfOp::default() == ScfOp::Continue);
}

#[test]
fn charges_keep_their_ranges(rt: HostRuntime) {
    for &(fields, fault) in &CHARGES {
        let (period, switch, release) = fields;
        let made = Charge::new(period, switch, release);
        gives(&rt, &fields, &made.err(), &fault);
    }
}

#[test]
fn armings_make_arms(rt: HostRuntime) {
    let arms = Arms::new(&ARMED).expect(&rt, "arms");
    for &(point, mode) in &MODES {
        gives(&rt, &point, &arms.mode_at(point), &mode);
    }
    for &(armings, fault) in &NO_ARMS {
        gives(&rt, &armings, &Arms::new(armings).err(), &Some(fault));
    }
}
