//! Calls as the switch runs them.

ghost use Rattle.std.specs.Prelude.{◌≤◌};

use super::ssf_rows::{CALLS, Input, Row, Sent, Start};
use crate::looking::gives;
use crate::making::{arms, charge, number};
use cap_values::{Cause, Event, Mode, ScfOp, SsfMsg};
use price_core::HORIZON;
use ssf_core::{
    BcsmEvent, DefaultHandling, Item, Moment, Out, Ssf, SsfConfig, SsfFault, State, Step,
};
use std::process::Abort;

/// `tssf` and `tccd` of a gsmSSF that don't fit.
const NO_TIMERS: [(u32, u32); 4] = [(0, 50), (100, 0), (864_001, 50), (100, 864_001)];

/// The last moment that a gsmSSF takes.
const LATEST: Moment = 2_000_000_000_000;

fn item_of(sent: &Sent) -> Item {
    match *sent {
        Sent::Proceed => Item::Proceed,
        Sent::Fail => Item::Clear(Cause::temporary_failure()),
        Sent::Reject => Item::Clear(Cause::call_rejected()),
        Sent::Report(active, info) => Item::Msg(SsfMsg::ChargingReport { active, info }),
        Sent::Event(event, leg, mode) => Item::Msg(SsfMsg::EventReport { event, leg, mode }),
        Sent::Ended => Item::Msg(SsfMsg::Ended),
    }
}

/// Invoked and triggered at 0.
fn triggered(rt: &impl Abort, default_handling: DefaultHandling) -> Ssf {
    let config = SsfConfig::new(100, 50, default_handling).expect(rt, "a configuration");
    let mut ssf = Ssf::new(config);
    let idle = ssf.state();
    let invoked = (ssf.invoke(0).fault, ssf.state());
    let (calling, called) = (number(rt, "491700001"), number(rt, "4930123456"));
    let step = ssf.trigger(0, 1, calling, called);
    let asked = Out {
        at: 0,
        item: Item::Msg(SsfMsg::InitialDp {
            call: 1,
            calling,
            called,
        }),
    };
    gives(rt, &0, &step.sent.as_slice(), &[asked].as_slice());
    let found = (idle, invoked, ssf.state(), ssf.next_due());
    let waits = (None, State::WaitForRequest);
    let want = (State::Idle, waits, State::WaitingForInstructions, Some(100));
    gives(rt, &0, &found, &want);
    ssf
}

/// Armed, charged for 600 and continued at a moment.
fn monitored(rt: &impl Abort, at: Moment, switch: Option<u32>, busy: Mode) -> Ssf
    requires { at ≤ HORIZON }
{
    let mut ssf = triggered(rt, DefaultHandling::Release);
    let watched = ssf.operation(at, ScfOp::RequestReport(arms(rt, busy)));
    let charged = ssf.operation(at, ScfOp::ApplyCharging(charge(rt, 600, switch, false)));
    let step = ssf.operation(at, ScfOp::Continue);
    let proceed = Out {
        at,
        item: Item::Proceed,
    };
    gives(rt, &at, &step.sent.as_slice(), &[proceed].as_slice());
    let found = (watched.fault, charged.fault, ssf.state());
    gives(rt, &at, &found, &(None, None, State::Monitoring));
    ssf
}

/// Answered at 100.
fn answered(rt: &impl Abort, at: Moment, switch: Option<u32>) -> Ssf
    requires { at ≤ HORIZON }
{
    let mut ssf = monitored(rt, at, switch, Mode::NotifyAndContinue);
    let step = ssf.event(100, BcsmEvent::Answer);
    let answer = Out {
        at: 100,
        item: Item::Msg(SsfMsg::EventReport {
            event: Event::Answer,
            leg: None,
            mode: Mode::NotifyAndContinue,
        }),
    };
    gives(rt, &at, &step.sent.last().copied(), &Some(answer));
    ssf
}

fn started(rt: &impl Abort, start: &Start) -> Ssf {
    match *start {
        Start::Triggered(default_handling) => triggered(rt, default_handling),
        Start::Monitored(busy) => monitored(rt, 2, None, busy),
        Start::Answered(at, switch) => {
            assert!(rt; at <= LATEST);
            answered(rt, at, switch)
        }
    }
}

/// Hands a gsmSSF an input at a moment.
fn handed(rt: &impl Abort, ssf: &mut Ssf, now: Moment, input: &Input) -> Step
    requires { now ≤ HORIZON }
{
    match *input {
        Input::Charge(period) => {
            let charge = charge(rt, period, None, false);
            ssf.operation(now, ScfOp::ApplyCharging(charge))
        }
        Input::Continue => ssf.operation(now, ScfOp::Continue),
        Input::Reject => ssf.operation(now, ScfOp::ReleaseCall(Cause::call_rejected())),
        Input::Event(event) => ssf.event(now, event),
        Input::Advance => ssf.advance(now),
    }
}

/// Looks at what was sent, in order, each item with its moment.
fn sends(rt: &impl Abort, place: &(&str, Moment), sent: &[Out], want: &[(Moment, Sent)]) {
    for (out, (at, sent)) in sent.iter().zip(want) {
        gives(rt, place, &(out.at, out.item), &(*at, item_of(sent)));
    }
}

/// Hands a gsmSSF one input after the other, and looks at each step.
fn runs(rt: &impl Abort, name: &str, ssf: &mut Ssf, rows: &[Row]) {
    for (now, input, fault, sent, state, due) in rows {
        let now = *now;
        assert!(rt; now <= LATEST);
        let step = handed(rt, ssf, now, input);
        let found = (step.fault, step.sent.len(), ssf.state(), ssf.next_due());
        gives(
            rt,
            &(name, now),
            &found,
            &(*fault, sent.len(), *state, *due),
        );
        sends(rt, &(name, now), step.sent.as_slice(), sent);
    }
}

#[test]
fn calls_run(rt: HostRuntime) {
    for &(tssf, tccd) in &NO_TIMERS {
        let made = SsfConfig::new(tssf, tccd, DefaultHandling::Release);
        let fault = Some(SsfFault::ParameterOutOfRange);
        gives(&rt, &(tssf, tccd), &made.err(), &fault);
    }
    for (name, start, rows) in &CALLS {
        let mut ssf = started(&rt, start);
        runs(&rt, name, &mut ssf, rows);
    }
}
