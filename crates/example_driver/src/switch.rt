//! A switch with one call, which talks for as long as the service lets it.

ghost use Rattle.std.specs.Prelude.{◌≡◌, ◌≤◌, ◌++◌, ◌∷◌, [], false, All, OnOk};
ghost use Rattle.price_core.specs.declared.times.TheConstants.{HORIZON};
ghost use Rattle.run_values.specs.declared.post.Body.TheVariants as body;

use cap_values::{Charge, Event, Leg, Mode, Number, ScfOp, SsfMsg};
use price_core::{DAY, HORIZON, TimeInfo};
use run_values::{Answer, Body, Driver};
use ssf_core::operations_of;
use std::alloc::{AllocError, Global};

/// What comes next of the call.
#[derive(Clone, Copy)]
enum Next {
    Start,
    Answer,
    Report,
    HangUp,
    End,
    Nothing,
}

/// What the service orders of the call.
#[derive(Clone, Copy)]
enum Order {
    /// It may talk for a period.
    Talk(Charge),
    /// It is cleared.
    Clear,
}

/// A switch with one call.
#[derive(Drop)]
pub(crate) struct Switch {
    call: u64,
    calling: Number,
    called: Number,
    next: Next,
    /// The period that the service granted last, until it is talked.
    granted: Option<Charge>,
    /// How long was talked.
    talked: u32,
    now: u64,
    given: Vec<(u64, Body)>,
    ended: bool,
    /// What the service has ordered.
    log: String,
    ghost moments: { All (λ item. item.0 ≤ HORIZON) given.items },
}

impl Switch {
    /// A switch whose call starts at the moment 0.
    pub(crate) fn new(alloc: Global, call: u64, calling: Number, called: Number) -> Switch
        ensures given { result.given.items ≡ [] }
        ensures goes_on { result.ended ≡ false }
    {
        Switch {
            call,
            calling,
            called,
            next: Next::Start,
            granted: None,
            talked: 0,
            now: 0,
            given: Vec::new(alloc),
            ended: false,
            log: String::new(alloc),
        }
    }

    /// What the service has ordered: a line for each message.
    pub(crate) fn log(&self) -> &str {
        self.log.as_str()
    }

    /// The message that comes next, if there is one.
    fn next_message(&mut self) -> Option<SsfMsg>
        ensures { self.new.given ≡ self.old.given }
    {
        match self.next {
            Next::Start => {
                self.next = Next::Answer;
                Some(SsfMsg::InitialDp {
                    call: self.call,
                    calling: self.calling,
                    called: self.called,
                })
            }
            Next::Answer => {
                self.next = Next::Report;
                Some(event(Event::Answer, None, Mode::NotifyAndContinue))
            }
            Next::Report => Some(self.report()),
            Next::HangUp => {
                self.next = Next::End;
                Some(event(Event::Disconnect, Some(Leg::One), Mode::Interrupted))
            }
            Next::End => {
                self.next = Next::Nothing;
                Some(SsfMsg::Ended)
            }
            Next::Nothing => None,
        }
    }

    /// Does what the service orders of the call.
    fn obey(&mut self, order: Option<Order>)
        ensures { self.new.given ≡ self.old.given }
    {
        match order {
            Some(Order::Talk(charge)) => self.granted = Some(charge),
            Some(Order::Clear) => self.next = Next::End,
            None => {}
        }
    }

    /// Gives a message at a moment.
    fn give(&mut self, at: u64, msg: SsfMsg) -> Result<(), AllocError>
        requires { at ≤ HORIZON }
        ensures given { OnOk result (self.new.given.items
            ≡ self.old.given.items ++ (at, body.Ssf self.old.call msg) ∷ []) }
        ensures ended { self.new.ended ≡ self.old.ended }
    {
        let call = self.call;
        self.given.push((at, Body::Ssf { call, msg }))?;
        Ok(())
    }

    /// The report of the period that was granted, which is talked to its end. After the last one
    /// the calling party hangs up.
    fn report(&mut self) -> SsfMsg
        ensures { self.new.given ≡ self.old.given }
    {
        let (period, last) = match self.granted {
            Some(charge) => (charge.period, charge.release),
            None => (0, true),
        };
        self.granted = None;
        self.talked = self.talked.saturating_add(period).min(DAY);
        self.now = self.now.saturating_add(u64::from(period)).min(HORIZON);
        if last {
            self.next = Next::HangUp;
        }
        SsfMsg::ChargingReport {
            active: !last,
            info: TimeInfo::NoSwitch { t: self.talked },
        }
    }
}

/// Puts down what answers say, and gives the last thing that they order of the call.
fn hear(log: &mut String, answers: &[Answer]) -> Result<Option<Order>, AllocError> {
    let mut order = None;
    for answer in answers {
        write!(log, "message {}:", answer.number)?;
        let operations = operations_of(answer.instructions);
        for op in operations.as_slice() {
            order = order_of(op).or(order);
            put_down(log, op)?;
        }
        if answer.stray {
            log.push_str(" stray")?;
        }
        if let Some(why) = answer.refused {
            write!(log, " refused {why}")?;
        }
        writeln!(log)?;
    }
    Ok(order)
}

/// What an operation orders of the call, if it does.
fn order_of(op: &ScfOp) -> Option<Order> {
    match op {
        ScfOp::ApplyCharging(charge) => Some(Order::Talk(*charge)),
        ScfOp::ReleaseCall(_) => Some(Order::Clear),
        ScfOp::RequestReport(_) | ScfOp::Continue => None,
    }
}

/// Puts down an operation.
fn put_down(log: &mut String, op: &ScfOp) -> Result<(), AllocError> {
    match op {
        ScfOp::RequestReport(_) => write!(log, " RequestReportBCSMEvent"),
        ScfOp::ApplyCharging(charge) => {
            let end = if charge.release { ", release" } else { "" };
            write!(log, " ApplyCharging({}{end})", charge.period)
        }
        ScfOp::Continue => write!(log, " Continue"),
        ScfOp::ReleaseCall(cause) => write!(log, " ReleaseCall({})", cause.value),
    }
}

/// An event of the call.
fn event(event: Event, leg: Option<Leg>, mode: Mode) -> SsfMsg {
    SsfMsg::EventReport { event, leg, mode }
}

impl Driver for Switch {
    ghost given = { λ switch. switch.given.items };

    ghost ended = { λ switch. switch.ended };

    ghost Agenda = { Unit {0} };

    ghost agenda = { λ _. tt };

    fn given(&self) -> &[(u64, Body)] {
        self.given.as_slice()
    }

    fn ended(&self) -> bool {
        self.ended
    }

    fn round(&mut self, answers: &[Answer]) -> Result<bool, AllocError> {
        let order = hear(&mut self.log, answers)?;
        self.obey(order);
        let Some(msg) = self.next_message() else {
            self.ended = true;
            return Ok(false);
        };
        self.ended = false;
        self.give(self.now.min(HORIZON), msg)?;
        Ok(true)
    }
}
