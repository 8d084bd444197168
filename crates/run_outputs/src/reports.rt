//! What the switch reports of calls.

ghost use Rattle.std.specs.Prelude.{◌≡◌, ◌∷◌, ◌++◌, [], ℕ, List, Option, IfOk, OnOk};
ghost use Rattle.cap_values.specs.declared.leg.Leg.{Leg};
ghost use Rattle.cap_values.specs.declared.mode.Mode.{Mode};
ghost use Rattle.cap_values.specs.declared.message.SsfMsg.TheVariants as message;
ghost use Rattle.run_outputs.specs.Calls.{call_reports_of};
ghost use Rattle.run_outputs.specs.KeptRecords.{HaveReports, reports_in};
ghost use Rattle.run_values.specs.declared.post.Body.{Body};
ghost use Rattle.run_values.specs.declared.post.Body.TheVariants as body;

use account_core::RisingMap;
use cap_values::{Event, SsfMsg};
use run_values::Body;
use std::alloc::{AllocError, Global};

/// What was reported of a call. Moments are in units of 100 ms.
#[derive(Clone, Copy)]
pub(crate) struct CallReports {
    /// The moment of its answer.
    pub answer: Option<u64>,
    /// The moment at which its dialogue ended.
    pub end: Option<u64>,
    /// Whether the called party was busy.
    pub busy: bool,
    /// Whether the called party didn't answer in time.
    pub no_answer: bool,
    /// Whether no route was found.
    pub route_failed: bool,
    /// Whether the calling party hung up before the answer.
    pub abandoned: bool,
    /// Whether a party of the answered call hung up.
    pub disconnected: bool,
}

impl CallReports {
    /// Those of a call of which nothing was reported.
    pub const NONE: CallReports = CallReports {
        answer: None,
        end: None,
        busy: false,
        no_answer: false,
        route_failed: false,
        abandoned: false,
        disconnected: false,
    };

    /// The same after one message more of the call.
    fn after(self, at: u64, message: SsfMsg) -> CallReports
        ensures { (call : ℕ) (given : List (ℕ × Body)) → self ≡ call_reports_of call given
            → result ≡ call_reports_of call (given ++ (at, body.Ssf call message) ∷ []) }
    {
        match message {
            SsfMsg::EventReport { event, .. } => self.with_event(at, event),
            SsfMsg::Ended => CallReports {
                end: self.end.or(Some(at)),
                ..self
            },
            SsfMsg::InitialDp { .. } | SsfMsg::ChargingReport { .. } => self,
        }
    }

    /// The same after one event more.
    fn with_event(self, at: u64, event: Event) -> CallReports
        ensures { (call : ℕ) (given : List (ℕ × Body)) (leg : Option Leg) (mode : Mode)
            → self ≡ call_reports_of call given → result ≡ call_reports_of call
            (given ++ (at, body.Ssf call (message.EventReport event leg mode)) ∷ []) }
    {
        match event {
            Event::CollectedInfo => self,
            Event::RouteSelectFailure => CallReports {
                route_failed: true,
                ..self
            },
            Event::CalledPartyBusy => CallReports { busy: true, ..self },
            Event::NoAnswer => CallReports {
                no_answer: true,
                ..self
            },
            Event::Answer => CallReports {
                answer: self.answer.or(Some(at)),
                ..self
            },
            Event::Disconnect => CallReports {
                disconnected: true,
                ..self
            },
            Event::Abandon => CallReports {
                abandoned: true,
                ..self
            },
        }
    }
}

/// What was reported of each call of which anything was.
pub(crate) fn reports_in(
    alloc: Global,
    given: &[(u64, Body)],
) -> Result<RisingMap<CallReports>, AllocError>
    ensures { IfOk result (λ reports. HaveReports reports given.now) }
{
    let mut reports = RisingMap::new(alloc);
    for (at, body) in given {
        hear(&mut reports, *at, *body)?;
    }
    Ok(reports)
}

/// What was reported of a call.
pub(crate) fn reports_of(reports: &RisingMap<CallReports>, call: u64) -> CallReports
    ensures { result ≡ reports_in reports.now call }
{
    reports.get(call).copied().unwrap_or(CallReports::NONE)
}

/// Keeps what a post reports of its call.
fn hear(reports: &mut RisingMap<CallReports>, at: u64, body: Body) -> Result<(), AllocError>
    ensures { OnOk result ((given : List (ℕ × Body)) → HaveReports reports.old given
        → HaveReports reports.new (given ++ (at, body) ∷ [])) }
{
    match body {
        Body::Ssf { call, msg } => {
            let after = reports_of(reports, call).after(at, msg);
            reports.insert(call, after)
        }
        Body::Recharge { .. } => Ok(()),
    }
}
