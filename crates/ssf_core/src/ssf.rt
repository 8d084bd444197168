//! The gsmSSF of one call.

ghost use Rattle.std.specs.Prelude.{◌≡◌, ◌≤◌, ℕ, List};
ghost use Rattle.std.specs.Result.{result_unwrap_or};
ghost use Rattle.ssf_core.specs.Stages.{IsTimelyStage};
ghost use Rattle.ssf_core.specs.Steps.{TakesInput};
ghost use Rattle.ssf_core.specs.declared.config.SsfConfig.{SsfConfig as Config};
ghost use Rattle.ssf_core.specs.declared.item.Out.{Out as Sent};
ghost use Rattle.ssf_core.specs.declared.ssf.Input.TheVariants as taken;
ghost use Rattle.arrayvec.specs.ArrayVec.{array_vec_len};

use crate::events::meet;
use crate::operations::operate;
use crate::sending::send;
use crate::stage::{Early, Stage, Switch, UNARMED, state_of};
use crate::timers::{next_due, run_timers};
use crate::{BcsmEvent, Item, Moment, Out, SsfConfig, SsfFault, State, Step};
use arrayvec::ArrayVec;
use cap_values::{Number, ScfOp, SsfMsg};
use price_core::HORIZON;
use std::marker::Model;

/// The gsmSSF of one call. Once its dialogue has ended it stays Idle and refuses every input but
/// `advance`.
///
/// Every call first compares its moment with the last one: a lesser one is `TimeBackwards` and
/// changes nothing. Then all timers due by it expire, each as of its due moment, and then the input
/// is taken or refused by the rules.
#[derive(Drop)]
pub struct Ssf {
    config: SsfConfig,
    last: Moment,
    stage: Stage,
}

impl Model for Ssf {
    ghost use Rattle.std.specs.Prelude.{◌≤◌};
    ghost use Rattle.ssf_core.specs.Calls.{View};
    ghost use Rattle.ssf_core.specs.Stages.{IsTimelyStage};
    ghost use Rattle.price_core.specs.declared.times.TheConstants.{HORIZON};

    ghost Value = { View };

    ghost view = { λ s. record { config = s.config; last = s.last; stage = s.stage } };

    ghost invariant = { λ s. (s.last ≤ HORIZON) × IsTimelyStage s.last s.stage };
}

impl Ssf {
    ghost use Rattle.std.specs.Prelude.{◌≡◌, ◌≤◌, ◌<◌, ◌∷◌, [], List, Some, None};
    ghost use Rattle.std.specs.Option.{ForSome};
    ghost use Rattle.ssf_core.specs.Calls.{Advances, IsNextDue, Stands, TakesAt};
    ghost use Rattle.cap_values.specs.Orders.{order_of, periods_in};
    ghost use Rattle.ssf_core.specs.Meters.{Metered};
    ghost use Rattle.ssf_core.specs.Phases.{state_of_phase};
    ghost use Rattle.ssf_core.specs.Traces.{phase_after};
    ghost use Rattle.ssf_core.specs.Happenings.{Happening};
    ghost use Rattle.ssf_core.specs.declared.ssf.Input.TheVariants as taken;

    /// A gsmSSF that was never invoked.
    pub fn new(config: SsfConfig) -> Ssf
        ensures stands { Stands result [] }
        ensures config { result.config ≡ config }
        ensures last { result.last ≡ 0 }
    {
        Ssf {
            config,
            last: 0,
            stage: Stage::Unused,
        }
    }

    /// The state of the call.
    pub fn state(&self) -> State
        ensures { (t : List Happening) → Stands self.now t → result
            ≡ state_of_phase (phase_after self.now.config t) }
    {
        state_of(&self.stage)
    }

    /// The least moment at which a timer is due, or none where no timer runs. It isn't before the
    /// latest moment that the gsmSSF took.
    pub fn next_due(&self) -> Option<Moment>
        ensures least { (t : List Happening)
            → Stands self.now t → IsNextDue self.now.config t result }
        ensures ahead { ForSome result (λ at. self.now.last ≤ at) }
    {
        next_due(&self.stage)
    }

    /// The switch invokes it, once: `UnexpectedComponentSequence` where it did so before.
    pub fn invoke(&mut self, now: Moment) -> Step
        requires { now ≤ HORIZON }
        ensures backwards { now < self.old.last → (self.new ≡ self.old)
            × (result.fault ≡ Some SsfFault.TimeBackwards) × (result.sent.items ≡ []) }
        ensures moment { self.old.last ≤ now → (self.new.last ≡ now)
            × (self.new.config ≡ self.old.config) }
        ensures trace { self.old.last ≤ now → (t : List Happening) → Stands self.old t
            → TakesAt self.old self.new now taken.Invoke t result.sent.items result.fault }
        ensures metered { Metered [] self.old result.sent.items self.new }
    {
        self.input(now, Input::Invoke)
    }

    /// A call triggers it: InitialDP is sent. `UnexpectedComponentSequence` where it wasn't
    /// invoked, or was triggered before.
    pub fn trigger(&mut self, now: Moment, call: u64, calling: Number, called: Number) -> Step
        requires { now ≤ HORIZON }
        ensures backwards { now < self.old.last → (self.new ≡ self.old)
            × (result.fault ≡ Some SsfFault.TimeBackwards) × (result.sent.items ≡ []) }
        ensures moment { self.old.last ≤ now → (self.new.last ≡ now)
            × (self.new.config ≡ self.old.config) }
        ensures trace { self.old.last ≤ now → (t : List Happening) → Stands self.old t
            → TakesAt self.old self.new now
            (taken.Trigger call calling called) t result.sent.items result.fault }
        ensures metered { Metered [] self.old result.sent.items self.new }
    {
        self.input(
            now,
            Input::Trigger {
                call,
                calling,
                called,
            },
        )
    }

    /// The service sends an operation. `UnexpectedComponentSequence` where the state doesn't expect
    /// it; `ParameterOutOfRange` where a further period passes a day in all, or would be over now.
    pub fn operation(&mut self, now: Moment, op: ScfOp) -> Step
        requires { now ≤ HORIZON }
        ensures backwards { now < self.old.last → (self.new ≡ self.old)
            × (result.fault ≡ Some SsfFault.TimeBackwards) × (result.sent.items ≡ []) }
        ensures moment { self.old.last ≤ now → (self.new.last ≡ now)
            × (self.new.config ≡ self.old.config) }
        ensures trace { self.old.last ≤ now → (t : List Happening) → Stands self.old t
            → TakesAt self.old self.new now (taken.Operate op) t result.sent.items result.fault }
        ensures metered { Metered (periods_in (order_of op ∷ []))
            self.old result.sent.items self.new }
    {
        self.input(now, Input::Operate(op))
    }

    /// The call meets an event. `NoSuchEvent` where the state doesn't expect it.
    pub fn event(&mut self, now: Moment, event: BcsmEvent) -> Step
        requires { now ≤ HORIZON }
        ensures backwards { now < self.old.last → (self.new ≡ self.old)
            × (result.fault ≡ Some SsfFault.TimeBackwards) × (result.sent.items ≡ []) }
        ensures moment { self.old.last ≤ now → (self.new.last ≡ now)
            × (self.new.config ≡ self.old.config) }
        ensures trace { self.old.last ≤ now → (t : List Happening) → Stands self.old t
            → TakesAt self.old self.new now (taken.Meet event) t result.sent.items result.fault }
        ensures metered { Metered [] self.old result.sent.items self.new }
    {
        self.input(now, Input::Meet(event))
    }

    /// Time passes. The only fault is `TimeBackwards`.
    pub fn advance(&mut self, now: Moment) -> Step
        requires { now ≤ HORIZON }
        ensures backwards { now < self.old.last → (self.new ≡ self.old)
            × (result.fault ≡ Some SsfFault.TimeBackwards) × (result.sent.items ≡ []) }
        ensures moment { self.old.last ≤ now → (self.new.last ≡ now)
            × (self.new.config ≡ self.old.config) × (result.fault ≡ None) }
        ensures trace { self.old.last ≤ now → (t : List Happening) → Stands self.old t
            → Advances self.old self.new now t result.sent.items }
        ensures metered { Metered [] self.old result.sent.items self.new }
    {
        let mut sent = ArrayVec::new();
        if now < self.last {
            return Step {
                sent,
                fault: Some(SsfFault::TimeBackwards),
            };
        }
        self.stage = run_timers(&self.config, self.stage, &mut sent, self.last, now);
        self.last = now;
        Step { sent, fault: None }
    }

    fn input(&mut self, now: Moment, input: Input) -> Step
        requires { now ≤ HORIZON }
        ensures backwards { now < self.old.last → (self.new ≡ self.old)
            × (result.fault ≡ Some SsfFault.TimeBackwards) × (result.sent.items ≡ []) }
        ensures moment { self.old.last ≤ now → (self.new.last ≡ now)
            × (self.new.config ≡ self.old.config) }
        ensures trace { self.old.last ≤ now → (t : List Happening) → Stands self.old t
            → TakesAt self.old self.new now input t result.sent.items result.fault }
    {
        let mut sent = ArrayVec::new();
        if now < self.last {
            return Step {
                sent,
                fault: Some(SsfFault::TimeBackwards),
            };
        }
        let stage = run_timers(&self.config, self.stage, &mut sent, self.last, now);
        let outcome = take(&self.config, stage, &mut sent, now, input);
        self.stage = outcome.unwrap_or(stage);
        self.last = now;
        Step {
            sent,
            fault: outcome.err(),
        }
    }
}

/// An input.
#[derive(Clone, Copy)]
enum Input {
    /// The switch invokes it.
    Invoke,
    /// A call triggers it.
    Trigger {
        call: u64,
        calling: Number,
        called: Number,
    },
    /// The service sends an operation.
    Operate(ScfOp),
    /// The call meets an event.
    Meet(BcsmEvent),
}

/// Takes an input.
fn take(
    config: &SsfConfig,
    stage: Stage,
    sent: &mut ArrayVec<Out, 8>,
    now: Moment,
    input: Input,
) -> Result<Stage, SsfFault>
    requires moment { now ≤ HORIZON }
    requires room { array_vec_len sent.old ≤ 5 }
    requires timely { IsTimelyStage now stage }
    ensures takes { TakesInput config.now stage now input result sent.old.items sent.new.items }
    ensures timely { IsTimelyStage now (result_unwrap_or result stage) }
{
    match input {
        Input::Invoke => invoke(stage),
        Input::Trigger {
            call,
            calling,
            called,
        } => trigger(config, stage, sent, now, call, calling, called),
        Input::Operate(op) => operate(config, stage, sent, now, op),
        Input::Meet(event) => meet(config, stage, sent, now, event),
    }
}

/// Invoke: where it was never invoked.
fn invoke(stage: Stage) -> Result<Stage, SsfFault>
    ensures takes { (config : Config) (now : ℕ) (sent : List Sent)
        → TakesInput config stage now taken.Invoke result sent sent }
    ensures timely { (now : ℕ) → IsTimelyStage now stage
        → IsTimelyStage now (result_unwrap_or result stage) }
{
    match stage {
        Stage::Unused => Ok(Stage::Requested),
        _ => Err(SsfFault::UnexpectedComponentSequence),
    }
}

/// Trigger: in WaitForRequest; InitialDP is sent, and Tssf starts.
fn trigger(
    config: &SsfConfig,
    stage: Stage,
    sent: &mut ArrayVec<Out, 8>,
    now: Moment,
    call: u64,
    calling: Number,
    called: Number,
) -> Result<Stage, SsfFault>
    requires moment { now ≤ HORIZON }
    requires room { array_vec_len sent.old ≤ 5 }
    requires timely { IsTimelyStage now stage }
    ensures takes { TakesInput config.now stage now (taken.Trigger call calling called) result
        sent.old.items sent.new.items }
    ensures timely { IsTimelyStage now (result_unwrap_or result stage) }
{
    let Stage::Requested = stage else {
        return Err(SsfFault::UnexpectedComponentSequence);
    };
    send(
        sent,
        now,
        Item::Msg(SsfMsg::InitialDp {
            call,
            calling,
            called,
        }),
    );
    Ok(Stage::Initial {
        early: Early {
            modes: UNARMED,
            charge: None,
            switch: Switch::Unset,
        },
        due: now + u64::from(config.tssf),
    })
}
