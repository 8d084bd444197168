//! The events of the call, in the order of the rules.

ghost use Rattle.std.specs.Prelude.{◌≡◌, ◌++◌, ◌≤◌, ◌∷◌, ℕ, List, None};
ghost use Rattle.std.specs.Result.{result_unwrap_or};
ghost use Rattle.arrayvec.specs.ArrayVec.{array_vec_len};
ghost use Rattle.ssf_core.specs.Happenings.{Happening, Took, sent_at};
ghost use Rattle.ssf_core.specs.Quantities.{mode_at};
ghost use Rattle.ssf_core.specs.Stages.{IsActiveTimely, IsSwitchTimely, IsTimelyStage, tccd_due_of};
ghost use Rattle.ssf_core.specs.Stands.{ActiveMatches, EarlyMatches, StageMatches, period_of, ssf_phase_of, release_of, running_period};
ghost use Rattle.ssf_core.specs.Steps.{IsTakenInput, TakesInput};
ghost use Rattle.ssf_core.specs.Rules.{ends, notified, on_failure};
ghost use Rattle.ssf_core.specs.declared.config.SsfConfig.{SsfConfig as Config};
ghost use Rattle.ssf_core.specs.declared.item.Item.{Item};
ghost use Rattle.ssf_core.specs.declared.ssf.Input.{Input};
ghost use Rattle.ssf_core.specs.declared.ssf.Input.TheVariants as taken;
ghost use Rattle.cap_values.specs.declared.event.Event.TheVariants as event;

use crate::sending::{by_mode, end, notify, send_last_report};
use crate::stage::{Active, Charging, Early, Stage, mode_of};
use crate::{BcsmEvent, Moment, Out, SsfConfig, SsfFault};
use arrayvec::ArrayVec;
use cap_values::{Charge, Event, Leg, Mode, Point};
use price_core::{DAY, HORIZON};

/// Takes an event.
pub(crate) fn meet(
    config: &SsfConfig,
    stage: Stage,
    sent: &mut ArrayVec<Out, 8>,
    now: Moment,
    event: BcsmEvent,
) -> Result<Stage, SsfFault>
    requires moment { now ≤ HORIZON }
    requires room { array_vec_len sent.old ≤ 5 }
    requires timely { IsTimelyStage now stage }
    ensures takes { TakesInput config.now stage now (taken.Meet event) result
        sent.old.items sent.new.items }
    ensures timely { IsTimelyStage now (result_unwrap_or result stage) }
{
    match event {
        BcsmEvent::RouteSelectFailure => {
            fail(
                config,
                stage,
                sent,
                now,
                Event::RouteSelectFailure,
                Point::RouteSelectFailure,
            )
        }
        BcsmEvent::Busy => {
            fail(
                config,
                stage,
                sent,
                now,
                Event::CalledPartyBusy,
                Point::CalledPartyBusy,
            )
        }
        BcsmEvent::NoAnswer => fail(config, stage, sent, now, Event::NoAnswer, Point::NoAnswer),
        BcsmEvent::Answer => activate(stage, sent, now),
        BcsmEvent::Disconnect(leg) => disconnect(config, stage, sent, now, leg),
        BcsmEvent::Abandon => abandon(stage, sent, now),
    }
}

/// Answer: the call is active; reported where its mode is NotifyAndContinue.
fn activate(stage: Stage, sent: &mut ArrayVec<Out, 8>, now: Moment) -> Result<Stage, SsfFault>
    requires room { array_vec_len sent.old ≤ 5 }
    requires timely { IsTimelyStage now stage }
    ensures takes { (config : Config) → TakesInput config stage now
        (taken.Meet BcsmEvent.Answer) result sent.old.items sent.new.items }
    ensures timely { IsTimelyStage now (result_unwrap_or result stage) }
{
    let Stage::Early(early) = stage else {
        return Err(SsfFault::NoSuchEvent);
    };
    notify(
        sent,
        now,
        Event::Answer,
        mode_of(&early.modes, Point::Answer),
    );
    Ok(Stage::Active(answered(early, now)))
}

/// What an answered call keeps: its answer, and the period that was ordered for it, which now runs.
fn answered(early: Early, now: Moment) -> Active
    requires { IsSwitchTimely now early.switch }
    ensures matches { (tccd : ℕ) (t : List Happening) (items : List Item) → EarlyMatches early t
        → ActiveMatches tccd result
        (record { at = now; what = Took (taken.Meet BcsmEvent.Answer); sent = items } ∷ t) }
    ensures timely { IsActiveTimely now result }
{
    Active {
        modes: early.modes,
        answered: now,
        granted: period_of(early.charge),
        charging: charging_of(early.charge),
        switch: early.switch,
    }
}

/// The units of a period, none where none was ordered.
fn period_of(charge: Option<Charge>) -> u32
    ensures units { result ≡ period_of charge }
    ensures within_day { result ≤ DAY }
{
    match charge {
        Some(charge) => charge.period,
        None => 0,
    }
}

/// The charging of a call that is answered: the period that was ordered runs, if there is one.
fn charging_of(charge: Option<Charge>) -> Charging
    ensures wish { running_period result ≡ release_of charge }
    ensures no_wait { tccd_due_of result ≡ None }
{
    match charge {
        Some(charge) => Charging::Running {
            release: charge.release,
        },
        None => Charging::Off,
    }
}

/// RouteSelectFailure, Busy, NoAnswer: by mode.
fn fail(
    config: &SsfConfig,
    stage: Stage,
    sent: &mut ArrayVec<Out, 8>,
    now: Moment,
    event: Event,
    point: Point,
) -> Result<Stage, SsfFault>
    requires moment { now ≤ HORIZON }
    requires room { array_vec_len sent.old ≤ 5 }
    requires timely { IsTimelyStage now stage }
    ensures takes { (t : List Happening) (input : Input) → StageMatches config.now stage t
        → IsTakenInput config.now t now input (on_failure event (mode_at t point)
        (ssf_phase_of stage))
        result sent.old.items sent.new.items }
    ensures timely { IsTimelyStage now (result_unwrap_or result stage) }
{
    let Stage::Early(early) = stage else {
        return Err(SsfFault::NoSuchEvent);
    };
    Ok(by_mode(config, sent, now, event, None, mode_of(&early.modes, point)))
}

/// Abandon: reported where its mode is NotifyAndContinue; ends.
fn abandon(stage: Stage, sent: &mut ArrayVec<Out, 8>, now: Moment) -> Result<Stage, SsfFault>
    requires room { array_vec_len sent.old ≤ 5 }
    requires timely { IsTimelyStage now stage }
    ensures takes { (config : Config) → TakesInput config stage now
        (taken.Meet BcsmEvent.Abandon) result sent.old.items sent.new.items }
    ensures timely { IsTimelyStage now (result_unwrap_or result stage) }
{
    match stage {
        Stage::Initial { early, .. } => Ok(give_up(
            sent,
            now,
            mode_of(&early.modes, Point::Abandon),
        )),
        Stage::Early(early) => Ok(give_up(sent, now, mode_of(&early.modes, Point::Abandon))),
        Stage::Unused | Stage::Requested | Stage::Active(_) | Stage::Down { .. } | Stage::Ended => {
            Err(SsfFault::NoSuchEvent)
        }
    }
}

/// Ends a call that is abandoned, and reports it by mode.
fn give_up(sent: &mut ArrayVec<Out, 8>, now: Moment, mode: Mode) -> Stage
    requires { array_vec_len sent.old ≤ 5 }
    ensures stage { result ≡ Stage.Ended }
    ensures items { sent.new.items ≡ sent.old.items
        ++ sent_at now (ends (notified event.Abandon mode)).sent }
{
    notify(sent, now, Event::Abandon, mode);
    end(sent, now)
}

/// Disconnect: with a last report, then by the mode of that leg's point.
fn disconnect(
    config: &SsfConfig,
    stage: Stage,
    sent: &mut ArrayVec<Out, 8>,
    now: Moment,
    leg: Leg,
) -> Result<Stage, SsfFault>
    requires moment { now ≤ HORIZON }
    requires room { array_vec_len sent.old ≤ 5 }
    requires timely { IsTimelyStage now stage }
    ensures takes { TakesInput config.now stage now (taken.Meet (BcsmEvent.Disconnect leg)) result
        sent.old.items sent.new.items }
    ensures timely { IsTimelyStage now (result_unwrap_or result stage) }
{
    let Stage::Active(active) = stage else {
        return Err(SsfFault::NoSuchEvent);
    };
    send_last_report(sent, now, &active);
    let mode = mode_of(&active.modes, Point::Disconnect(leg));
    Ok(by_mode(config, sent, now, Event::Disconnect, Some(leg), mode))
}
