//! The operations of the service, in the order of the rules.

ghost use Rattle.std.specs.Prelude.{◌≡◌, ◌+◌, ◌≤◌, ℕ, List, Ok, Err, Some, None, IsSome};
ghost use Rattle.std.specs.Result.{result_unwrap_or};
ghost use Rattle.arrayvec.specs.ArrayVec.{array_vec_len};
ghost use Rattle.ssf_core.specs.Stages.{IsActiveTimely, IsSwitchTimely, IsTimelyStage, started};
ghost use Rattle.ssf_core.specs.Steps.{TakesInput};
ghost use Rattle.ssf_core.specs.Rules.{is_fitting};
ghost use Rattle.ssf_core.specs.declared.config.SsfConfig.{SsfConfig as Config};
ghost use Rattle.ssf_core.specs.declared.item.Out.{Out as Sent};
ghost use Rattle.ssf_core.specs.declared.ssf.Input.TheVariants as taken;

use crate::sending::{clear, proceed, send, send_last_report};
use crate::stage::{Active, Charging, Early, Stage, any_watched, armed, started};
use crate::{Item, Moment, Out, SsfConfig, SsfFault};
use arrayvec::ArrayVec;
use cap_values::{Arms, Cause, Charge, ScfOp};
use price_core::{DAY, HORIZON};

/// Takes an operation.
pub(crate) fn operate(
    config: &SsfConfig,
    stage: Stage,
    sent: &mut ArrayVec<Out, 8>,
    now: Moment,
    op: ScfOp,
) -> Result<Stage, SsfFault>
    requires moment { now ≤ HORIZON }
    requires room { array_vec_len sent.old ≤ 5 }
    requires timely { IsTimelyStage now stage }
    ensures takes { TakesInput config.now stage now (taken.Operate op) result
        sent.old.items sent.new.items }
    ensures timely { IsTimelyStage now (result_unwrap_or result stage) }
{
    match op {
        ScfOp::RequestReport(arms) => request_report(config, stage, now, &arms),
        ScfOp::ApplyCharging(charge) => apply_charging(config, stage, now, charge),
        ScfOp::Continue => resume(stage, sent, now),
        ScfOp::ReleaseCall(cause) => release_call(stage, sent, now, cause),
    }
}

/// RequestReport: modes set where not kept; Tssf starts anew where instructions are waited for.
fn request_report(
    config: &SsfConfig,
    stage: Stage,
    now: Moment,
    arms: &Arms,
) -> Result<Stage, SsfFault>
    requires moment { now ≤ HORIZON }
    requires timely { IsTimelyStage now stage }
    ensures takes { (sent : List Sent) → TakesInput config.now stage now
        (taken.Operate (ScfOp.RequestReport arms.now)) result sent sent }
    ensures timely { IsTimelyStage now (result_unwrap_or result stage) }
{
    match stage {
        Stage::Initial { mut early, .. } => {
            early.modes = armed(&early.modes, arms);
            Ok(Stage::Initial {
                early,
                due: now + u64::from(config.tssf),
            })
        }
        Stage::Early(mut early) => {
            early.modes = armed(&early.modes, arms);
            Ok(Stage::Early(early))
        }
        Stage::Active(mut active) => {
            active.modes = armed(&active.modes, arms);
            Ok(Stage::Active(active))
        }
        Stage::Down { .. } => Ok(Stage::Down {
            due: now + u64::from(config.tssf),
        }),
        Stage::Unused | Stage::Requested | Stage::Ended => Err(
            SsfFault::UnexpectedComponentSequence,
        ),
    }
}

/// ApplyCharging: a first period before the answer, a further one after it.
fn apply_charging(
    config: &SsfConfig,
    stage: Stage,
    now: Moment,
    charge: Charge,
) -> Result<Stage, SsfFault>
    requires moment { now ≤ HORIZON }
    requires timely { IsTimelyStage now stage }
    ensures takes { (sent : List Sent) → TakesInput config.now stage now
        (taken.Operate (ScfOp.ApplyCharging charge)) result sent sent }
    ensures timely { IsTimelyStage now (result_unwrap_or result stage) }
{
    match stage {
        Stage::Initial { early, .. } => Ok(Stage::Initial {
            early: charge_early(early, now, charge)?,
            due: now + u64::from(config.tssf),
        }),
        Stage::Early(early) => Ok(Stage::Early(charge_early(early, now, charge)?)),
        Stage::Active(active) => charge_active(active, now, charge),
        Stage::Unused | Stage::Requested | Stage::Down { .. } | Stage::Ended => {
            Err(SsfFault::UnexpectedComponentSequence)
        }
    }
}

/// A first period, where none is pending.
fn charge_early(early: Early, now: Moment, charge: Charge) -> Result<Early, SsfFault>
    requires { now ≤ HORIZON }
    ensures pending { IsSome early.charge → result ≡ Err SsfFault.UnexpectedComponentSequence }
    ensures charged { early.charge ≡ None → result ≡ Ok (record early {
      charge = Some charge;
      switch = started early.switch now charge.switch;
    }) }
{
    match early.charge {
        None => Ok(Early {
            modes: early.modes,
            charge: Some(charge),
            switch: started(early.switch, now, charge.switch),
        }),
        Some(_) => Err(SsfFault::UnexpectedComponentSequence),
    }
}

/// A further period, while Tccd runs: it begins where the last one ended.
fn charge_active(active: Active, now: Moment, charge: Charge) -> Result<Stage, SsfFault>
    requires moment { now ≤ HORIZON }
    requires timely { IsActiveTimely now active }
    ensures takes { (config : Config) (sent : List Sent) → TakesInput config (Stage.Active active)
        now (taken.Operate (ScfOp.ApplyCharging charge)) result sent sent }
    ensures timely { IsTimelyStage now (result_unwrap_or result (Stage.Active active)) }
{
    let Charging::Over { .. } = active.charging else {
        return Err(SsfFault::UnexpectedComponentSequence);
    };
    if !fits(&active, now, charge.period) {
        return Err(SsfFault::ParameterOutOfRange);
    }
    Ok(Stage::Active(Active {
        modes: active.modes,
        answered: active.answered,
        granted: active.granted + charge.period,
        charging: Charging::Running {
            release: charge.release,
        },
        switch: started(active.switch, now, charge.switch),
    }))
}

/// Whether a further period keeps within a day in all and ends in the future.
fn fits(active: &Active, now: Moment, period: u32) -> bool
    requires answered { active.now.answered ≤ HORIZON }
    requires granted { active.now.granted ≤ DAY }
    requires period { period ≤ DAY }
    ensures { result ≡ is_fitting active.now.answered active.now.granted period now }
{
    let total = active.granted + period;
    total <= DAY && now < active.answered + u64::from(total)
}

/// Continue: the call proceeds, monitored where a point is watched or a period is pending.
fn resume(stage: Stage, sent: &mut ArrayVec<Out, 8>, now: Moment) -> Result<Stage, SsfFault>
    requires room { array_vec_len sent.old ≤ 5 }
    requires timely { IsTimelyStage now stage }
    ensures takes { (config : Config) → TakesInput config stage now
        (taken.Operate ScfOp.Continue) result sent.old.items sent.new.items }
    ensures timely { IsTimelyStage now (result_unwrap_or result stage) }
{
    match stage {
        Stage::Initial { early, .. } => Ok(go_on(early, sent, now)),
        Stage::Down { .. } => Ok(proceed(sent, now)),
        Stage::Unused | Stage::Requested | Stage::Early(_) | Stage::Active(_) | Stage::Ended => {
            Err(SsfFault::UnexpectedComponentSequence)
        }
    }
}

/// Lets a call go on for the first time: it is monitored where there is something to monitor.
fn go_on(early: Early, sent: &mut ArrayVec<Out, 8>, now: Moment) -> Stage
    requires room { array_vec_len sent.old ≤ 5 }
    requires timely { IsSwitchTimely now early.switch }
    ensures takes { (config : Config) (due : ℕ) → TakesInput config (Stage.Initial early due) now
        (taken.Operate ScfOp.Continue) (Ok result) sent.old.items sent.new.items }
    ensures timely { IsTimelyStage now result }
{
    if any_watched(&early.modes) || early.charge.is_some() {
        send(sent, now, Item::Proceed);
        return Stage::Early(early);
    }
    proceed(sent, now)
}

/// ReleaseCall: after the answer with a last report.
fn release_call(
    stage: Stage,
    sent: &mut ArrayVec<Out, 8>,
    now: Moment,
    cause: Cause,
) -> Result<Stage, SsfFault>
    requires room { array_vec_len sent.old ≤ 5 }
    requires timely { IsTimelyStage now stage }
    ensures takes { (config : Config) → TakesInput config stage now
        (taken.Operate (ScfOp.ReleaseCall cause)) result sent.old.items sent.new.items }
    ensures timely { IsTimelyStage now (result_unwrap_or result stage) }
{
    match stage {
        Stage::Initial { .. } | Stage::Early(_) | Stage::Down { .. } => Ok(clear(sent, now, cause)),
        Stage::Active(active) => {
            send_last_report(sent, now, &active);
            Ok(clear(sent, now, cause))
        }
        Stage::Unused | Stage::Requested | Stage::Ended => Err(
            SsfFault::UnexpectedComponentSequence,
        ),
    }
}
