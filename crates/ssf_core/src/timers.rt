//! The timers, run up to a moment.

ghost use Rattle.std.specs.Prelude.{◌≡◌, ◌≤◌, ◌<◌, ◌+◌, ◌++◌, [], List, Some};
ghost use Rattle.ssf_core.specs.Happenings.{Happening, sent_at};
ghost use Rattle.ssf_core.specs.Running.{Runs};
ghost use Rattle.ssf_core.specs.Stages.{IsQuiet, IsTimelyStage, IsBounded, due_by, expiries_left, expiry_of, items_left, expiry_moment, next_expiry_of, sooner_of, stage_due, switch_due_of};
ghost use Rattle.ssf_core.specs.Steps.{Expires};
ghost use Rattle.ssf_core.specs.Rules.{on_tssf};
ghost use Rattle.ssf_core.specs.declared.config.SsfConfig.{SsfConfig as Config};
ghost use Rattle.ssf_core.specs.declared.item.Out.{Out as Sent};
ghost use Rattle.arrayvec.specs.ArrayVec.{array_vec_len};

use crate::sending::{clear, proceed, report, send};
use crate::stage::{Active, Charging, Stage, Switch};
use crate::{DefaultHandling, Moment, Out, SsfConfig};
use arrayvec::ArrayVec;
use cap_values::Cause;
use price_core::HORIZON;

/// A timer.
#[derive(Clone, Copy)]
enum Timer {
    /// It runs to the tariff switch.
    Tsw,
    /// It measures a call period.
    Tcp,
    /// It waits for a further period.
    Tccd,
    /// It waits for instructions.
    Tssf,
}

/// The expiry of a timer.
#[derive(Clone, Copy)]
struct Expiry {
    due: Moment,
    timer: Timer,
}

/// Lets all timers expire that are due by now, each as of its due moment.
pub(crate) fn run_timers(
    config: &SsfConfig,
    stage: Stage,
    sent: &mut ArrayVec<Out, 8>,
    last: Moment,
    now: Moment,
) -> Stage
    requires moment { now ≤ HORIZON }
    requires last { last ≤ now }
    requires timely { IsTimelyStage last stage }
    requires empty { sent.old.items ≡ [] }
    ensures timely { IsTimelyStage now result }
    ensures quiet { IsQuiet now result }
    ensures room { array_vec_len sent.new ≤ 3 }
    ensures traced { (t : List Happening) → Runs config.now last stage t now result sent.new.items }
{
    let mut stage = stage;
    while let Some(expiry) = next_expiry_by(&stage, now) {
        stage = expire(config, stage, sent, expiry);
    }
    stage
}

/// When Tsw is due: at the tariff switch.
fn tsw_due(stage: &Stage) -> Option<Moment>
    ensures { result ≡ stage_due stage.now Timer.Tsw }
{
    match stage {
        Stage::Initial { early, .. } => switch_due(early.switch),
        Stage::Early(early) => switch_due(early.switch),
        Stage::Active(active) => switch_due(active.switch),
        Stage::Unused | Stage::Requested | Stage::Down { .. } | Stage::Ended => None,
    }
}

/// When a switch is due, while it is awaited.
fn switch_due(switch: Switch) -> Option<Moment>
    ensures { result ≡ switch_due_of switch }
{
    match switch {
        Switch::Due(moment) => Some(moment),
        Switch::Unset | Switch::Passed(_) => None,
    }
}

/// When Tcp is due: at the end of the period.
fn tcp_due(stage: &Stage) -> Option<Moment>
    requires { IsBounded stage.now }
    ensures { result ≡ stage_due stage.now Timer.Tcp }
{
    match stage {
        Stage::Active(
            Active {
                charging: Charging::Running { .. },
                answered,
                granted,
                ..
            },
        ) => Some(*answered + u64::from(*granted)),
        _ => None,
    }
}

/// When Tccd is due: some time after the end of the period.
fn tccd_due(stage: &Stage) -> Option<Moment>
    ensures { result ≡ stage_due stage.now Timer.Tccd }
{
    match stage {
        Stage::Active(
            Active {
                charging: Charging::Over { due },
                ..
            },
        ) => Some(*due),
        _ => None,
    }
}

/// When Tssf is due: some time after it was last started.
fn tssf_due(stage: &Stage) -> Option<Moment>
    ensures { result ≡ stage_due stage.now Timer.Tssf }
{
    match stage {
        Stage::Initial { due, .. } => Some(*due),
        Stage::Down { due } => Some(*due),
        _ => None,
    }
}

/// The expiry of a timer at its due moment, where it has one.
fn expiry_at(timer: Timer, due: Option<Moment>) -> Option<Expiry>
    ensures { result ≡ expiry_of timer due }
{
    match due {
        Some(due) => Some(Expiry { due, timer }),
        None => None,
    }
}

/// The sooner of two expiries; the first where both are due at one moment.
fn sooner_expiry(first: Option<Expiry>, second: Option<Expiry>) -> Option<Expiry>
    ensures { result ≡ sooner_of first second }
{
    match (first, second) {
        (Some(first), Some(second)) if first.due <= second.due => Some(first),
        (Some(first), None) => Some(first),
        (_, second) => second,
    }
}

/// The next expiry.
fn next_expiry(stage: &Stage) -> Option<Expiry>
    requires { IsBounded stage.now }
    ensures { result ≡ next_expiry_of stage.now }
{
    let tsw = expiry_at(Timer::Tsw, tsw_due(stage));
    let tcp = expiry_at(Timer::Tcp, tcp_due(stage));
    let tccd = expiry_at(Timer::Tccd, tccd_due(stage));
    let tssf = expiry_at(Timer::Tssf, tssf_due(stage));
    sooner_expiry(tsw, sooner_expiry(tcp, sooner_expiry(tccd, tssf)))
}

/// The moment of the next expiry.
pub(crate) fn next_due(stage: &Stage) -> Option<Moment>
    requires { IsBounded stage.now }
    ensures { result ≡ expiry_moment (next_expiry_of stage.now) }
{
    match next_expiry(stage) {
        Some(expiry) => Some(expiry.due),
        None => None,
    }
}

/// The next expiry, if it is due by now.
fn next_expiry_by(stage: &Stage, now: Moment) -> Option<Expiry>
    requires { IsBounded stage.now }
    ensures { result ≡ due_by now (next_expiry_of stage.now) }
{
    match next_expiry(stage) {
        Some(expiry) if expiry.due <= now => Some(expiry),
        _ => None,
    }
}

/// Lets a timer expire, as of its due moment.
fn expire(config: &SsfConfig, stage: Stage, sent: &mut ArrayVec<Out, 8>, expiry: Expiry) -> Stage
    requires moment { expiry.due ≤ HORIZON }
    requires room { array_vec_len sent.old ≤ 5 }
    requires timely { IsTimelyStage expiry.due stage }
    requires due { stage_due stage expiry.timer ≡ Some expiry.due }
    ensures expires { Expires config.now stage expiry.due expiry.timer result
        sent.old.items sent.new.items }
    ensures timely { IsTimelyStage expiry.due result }
    ensures fewer { expiries_left result < expiries_left stage }
    ensures room { array_vec_len sent.new + items_left result
        ≤ array_vec_len sent.old + items_left stage }
{
    match expiry.timer {
        Timer::Tsw => switch_over(stage, expiry.due),
        Timer::Tcp => end_period(config, stage, sent, expiry.due),
        Timer::Tccd => clear(sent, expiry.due, Cause::temporary_failure()),
        Timer::Tssf => handle_by_default(config, sent, expiry.due),
    }
}

/// Tsw: the switch came.
fn switch_over(stage: Stage, now: Moment) -> Stage
    requires timely { IsTimelyStage now stage }
    requires due { stage_due stage Timer.Tsw ≡ Some now }
    ensures expires { (config : Config) (sent : List Sent)
        → Expires config stage now Timer.Tsw result sent sent }
    ensures timely { IsTimelyStage now result }
    ensures fewer { expiries_left result < expiries_left stage }
    ensures room { items_left result ≤ items_left stage }
{
    match stage {
        Stage::Initial { mut early, due } => {
            early.switch = Switch::Passed(now);
            Stage::Initial { early, due }
        }
        Stage::Early(mut early) => {
            early.switch = Switch::Passed(now);
            Stage::Early(early)
        }
        Stage::Active(mut active) => {
            active.switch = Switch::Passed(now);
            Stage::Active(active)
        }
        other => other,
    }
}

/// Tcp: the period is over. With the wish to release, a last report, and the call is cleared; else
/// a report, and Tccd starts.
fn end_period(config: &SsfConfig, stage: Stage, sent: &mut ArrayVec<Out, 8>, now: Moment) -> Stage
    requires moment { now ≤ HORIZON }
    requires room { array_vec_len sent.old ≤ 5 }
    requires timely { IsTimelyStage now stage }
    requires due { stage_due stage Timer.Tcp ≡ Some now }
    ensures expires { Expires config.now stage now Timer.Tcp result
        sent.old.items sent.new.items }
    ensures timely { IsTimelyStage now result }
    ensures fewer { expiries_left result < expiries_left stage }
    ensures room { array_vec_len sent.new + items_left result
        ≤ array_vec_len sent.old + items_left stage }
{
    let Stage::Active(mut active) = stage else {
        return stage;
    };
    let Charging::Running { release } = active.charging else {
        return Stage::Active(active);
    };
    send(sent, now, report(&active, now, !release));
    if release {
        return clear(sent, now, Cause::normal_call_clearing());
    }
    active.charging = Charging::Over {
        due: now + u64::from(config.tccd),
    };
    Stage::Active(active)
}

/// Tssf: the default handling.
fn handle_by_default(config: &SsfConfig, sent: &mut ArrayVec<Out, 8>, now: Moment) -> Stage
    requires { array_vec_len sent.old ≤ 5 }
    ensures stage { result ≡ Stage.Ended }
    ensures items { sent.new.items ≡ sent.old.items
        ++ sent_at now (on_tssf config.now.default_handling).sent }
    ensures room { array_vec_len sent.new ≡ array_vec_len sent.old + 2 }
{
    match config.default_handling {
        DefaultHandling::Proceed => proceed(sent, now),
        DefaultHandling::Release => clear(sent, now, Cause::temporary_failure()),
    }
}
