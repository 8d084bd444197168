//! What is sent, put at the end of a step.

ghost use Rattle.std.specs.Prelude.{◌≡◌, ◌+◌, ◌++◌, ◌<◌, ◌≤◌, ◌∷◌, ◌-◌, [], ℕ, List};
ghost use Rattle.ssf_core.specs.Happenings.{Happening, Took, sent_at};
ghost use Rattle.ssf_core.specs.Rules.{by_mode, ends, event_report, last_report_sent, notified, report};
ghost use Rattle.ssf_core.specs.Split.{split};
ghost use Rattle.ssf_core.specs.Stages.{IsActiveTimely, IsSwitchTimely, IsTimelyStage, passed_switch};
ghost use Rattle.ssf_core.specs.Stands.{ActiveMatches};
ghost use Rattle.ssf_core.specs.Steps.{FollowsEffect};
ghost use Rattle.ssf_core.specs.declared.ssf.Input.{Input};
ghost use Rattle.arrayvec.specs.ArrayVec.{array_vec_len};
ghost use Rattle.ssf_core.specs.declared.item.Item.TheVariants as item;

use crate::stage::{Active, Charging, Stage, Switch};
use crate::{Item, Moment, Out, SsfConfig};
use arrayvec::ArrayVec;
use cap_values::{Cause, Event, Leg, Mode, SsfMsg};
use price_core::{DAY, HORIZON, TimeInfo};

/// Sends an item as of a moment.
pub(crate) fn send(sent: &mut ArrayVec<Out, 8>, now: Moment, item: Item)
    requires { array_vec_len sent.old < 8 }
    ensures items { sent.new.items ≡ sent.old.items ++ sent_at now (item ∷ []) }
    ensures room { array_vec_len sent.new ≡ array_vec_len sent.old + 1 }
{
    sent.push(Out { at: now, item });
}

/// The dialogue ends: `Ended` is sent last.
pub(crate) fn end(sent: &mut ArrayVec<Out, 8>, now: Moment) -> Stage
    requires { array_vec_len sent.old < 8 }
    ensures stage { result ≡ Stage.Ended }
    ensures items { sent.new.items ≡ sent.old.items ++ sent_at now (ends []).sent }
    ensures room { array_vec_len sent.new ≡ array_vec_len sent.old + 1 }
{
    send(sent, now, Item::Msg(SsfMsg::Ended));
    Stage::Ended
}

/// The call is cleared, and the dialogue ends.
pub(crate) fn clear(sent: &mut ArrayVec<Out, 8>, now: Moment, cause: Cause) -> Stage
    requires { array_vec_len sent.old ≤ 6 }
    ensures stage { result ≡ Stage.Ended }
    ensures items { sent.new.items ≡ sent.old.items
        ++ sent_at now (ends (item.Clear cause ∷ [])).sent }
    ensures room { array_vec_len sent.new ≡ array_vec_len sent.old + 2 }
{
    send(sent, now, Item::Clear(cause));
    end(sent, now)
}

/// The call goes on without the service.
pub(crate) fn proceed(sent: &mut ArrayVec<Out, 8>, now: Moment) -> Stage
    requires { array_vec_len sent.old ≤ 6 }
    ensures stage { result ≡ Stage.Ended }
    ensures items { sent.new.items ≡ sent.old.items
        ++ sent_at now (ends (item.Proceed ∷ [])).sent }
    ensures room { array_vec_len sent.new ≡ array_vec_len sent.old + 2 }
{
    send(sent, now, Item::Proceed);
    end(sent, now)
}

/// Reports an event.
fn report_event(
    sent: &mut ArrayVec<Out, 8>,
    now: Moment,
    event: Event,
    leg: Option<Leg>,
    mode: Mode,
)
    requires { array_vec_len sent.old < 8 }
    ensures items { sent.new.items ≡ sent.old.items
        ++ sent_at now (event_report event leg mode) }
    ensures room { array_vec_len sent.new ≡ array_vec_len sent.old + 1 }
{
    send(
        sent,
        now,
        Item::Msg(SsfMsg::EventReport { event, leg, mode }),
    );
}

/// Reports an event where its mode is NotifyAndContinue.
pub(crate) fn notify(sent: &mut ArrayVec<Out, 8>, now: Moment, event: Event, mode: Mode)
    requires { array_vec_len sent.old < 8 }
    ensures items { sent.new.items ≡ sent.old.items ++ sent_at now (notified event mode) }
    ensures room { array_vec_len sent.new ≤ array_vec_len sent.old + 1 }
{
    match mode {
        Mode::NotifyAndContinue => report_event(sent, now, event, None, mode),
        Mode::Interrupted | Mode::Transparent => {}
    }
}

/// An event that ends or interrupts the call, by its mode. Transparent: ends. NotifyAndContinue:
/// reported, ends. Interrupted: reported, and the service is asked.
pub(crate) fn by_mode(
    config: &SsfConfig,
    sent: &mut ArrayVec<Out, 8>,
    now: Moment,
    event: Event,
    leg: Option<Leg>,
    mode: Mode,
) -> Stage
    requires moment { now ≤ HORIZON }
    requires room { array_vec_len sent.old ≤ 6 }
    ensures follows { (t : List Happening) (input : Input) → FollowsEffect config.now t now
        (Took input)
        (by_mode event leg mode) result sent.old.items sent.new.items }
    ensures timely { IsTimelyStage now result }
    ensures room { array_vec_len sent.new ≤ array_vec_len sent.old + 2 }
{
    match mode {
        Mode::Interrupted => {
            report_event(sent, now, event, leg, mode);
            Stage::Down {
                due: now + u64::from(config.tssf),
            }
        }
        Mode::NotifyAndContinue => {
            report_event(sent, now, event, leg, mode);
            end(sent, now)
        }
        Mode::Transparent => end(sent, now),
    }
}

/// The time from the answer to a moment of the same day, split at the switch.
fn times(answered: Moment, switch: Switch, now: Moment) -> TimeInfo
    requires answered { answered ≤ now }
    requires within_day { now ≤ answered + DAY }
    requires switch { IsSwitchTimely now switch }
    ensures { result ≡ split answered (passed_switch switch) now }
{
    match switch {
        Switch::Passed(switch) if switch <= answered => TimeInfo::Switch {
            since: (now - answered) as u32,
            interval: None,
        },
        Switch::Passed(switch) => TimeInfo::Switch {
            since: (now - switch) as u32,
            interval: Some((switch - answered) as u32),
        },
        Switch::Unset | Switch::Due(_) => TimeInfo::NoSwitch {
            t: (now - answered) as u32,
        },
    }
}

/// The charging report of an active call.
pub(crate) fn report(active: &Active, now: Moment, goes_on: bool) -> Item
    requires timely { IsActiveTimely now active.now }
    requires within { now ≤ active.now.answered + active.now.granted }
    ensures { (tccd : ℕ) (t : List Happening) → ActiveMatches tccd active.now t
        → result ≡ report t now goes_on }
{
    Item::Msg(SsfMsg::ChargingReport {
        active: goes_on,
        info: times(active.answered, active.switch, now),
    })
}

/// If a period is pending: sends a report that the call doesn't go on.
pub(crate) fn send_last_report(sent: &mut ArrayVec<Out, 8>, now: Moment, active: &Active)
    requires room { array_vec_len sent.old < 8 }
    requires timely { IsActiveTimely now active.now }
    ensures items { (tccd : ℕ) (t : List Happening) → ActiveMatches tccd active.now t
        → sent.new.items ≡ sent.old.items ++ sent_at now (last_report_sent t now) }
    ensures room { array_vec_len sent.new ≤ array_vec_len sent.old + 1 }
{
    match active.charging {
        Charging::Running { .. } => send(sent, now, report(active, now, false)),
        Charging::Off | Charging::Over { .. } => {}
    }
}
