//! The events that a call is to meet.

ghost use Rattle.std.specs.Prelude.{◌≡◌, drop};
ghost use Rattle.one_call.specs.Scripts.{TakesEvent, events_are_in_order, next_event};

use ssf_core::{BcsmEvent, Moment};

/// Whether no event lies below the start, nor below the event before it.
pub(crate) fn are_in_order(start: Moment, script: &[(Moment, BcsmEvent)]) -> bool
    ensures { result ≡ events_are_in_order start script.now }
{
    let mut last = start;
    for (moment, _) in script {
        if *moment < last {
            return false;
        }
        last = *moment;
    }
    true
}

/// The moment of the first event that wasn't played yet.
pub(crate) fn next_event(script: &[(Moment, BcsmEvent)], played: usize) -> Option<Moment>
    ensures { result ≡ next_event (drop played script.now) }
{
    if played < script.len() {
        let (moment, _) = script[played];
        return Some(moment);
    }
    None
}

/// Takes the first event that wasn't played yet, where it is due by now.
pub(crate) fn take_event(
    script: &[(Moment, BcsmEvent)],
    played: &mut usize,
    now: Moment,
) -> Option<BcsmEvent>
    ensures { TakesEvent now (drop played.old script.now) result (drop played.new script.now) }
{
    if *played < script.len() {
        let (moment, event) = script[*played];
        if moment <= now {
            *played += 1;
            return Some(event);
        }
    }
    None
}
