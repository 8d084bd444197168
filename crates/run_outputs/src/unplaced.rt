//! The events of a script that had no place.

ghost use Rattle.std.specs.Prelude.{◌≡◌, ◌++◌, IfOk, OnOk, Some};
ghost use Rattle.run_outputs.specs.Unplaced.{AreByCall, event_in_row, event_text, bcsm_word, events_in_rows};

use run_texts::{Happening, ScriptRow};
use ssf_core::{BcsmEvent, Moment};
use std::alloc::{AllocError, Global};
use std::fmt;

/// An event of a script that had no place: the gsmSSF of its call refused it.
#[derive(Clone, Copy)]
pub struct UnplacedEvent {
    /// Its moment, 0 to `MAX_MOMENT`.
    pub at: Moment,
    /// The call.
    pub call: u64,
    /// The event.
    pub event: BcsmEvent,
}

impl fmt::Display for UnplacedEvent {
    ghost output = { λ unplaced. Some (event_text unplaced) };

    fn fmt<W: fmt::Write>(&self, f: &mut fmt::Formatter<W>) -> fmt::Result {
        let UnplacedEvent { at, call, event } = *self;
        write!(f, "call {call} {} at {at}", word_of(event))
    }
}

/// The word of an event in a script.
fn word_of(event: BcsmEvent) -> &'static str
    ensures { result.now ≡ bcsm_word event }
{
    match event {
        BcsmEvent::RouteSelectFailure => "routefail",
        BcsmEvent::Busy => "busy",
        BcsmEvent::NoAnswer => "noanswer",
        BcsmEvent::Answer => "answer",
        BcsmEvent::Disconnect(_) => "disconnect",
        BcsmEvent::Abandon => "abandon",
    }
}

/// The events of these rows, in order.
pub fn events_of(alloc: Global, rows: &[ScriptRow]) -> Result<Vec<UnplacedEvent>, AllocError>
    ensures { IfOk result (λ events. events.items ≡ events_in_rows rows.now) }
{
    let mut events = Vec::new(alloc);
    for row in rows {
        add_event(&mut events, *row)?;
    }
    Ok(events)
}

/// Adds the event of a row, where it has one.
fn add_event(events: &mut Vec<UnplacedEvent>, row: ScriptRow) -> Result<(), AllocError>
    ensures { OnOk result (events.new.items ≡ events.old.items ++ event_in_row row.at row.what) }
{
    if let Happening::Meets { call, event } = row.what {
        events.push(UnplacedEvent {
            at: row.at,
            call,
            event,
        })?;
    }
    Ok(())
}

/// These events by rising call, and those of one call in their order.
pub fn by_call(alloc: Global, events: &[UnplacedEvent]) -> Result<Vec<UnplacedEvent>, AllocError>
    ensures { IfOk result (λ sorted. AreByCall events.now sorted.items) }
{
    let mut sorted = events.to_vec(alloc)?;
    sorted.sort_by_key(|event| event.call)?;
    Ok(sorted)
}

/// The events of these rows by rising call, and those of one call in their order.
pub fn events_by_call(alloc: Global, rows: &[ScriptRow]) -> Result<Vec<UnplacedEvent>, AllocError>
    ensures { IfOk result (λ sorted. AreByCall (events_in_rows rows.now) sorted.items) }
{
    let events = events_of(alloc, rows)?;
    by_call(alloc, events.as_slice())
}
