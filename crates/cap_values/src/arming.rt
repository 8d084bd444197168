//! The points of a call that may be armed.

use crate::{Event, Leg, Mode};

/// A point of a call at which an event is watched: an event, and for Disconnect the leg.
#[derive(Clone, Copy, Debug, PartialEq, Eq)]
pub enum Point {
    /// No route to the called number was found.
    RouteSelectFailure,
    /// The called party is busy.
    CalledPartyBusy,
    /// The called party didn't answer in time.
    NoAnswer,
    /// The called party answered.
    Answer,
    /// The party of this leg hung up.
    Disconnect(Leg),
    /// The calling party hung up before the answer.
    Abandon,
}

/// How one event is to be watched (GSM 09.78, BCSMEvent).
#[derive(Clone, Copy, Debug, PartialEq, Eq)]
pub struct Arming {
    /// The event (eventTypeBCSM): any but CollectedInfo.
    pub event: Event,
    /// The leg (legID): needed with Disconnect, and ignored elsewhere.
    pub leg: Option<Leg>,
    /// The mode (monitorMode): not Interrupted with Answer or Abandon.
    pub mode: Mode,
}
