//! What the gsmSSF says to the service.

use crate::{Event, Leg, Mode, Number};
use price_core::TimeInfo;

/// A message from the gsmSSF to the service (GSM 09.78).
#[derive(Clone, Copy, Debug, PartialEq, Eq)]
pub enum SsfMsg {
    /// InitialDP: a call asks for the service.
    InitialDp {
        /// The call.
        call: u64,
        /// The calling party.
        calling: Number,
        /// The number that was dialled.
        called: Number,
    },
    /// EventReportBCSM: a watched point was met. To the service each but an answer ends the
    /// charging of the call.
    EventReport {
        /// The event.
        event: Event,
        /// The leg, with Disconnect alone.
        leg: Option<Leg>,
        /// How the point was watched: Interrupted or NotifyAndContinue.
        mode: Mode,
    },
    /// ApplyChargingReport: how long was talked so far.
    ChargingReport {
        /// Whether the call goes on.
        active: bool,
        /// The time since the answer, in 100 ms, split at the tariff switch.
        info: TimeInfo,
    },
    /// The dialogue has ended.
    Ended,
}
