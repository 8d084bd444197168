//! What the service says to the gsmSSF at once.

use crate::{Arms, Cause, Charge};

/// The operations that the service sends the gsmSSF of a call at once (GSM 03.78).
#[derive(Clone, Copy, Debug, PartialEq, Eq)]
pub enum Instructions {
    /// None.
    Nothing,
    /// The call goes on: Continue.
    GoOn,
    /// The call is cleared with this cause: ReleaseCall.
    Release(Cause),
    /// The first period of a call, whose points are watched: RequestReportBCSMEvent, ApplyCharging
    /// and Continue.
    FirstPeriod(Arms, Charge),
    /// A further period: ApplyCharging.
    FurtherPeriod(Charge),
}
