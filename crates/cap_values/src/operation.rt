//! What the service says to the gsmSSF.

use crate::{Arms, Cause, Charge};

/// An operation from the service to the gsmSSF (GSM 09.78).
#[derive(Clone, Copy, Debug, PartialEq, Eq)]
pub enum ScfOp {
    /// RequestReportBCSMEvent: watch these points in these modes.
    RequestReport(Arms),
    /// ApplyCharging: the call may be talked for this period.
    ApplyCharging(Charge),
    /// Continue: go on with the call.
    Continue,
    /// ReleaseCall: clear the call with this cause.
    ReleaseCall(Cause),
}

impl Default for ScfOp {
    /// Continue, which has no parameters: what an unused place of a list of operations holds.
    fn default() -> ScfOp {
        ScfOp::Continue
    }
}
