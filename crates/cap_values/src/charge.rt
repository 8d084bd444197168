//! What the service lets a call be talked.

ghost use Rattle.std.specs.Prelude.{◌≡◌, ◌↔◌, ◌≤◌, IsOk, IfOk, IsErrOf, Some, None};
ghost use Rattle.std.specs.Option.{ForSome};
ghost use Rattle.cap_values.specs.Charges.{IsCharge};
ghost use Rattle.price_core.specs.declared.times.TheConstants.{DAY};

use crate::ValueFault;
use price_core::DAY;

/// The longest time to a tariff switch, in seconds: a day.
pub const MAX_SWITCH: u32 = 86_400;

/// A call period, with what follows it (GSM 09.78, ApplyCharging). The party to charge is leg 1.
///
/// The protocol calls two things a tariff switch interval: this one, the seconds from ApplyCharging
/// to the switch, and the one of a charging report, the 100 ms from the answer to the switch.
#[derive(Clone, Copy, Debug, PartialEq, Eq)]
pub struct Charge {
    /// How long the call may be talked (maxCallPeriodDuration): 1 to `DAY`, in 100 ms.
    pub period: u32,
    /// When the tariff switches (tariffSwitchInterval): 1 to `MAX_SWITCH` seconds from now.
    pub switch: Option<u32>,
    /// Whether the call is released at the end of the period (releaseIfDurationExceeded).
    pub release: bool,
    pub ghost period_positive: { 1 ≤ period },
    pub ghost period_within_day: { period ≤ DAY },
    pub ghost switch_in_range: { ForSome switch (λ seconds. (1 ≤ seconds) × (seconds ≤ 86400)) },
}

impl Charge {
    /// The charge of these parameters. `MissingParameter` where no period is given; else
    /// `ParameterOutOfRange` where the period or the switch is out of its range.
    pub fn new(
        period: Option<u32>,
        switch: Option<u32>,
        release: bool,
    ) -> Result<Charge, ValueFault>
        ensures made { IsOk result ↔ IsCharge period switch }
        ensures missing { IsErrOf result ValueFault.MissingParameter ↔ (period ≡ None) }
        ensures period { IfOk result (λ charge. period ≡ Some charge.period) }
        ensures switch { IfOk result (λ charge. charge.switch ≡ switch) }
        ensures release { IfOk result (λ charge. charge.release ≡ release) }
    {
        let period = period.ok_or(ValueFault::MissingParameter)?;
        let is_period = 1 <= period && period <= DAY;
        if !is_period || !switch.is_none_or(|seconds| 1 <= seconds && seconds <= MAX_SWITCH) {
            return Err(ValueFault::ParameterOutOfRange);
        }
        Ok(Charge {
            period,
            switch,
            release,
        })
    }
}
