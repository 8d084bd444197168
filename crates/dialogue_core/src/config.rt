//! How much the service asks for.

ghost use Rattle.std.specs.Prelude.{◌≡◌, ◌↔◌, ◌≤◌, IsOk, IfOk, IfErr};
ghost use Rattle.dialogue_core.specs.Configs.{IsService};
ghost use Rattle.price_core.specs.declared.times.TheConstants.{DAY};

use cap_values::ValueFault;
use price_core::DAY;

/// What the service asks an account for, in units of 100 ms.
#[derive(Clone, Copy, Debug, PartialEq, Eq)]
pub struct ServiceConfig {
    /// The time that each reserve asks for, 1 to a day.
    pub wanted: u32,
    /// The least time that is worth a grant, at most `wanted`.
    pub least: u32,
    /// How long the gsmSSF waits for a further period, at least 1 and at most `least`, so that a
    /// period is longer than the wait for it. The gsmSSF isn't told: it has a Tccd of its own.
    pub tccd: u32,
    pub ghost tccd_positive: { 1 ≤ tccd },
    pub ghost tccd_within_least: { tccd ≤ least },
    pub ghost least_within_wanted: { least ≤ wanted },
    pub ghost wanted_within_day: { wanted ≤ DAY },
}

impl ServiceConfig {
    /// The configuration of these times; else `ParameterOutOfRange`.
    pub fn new(wanted: u32, least: u32, tccd: u32) -> Result<ServiceConfig, ValueFault>
        ensures made { IsOk result ↔ IsService wanted least tccd }
        ensures wanted { IfOk result (λ config. config.wanted ≡ wanted) }
        ensures least { IfOk result (λ config. config.least ≡ least) }
        ensures tccd { IfOk result (λ config. config.tccd ≡ tccd) }
        ensures fault { IfErr result (λ fault. fault ≡ ValueFault.ParameterOutOfRange) }
    {
        if tccd < 1 || tccd > least || least > wanted || wanted > DAY {
            return Err(ValueFault::ParameterOutOfRange);
        }
        Ok(ServiceConfig {
            wanted,
            least,
            tccd,
        })
    }
}
