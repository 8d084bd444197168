//! How a gsmSSF is set up.

ghost use Rattle.std.specs.Prelude.{◌≡◌, ◌↔◌, ◌≤◌, IsTrue, IsOk, IfOk, IfErr};
ghost use Rattle.ssf_core.specs.Configs.{IsTimer};
ghost use Rattle.price_core.specs.declared.times.TheConstants.{DAY};

use crate::SsfFault;
use price_core::DAY;

/// What becomes of a call whose service doesn't answer in time (GSM 03.78, Default Call Handling).
#[derive(Clone, Copy)]
pub enum DefaultHandling {
    /// The call goes on without the service.
    Proceed,
    /// The call is cleared.
    Release,
}

/// The timers that a gsmSSF is set up with, and its default handling.
#[derive(Clone, Copy)]
pub struct SsfConfig {
    /// How long instructions are waited for: 1 to `DAY`, in units of 100 ms.
    pub tssf: u32,
    /// How long a further period is waited for: 1 to `DAY`, in units of 100 ms.
    pub tccd: u32,
    /// What becomes of the call when `tssf` has passed.
    pub default_handling: DefaultHandling,
    pub ghost tssf_positive: { 1 ≤ tssf },
    pub ghost tssf_within_day: { tssf ≤ DAY },
    pub ghost tccd_positive: { 1 ≤ tccd },
    pub ghost tccd_within_day: { tccd ≤ DAY },
}

impl SsfConfig {
    /// The configuration of these timers; else `ParameterOutOfRange`.
    pub fn new(
        tssf: u32,
        tccd: u32,
        default_handling: DefaultHandling,
    ) -> Result<SsfConfig, SsfFault>
        ensures made { IsOk result ↔ (IsTimer tssf × IsTimer tccd) }
        ensures tssf { IfOk result (λ config. config.tssf ≡ tssf) }
        ensures tccd { IfOk result (λ config. config.tccd ≡ tccd) }
        ensures default_handling { IfOk result (λ config. config.default_handling
            ≡ default_handling) }
        ensures fault { IfErr result (λ fault. fault ≡ SsfFault.ParameterOutOfRange) }
    {
        if !is_timer(tssf) || !is_timer(tccd) {
            return Err(SsfFault::ParameterOutOfRange);
        }
        Ok(SsfConfig {
            tssf,
            tccd,
            default_handling,
        })
    }
}

/// Whether a timer is within its range: 1 to a day.
fn is_timer(units: u32) -> bool
    ensures { IsTrue result ↔ IsTimer units }
{
    1 <= units && units <= DAY
}
