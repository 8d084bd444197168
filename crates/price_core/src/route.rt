//! What a call is charged by, and when its tariff switches.

ghost use Rattle.std.specs.Prelude.{◌≡◌, is_some};

use crate::Plan;

/// How a call is charged from a moment on.
#[derive(Clone, Copy, Debug, PartialEq, Eq)]
pub struct Route {
    /// What it is charged by.
    pub plan: Plan,
    /// The moment of the tariff switch, in units of 100 ms: from then on the plan's second rate
    /// counts. There is one exactly where the plan has a second rate.
    pub switch_at: Option<u64>,
    pub ghost switches: { is_some switch_at ≡ is_some plan.after },
}
