//! One call, driven end to end.

ghost use Rattle.std.specs.Prelude.{◌≡◌, ◌+◌, ◌<◌, ◌≤◌, ◌↔◌, All, Some, IsErrOf, IfOk, true, false};
ghost use Rattle.std.specs.Option.{ForSome};
ghost use Rattle.account_core.specs.Known.{nothing_known};
ghost use Rattle.one_call.specs.Drives.{IsDelay};
ghost use Rattle.one_call.specs.Scripts.{events_are_in_order};

use crate::rounds::play;
use crate::script::are_in_order;
use crate::{CallEnd, DriveFault, Port};
use cap_values::Number;
use dialogue_core::ServiceConfig;
use price_core::{DAY, MAX_MOMENT, Route};
use ssf_core::{BcsmEvent, Moment, SsfConfig};
use std::alloc::Global;

/// Drives one call (its number, the calling and the called party) from its start until no event,
/// delivery or due moment is left, and says what it came to.
///
/// At each moment it first delivers the operations that are due, then lets the call meet the events
/// of the script, and then the timers run; those that are due by then have run before the gsmSSF
/// takes an operation or an event, so a delay of `tccd` is too late for a further period. Each ask
/// of the service goes to the port at once, and a refusal of the port back to the service. The
/// operations of an answer at a moment are delivered `delay` units of 100 ms after it, one after
/// the other. What the gsmSSF refuses is counted, and has no other effect.
///
/// No report of the call is answered by a forfeit, whatever the script, where the port states what
/// it keeps of the call, and the call is new to it.
///
/// `Backwards` where an event lies below the start or below the event before it, else `Delay` where
/// the delay isn't 1 to the gsmSSF's `tccd`: then nothing is done. `OutOfMemory` where the queue of
/// deliveries can't grow: what the port was asked by then is kept.
///
/// Both configurations have the same `tccd`. The start and the events lie at 0 to `MAX_MOMENT`,
/// and a switch of the route 1 to DAY units after the start.
pub fn drive_call<P: Port>(
    alloc: Global,
    config: SsfConfig,
    service: &ServiceConfig,
    delay: u32,
    start: Moment,
    call: (u64, Number, Number),
    route: Option<Route>,
    script: &[(Moment, BcsmEvent)],
    port: &mut P,
) -> Result<CallEnd, DriveFault>
    requires tccd { config.tccd ≡ service.now.tccd }
    requires start { start ≤ MAX_MOMENT }
    requires script { All (λ next. next.0 ≤ MAX_MOMENT) script.now }
    requires route { ForSome route (λ route.
        ForSome route.switch_at (λ at. (start < at) × (at ≤ start + DAY))) }
    ensures forfeits { P.state port.old call.0 ≡ Some nothing_known
        → IfOk result (λ end. end.forfeits ≡ 0) }
    ensures backwards { IsErrOf result DriveFault.Backwards
        ↔ (events_are_in_order start script.now ≡ false) }
    ensures delay { IsErrOf result DriveFault.Delay
        ↔ ((events_are_in_order start script.now ≡ true) × (¬ IsDelay delay config.tccd)) }
    ensures memory { IsErrOf result DriveFault.OutOfMemory
        → (events_are_in_order start script.now ≡ true) × IsDelay delay config.tccd }
    ensures backwards_asks_nothing { IsErrOf result DriveFault.Backwards → port.new ≡ port.old }
    ensures delay_asks_nothing { IsErrOf result DriveFault.Delay → port.new ≡ port.old }
{
    if !are_in_order(start, script) {
        return Err(DriveFault::Backwards);
    }
    if delay < 1 || config.tccd < delay {
        return Err(DriveFault::Delay);
    }
    let end = play(
        alloc, config, service, delay, start, call, route, script, port,
    )?;
    Ok(end)
}
