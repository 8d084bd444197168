//! The rounds of a call, from its start to its end.

ghost use Rattle.std.specs.Prelude.{◌≡◌, ◌+◌, ◌<◌, ◌≤◌, Some, IfOk};
ghost use Rattle.std.specs.Option.{ForSome};
ghost use Rattle.account_core.specs.Known.{nothing_known};
ghost use Rattle.one_call.specs.Starts.{IsStarted};

use crate::converse::converse;
use crate::counts::Counts;
use crate::hear::hear_all;
use crate::moments::next_input;
use crate::step::step;
use crate::{CallEnd, Port};
use cap_values::Number;
use dialogue_core::{Dialogue, ServiceConfig};
use price_core::{DAY, HORIZON, MAX_MOMENT, Route};
use ssf_core::{BcsmEvent, Moment, Ssf, SsfConfig, send};
use std::alloc::{AllocError, Global};
use std::collections::VecDeque;

/// Plays a call from its start until no event, delivery or due moment is left. The operations of an
/// answer are delivered after a delay.
pub(crate) fn play<P: Port>(
    alloc: Global,
    config: SsfConfig,
    service: &ServiceConfig,
    delay: u32,
    start: Moment,
    call: (u64, Number, Number),
    route: Option<Route>,
    script: &[(Moment, BcsmEvent)],
    port: &mut P,
) -> Result<CallEnd, AllocError>
    requires start { start ≤ MAX_MOMENT }
    requires route { ForSome route (λ route.
        ForSome route.switch_at (λ at. (start < at) × (at ≤ start + DAY))) }
    ensures forfeits { P.state port.old call.0 ≡ Some nothing_known
        → IfOk result (λ end. end.forfeits ≡ 0) }
{
    let delay = u64::from(delay);
    let (mut ssf, mut counts) = started(config, start, call);
    let (mut dialogue, turn) = Dialogue::begin(call.0, start, route, service);
    let mut deliveries = VecDeque::new(alloc);
    let mut played = 0;
    let instructions = converse(port, &mut dialogue, &mut counts, turn);
    send(&mut deliveries, start + delay, call.0, instructions)?;
    'inputs: for _ in 0..u64::MAX {
        let Some(now) = next_input(&ssf, &deliveries, script, played) else {
            break;
        };
        let step = step(&mut ssf, &mut deliveries, script, &mut played, now);
        counts = counts.with_input(step.fault);
        let due = now + delay;
        let sent = step.sent.as_slice();
        hear_all(
            port,
            &mut dialogue,
            &mut counts,
            &mut deliveries,
            due,
            call.0,
            sent,
        )?;
    }
    Ok(CallEnd {
        state: ssf.state(),
        reports: counts.reports,
        forfeits: counts.forfeits,
        last: counts.last,
        refused: counts.refused,
    })
}

/// Invokes a new gsmSSF and triggers it.
fn started(config: SsfConfig, start: Moment, call: (u64, Number, Number)) -> (Ssf, Counts)
    requires { start ≤ HORIZON }
    ensures started { IsStarted result.0 }
    ensures none { result.1.forfeits ≡ 0 }
{
    let mut ssf = Ssf::new(config);
    let invoked = ssf.invoke(start);
    let triggered = ssf.trigger(start, call.0, call.1, call.2);
    let counts = Counts::new().with_input(invoked.fault);
    (ssf, counts.with_input(triggered.fault))
}
