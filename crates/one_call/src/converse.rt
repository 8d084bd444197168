//! The service's talk with the port, until it says something else.

ghost use Rattle.std.specs.Prelude.{◌≡◌, ◌++◌, ℕ, List};
ghost use Rattle.cap_values.specs.Orders.{Period, orders_in, periods_in};
ghost use Rattle.dialogue_core.specs.Views.{phase_of, says_of};
ghost use Rattle.ssf_core.specs.Meters.{Meter};
ghost use Rattle.one_call.specs.Covered.{IsAtRest, IsReadyCall};

use crate::Port;
use crate::counts::Counts;
use account_core::{AccountFault, Op, Reply};
use cap_values::Instructions;
use dialogue_core::{Asker, Dialogue, Turn};
use std::convert::Infallible;

impl<P: Port> Asker<P> for Counts {
    ghost use Rattle.one_call.specs.Asks.{IsAskedOnce};

    type End = Infallible;

    ghost may_ask = { λ _. Unit {0} };

    ghost does = { IsAskedOnce P.state };

    ghost ends = { λ _ _ _ _. ⊥ };

    /// Asks the port, and counts its answer.
    fn ask(&mut self, port: &mut P, op: Op) -> Result<Result<Reply, AccountFault>, Infallible> {
        let answer = port.ask(op);
        *self = self.with_answer(&answer);
        Ok(answer)
    }
}

/// Puts each ask of the service to the port at once, and gives the instructions that it sends then.
pub(crate) fn converse<P: Port>(
    port: &mut P,
    dialogue: &mut Dialogue,
    counts: &mut Counts,
    turn: Turn,
) -> Instructions
    ensures kept { (call : ℕ) (meter : Meter) (queued : List Period)
        → IsReadyCall call meter queued
        (P.state port.old call) (phase_of dialogue.old) (says_of turn)
        → counts.new.forfeits ≡ counts.old.forfeits }
    ensures rests { (call : ℕ) (meter : Meter) (queued : List Period)
        → IsReadyCall call meter queued
        (P.state port.old call) (phase_of dialogue.old) (says_of turn)
        → IsAtRest call meter (queued ++ periods_in (orders_in result))
        (P.state port.new call) (phase_of dialogue.new) }
{
    match dialogue_core::converse(counts, port, dialogue, turn) {
        Ok(instructions) => instructions,
        Err(never) => match never {},
    }
}
