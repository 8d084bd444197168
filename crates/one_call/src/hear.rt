//! What the gsmSSF sends, heard by the service.

ghost use Rattle.std.specs.Prelude.{◌≡◌, ◌++◌, ℕ, List, OnOk};
ghost use Rattle.cap_values.specs.Orders.{Period, orders_in, periods_in};
ghost use Rattle.dialogue_core.specs.Views.{phase_of};
ghost use Rattle.ssf_core.specs.Meters.{Meter, RunsThrough, MetersItem};
ghost use Rattle.ssf_core.specs.declared.item.Item.TheVariants as sent;
ghost use Rattle.one_call.specs.Covered.{IsAtRest};
ghost use Rattle.one_call.specs.Deliveries.{AreSent, queued_in};

use crate::Port;
use crate::converse::converse;
use crate::counts::Counts;
use cap_values::{Instructions, SsfMsg};
use dialogue_core::Dialogue;
use ssf_core::{Delivery, Item, Moment, Out, send};
use std::alloc::AllocError;
use std::collections::VecDeque;

/// Hands a message to the dialogue at its moment, and gives the instructions that it answers with.
/// A message that has no place in the dialogue is answered by none.
fn hear<P: Port>(
    port: &mut P,
    dialogue: &mut Dialogue,
    counts: &mut Counts,
    at: Moment,
    message: SsfMsg,
) -> Instructions
    ensures kept { (call now : ℕ) (meter after : Meter) (queued : List Period)
        → IsAtRest call meter queued (P.state port.old call) (phase_of dialogue.old)
        → MetersItem meter now (sent.Msg message) after
        → counts.new.forfeits ≡ counts.old.forfeits }
    ensures rests { (call now : ℕ) (meter after : Meter) (queued : List Period)
        → IsAtRest call meter queued (P.state port.old call) (phase_of dialogue.old)
        → MetersItem meter now (sent.Msg message) after
        → IsAtRest call after (queued ++ periods_in (orders_in result))
        (P.state port.new call) (phase_of dialogue.new) }
{
    let number = counts.messages;
    *counts = counts.with_message(&message);
    match dialogue.take(number, at, message) {
        Ok(turn) => converse(port, dialogue, counts, turn),
        Err(_) => Instructions::Nothing,
    }
}

/// Hears one item: a message is answered, and the operations of its answer are on their way to the
/// gsmSSF of a call.
fn hear_one<P: Port>(
    port: &mut P,
    dialogue: &mut Dialogue,
    counts: &mut Counts,
    deliveries: &mut VecDeque<Delivery>,
    due: Moment,
    to: u64,
    out: Out,
) -> Result<(), AllocError>
    ensures kept { (call now : ℕ) (meter after : Meter) (handed : List Period)
        → IsAtRest call meter (handed ++ queued_in deliveries.old.items)
        (P.state port.old call) (phase_of dialogue.old)
        → MetersItem meter now out.item after
        → counts.new.forfeits ≡ counts.old.forfeits }
    ensures rests { (call now : ℕ) (meter after : Meter) (handed : List Period)
        → IsAtRest call meter (handed ++ queued_in deliveries.old.items)
        (P.state port.old call) (phase_of dialogue.old)
        → MetersItem meter now out.item after
        → OnOk result (IsAtRest call after (handed ++ queued_in deliveries.new.items)
        (P.state port.new call) (phase_of dialogue.new)) }
    ensures sent { OnOk result (AreSent due to deliveries.old.items deliveries.new.items) }
{
    match out.item {
        Item::Msg(message) => {
            let instructions = hear(port, dialogue, counts, out.at, message);
            send(deliveries, due, to, instructions)
        }
        Item::Proceed => Ok(()),
        Item::Clear(_) => Ok(()),
    }
}

/// Hears all that the gsmSSF of a call sent, in order. The operations of the answers are due at a
/// moment.
pub(crate) fn hear_all<P: Port>(
    port: &mut P,
    dialogue: &mut Dialogue,
    counts: &mut Counts,
    deliveries: &mut VecDeque<Delivery>,
    due: Moment,
    to: u64,
    sent: &[Out],
) -> Result<(), AllocError>
    ensures kept { (call : ℕ) (meter after : Meter) (handed : List Period)
        → IsAtRest call meter (handed ++ queued_in deliveries.old.items)
        (P.state port.old call) (phase_of dialogue.old)
        → RunsThrough handed meter sent.now after
        → OnOk result (counts.new.forfeits ≡ counts.old.forfeits) }
    ensures rests { (call : ℕ) (meter after : Meter) (handed : List Period)
        → IsAtRest call meter (handed ++ queued_in deliveries.old.items)
        (P.state port.old call) (phase_of dialogue.old)
        → RunsThrough handed meter sent.now after
        → OnOk result (IsAtRest call after (queued_in deliveries.new.items)
        (P.state port.new call) (phase_of dialogue.new)) }
    ensures sent { OnOk result (AreSent due to deliveries.old.items deliveries.new.items) }
{
    for out in sent {
        hear_one(port, dialogue, counts, deliveries, due, to, *out)?;
    }
    Ok(())
}
