//! The operations of the service on their way to gsmSSFs.

ghost use Rattle.std.specs.Prelude.{◌≡◌, ◌++◌, ◌≤◌, OnOk};
ghost use Rattle.std.specs.Option.{ForSome};
ghost use Rattle.cap_values.specs.Orders.{operations_in};
ghost use Rattle.ssf_core.specs.Deliveries.{TakesDue, deliveries_at, next_delivery};
ghost use Rattle.ssf_core.specs.Moments.{in_reach, sooner};

use crate::{Moment, operations_of};
use cap_values::{Instructions, ScfOp};
use price_core::HORIZON;
use std::alloc::AllocError;
use std::collections::VecDeque;

/// An operation on its way.
#[derive(Clone, Copy)]
pub struct Delivery {
    /// When it is delivered.
    pub at: Moment,
    /// The call whose gsmSSF gets it.
    pub call: u64,
    /// What is delivered.
    pub op: ScfOp,
}

/// Sends the operations of instructions on their way, one after the other, all to be delivered to
/// one call at one moment. Where memory ran out, some of them may be on their way.
pub fn send(
    deliveries: &mut VecDeque<Delivery>,
    at: Moment,
    call: u64,
    instructions: Instructions,
) -> Result<(), AllocError>
    ensures sent { OnOk result (deliveries.new.items
        ≡ deliveries.old.items ++ deliveries_at at call (operations_in instructions)) }
{
    let operations = operations_of(instructions);
    for op in operations.as_slice() {
        deliveries.push_back(Delivery { at, call, op: *op })?;
    }
    Ok(())
}

/// The moment of the first delivery, none where none is on its way.
pub fn next_delivery(deliveries: &VecDeque<Delivery>) -> Option<Moment>
    ensures first { result ≡ next_delivery deliveries.now.items }
{
    match deliveries.front() {
        Some(delivery) => Some(delivery.at),
        None => None,
    }
}

/// Takes the first delivery, where it is due by now.
pub fn take_due(deliveries: &mut VecDeque<Delivery>, now: Moment) -> Option<Delivery>
    ensures takes { TakesDue now deliveries.old.items result deliveries.new.items }
{
    let at = next_delivery(deliveries)?;
    if now < at {
        return None;
    }
    deliveries.pop_front()
}

/// The least of these moments: that of what a call meets next, that of the next delivery, and that
/// at which a timer is due. None where there is none of them, or where it is above `HORIZON`, the
/// last moment that a gsmSSF takes.
pub fn next_moment(
    event: Option<Moment>,
    delivery: Option<Moment>,
    due: Option<Moment>,
) -> Option<Moment>
    ensures least { result ≡ in_reach (sooner (sooner event delivery) due) }
    ensures in_range { ForSome result (λ moment. moment ≤ HORIZON) }
{
    let next = sooner(sooner(event, delivery), due)?;
    if HORIZON < next {
        return None;
    }
    Some(next)
}

/// The lesser of two moments, where there are two.
fn sooner(first: Option<Moment>, second: Option<Moment>) -> Option<Moment>
    ensures { result ≡ sooner first second }
{
    match (first, second) {
        (None, _) => second,
        (_, None) => first,
        (Some(one), Some(other)) => Some(one.min(other)),
    }
}
