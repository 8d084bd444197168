//! What the service says at once, operation by operation.

ghost use Rattle.std.specs.Prelude.{◌≡◌};
ghost use Rattle.cap_values.specs.Orders.{operations_in};

use arrayvec::ArrayVec;
use cap_values::{Instructions, ScfOp};

/// The operations of instructions, in order.
pub fn operations_of(instructions: Instructions) -> ArrayVec<ScfOp, 3>
    ensures { result.items ≡ operations_in instructions }
{
    let mut operations = ArrayVec::new();
    match instructions {
        Instructions::Nothing => {}
        Instructions::GoOn => operations.push(ScfOp::Continue),
        Instructions::Release(cause) => operations.push(ScfOp::ReleaseCall(cause)),
        Instructions::FirstPeriod(arms, charge) => {
            operations.push(ScfOp::RequestReport(arms));
            operations.push(ScfOp::ApplyCharging(charge));
            operations.push(ScfOp::Continue);
        }
        Instructions::FurtherPeriod(charge) => operations.push(ScfOp::ApplyCharging(charge)),
    }
    operations
}
