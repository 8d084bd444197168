//! The numbers of an operation are in the ranges of their types: what these types keep, as the
//! contract of a function that does nothing else.

ghost use Rattle.account_core.specs.Entries.{asked_of};
ghost use Rattle.book_texts.specs.Typed.{IsTypedAsked};

use account_core::Op;
use price_core::Plan;

/// The numbers of an operation are in the ranges of their types.
pub(crate) fn op_is_typed(op: Op)
    ensures { IsTypedAsked (asked_of op) }
{
    match op {
        Op::Credit { .. } => {}
        Op::Reserve {
            call: _,
            plan: Plan {
                fee: _,
                before: _,
                after: _,
                free: _,
                first: _,
                step: _,
            },
            ..
        } => {}
        Op::Settle {
            call: _,
            number: _,
            ..
        } => {}
        Op::Return { call: _ } => {}
    }
}
