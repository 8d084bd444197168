//! The talk of a dialogue with an account.

ghost use Rattle.cap_values.specs.Orders.{orders_in};
ghost use Rattle.std.specs.Prelude.{IfOk, IfErr};
ghost use Rattle.dialogue_core.specs.Talks.{EndsUnanswered, IsTalkedOut};
ghost use Rattle.dialogue_core.specs.Views.{phase_of, says_of};

use crate::{Dialogue, Turn};
use account_core::{AccountFault, Op, Reply};
use cap_values::Instructions;

/// Puts what a dialogue asks to an account, by way of a `P`: a port to it, or a seat of it.
///
/// It states when it may ask (`may_ask`), what an ask does to it and to the way by what it got
/// (`does`), and what it means that an ask got nothing, with which the talk is over (`ends`).
pub trait Asker<P> {
    ghost use Rattle.std.specs.Prelude.{IfOk, IfErr, OnOk};
    ghost use Rattle.account_core.specs.Asked.{Asked};
    ghost use Rattle.account_core.specs.Entries.{asked_of};
    ghost use Rattle.dialogue_core.specs.Talks.{Got};

    /// Why an ask got nothing.
    type End;

    ghost may_ask: { Self × P → Type 0 };

    ghost does: { Self × P → Asked → Got → Self × P → Type 0 };

    ghost ends: { Self × P → Asked → Self.End → Self × P → Type 0 };

    /// Asks once, and gives what the ask got: the account's reply or its refusal.
    fn ask(&mut self, way: &mut P, op: Op) -> Result<Result<Reply, AccountFault>, Self::End>
        requires { may_ask (self.old, way.old) }
        ensures does { IfOk result (λ got.
            does (self.old, way.old) (asked_of op) got (self.new, way.new)) }
        ensures may_ask { OnOk result (may_ask (self.new, way.new)) }
        ensures ends { IfErr result (λ end.
            ends (self.old, way.old) (asked_of op) end (self.new, way.new)) };
}

/// Puts the asks of a dialogue, one after another, from its turn `turn` on, and gives the
/// instructions that it sends when it asks no more. An ask that gets nothing ends the talk, and is
/// still pending then; so does one whose reply has no place there: one of another kind, or a grant
/// of other than 1 to 864000 units. `Dialogue::refused` goes on from there.
pub fn converse<P, A: Asker<P>>(
    asker: &mut A,
    way: &mut P,
    dialogue: &mut Dialogue,
    turn: Turn,
) -> Result<Instructions, A::End>
    requires { A.may_ask (asker.old, way.old) }
    ensures talks { IfOk result (λ said. IsTalkedOut A.does (says_of turn, phase_of dialogue.old)
        (asker.old, way.old) (asker.new, way.new) (phase_of dialogue.new) (orders_in said)) }
    ensures cut_off { IfErr result (λ end. EndsUnanswered A.does A.ends
        (says_of turn, phase_of dialogue.old)
        (asker.old, way.old) (asker.new, way.new) (phase_of dialogue.new) end) }
{
    let mut turn = turn;
    while let Turn::Ask(op) = turn {
        match asker.ask(way, op) {
            Ok(got) => turn = dialogue.hear(got),
            Err(end) => return Err(end),
        }
    }
    Ok(turn.instructions())
}
