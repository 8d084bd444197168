//! The port of a shared account.

ghost use Rattle.std.specs.Prelude.{◌≡◌, ◌⊎◌, ◌++◌, ◌∷◌, [], reverse, IfErr, IfOk, MatchResult};
ghost use Rattle.account_core.specs.Entries.{asked_of};
ghost use Rattle.account_core.specs.Ledger.{entry_by};
ghost use Rattle.account_core.specs.Places.{IsOwed};
ghost use Rattle.account_core.specs.Kinds.{IsReplyTo, IsReturn};
ghost use Rattle.account_core.specs.Refusals.{IsRefusedAt};
ghost use Rattle.std.specs.Coded.{Coded-set};

use crate::Port;
use account_core::{AccountFault, Gate, Op, Reply, Shared};
use std::sync::Wait;

/// The port of a shared account: it asks from a seat, past a gate.
///
/// It can't state what it keeps of a call, since others ask the account too.
#[derive(Drop)]
pub struct SharedPort<'a, S: Shared, R: Wait, G: Gate> {
    account: &'a S,
    seat: &'a mut S::Seat,
    rt: &'a R,
    gate: &'a G,
    ghost of_account: { S.reads.key seat.now ≡ S.key account.now } by { Coded-set S.key_code
        (S.reads.key seat.now) (S.key account.now) },
}

impl<'a, S: Shared, R: Wait, G: Gate> SharedPort<'a, S, R, G> {
    /// The port of an account by one of its seats.
    pub fn new(
        account: &'a S,
        seat: &'a mut S::Seat,
        rt: &'a R,
        gate: &'a G,
    ) -> SharedPort<'a, S, R, G>
        requires { S.reads.key seat.old ≡ S.key account.now }
        ensures account { result.account.now ≡ account.now }
        ensures seat { result.seat.now ≡ seat.old }
        ensures gate { result.gate.now ≡ gate.now }
    {
        SharedPort {
            account,
            seat,
            rt,
            gate,
        }
    }
}

impl<S: Shared, R: Wait, G: Gate> Port for SharedPort<'_, S, R, G> {
    fn ask(&mut self, op: Op) -> Result<Reply, AccountFault>
        ensures mine { MatchResult result
            (λ reply. S.reads.mine self.new.seat.now ≡ S.reads.mine self.old.seat.now
            ++ entry_by (S.reads.number self.old.seat.now) (asked_of op) reply ∷ [])
            (λ _. S.reads.mine self.new.seat.now ≡ S.reads.mine self.old.seat.now) }
        ensures kind { IfOk result (λ reply. IsReplyTo (asked_of op) reply) }
        ensures called { S.calls self.old.seat.now (asked_of op) result self.new.seat.now }
        ensures refused { IfErr result (λ fault. (fault ≡ AccountFault.GateClosed)
            ⊎ IsRefusedAt (S.was self.new.seat.now)
            (S.reads.mine self.old.seat.now) (asked_of op) fault) }
        ensures gate { result ≡ Err AccountFault.GateClosed → G.may_shut }
        ensures returning { IsReturn (asked_of op)
            → IsOwed (reverse (S.reads.mine self.old.seat.now)) (asked_of op)
            → IfErr result (λ fault.
            (fault ≡ AccountFault.NotOpen) ⊎ (fault ≡ AccountFault.GateClosed)) }
    {
        self.account.call(self.rt, self.seat, op, self.gate)
    }
}
