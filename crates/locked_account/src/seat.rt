//! Seats, from which an account is asked.

ghost use Rattle.std.specs.Prelude.{◌≡◌, ◌≢◌, ◌++◌, ◌∷◌, ◌+◌, [], None, map, reverse, IsOk, OnOk, OnErr, IfOk, IfErr, ℕ, IsSome};
ghost use Rattle.std.specs.BTreeMap.{is_at};
ghost use Rattle.std.specs.Map.{lookup};
ghost use Rattle.std.specs.Ordering.{nat_cmp};
ghost use Rattle.account_core.specs.Kinds.{IsReplyTo, IsReturn};
ghost use Rattle.account_core.specs.Own.{of_call};
ghost use Rattle.locked_account.specs.Room.{stage_in};
ghost use Rattle.account_core.specs.Asked.{call_of, Credits, IsCredit, IsOfCall};
ghost use Rattle.account_core.specs.Entries.{asked_of, entry_data};
ghost use Rattle.account_core.specs.Ledger.{IsRefusal, answer_of, entry_by, refusal_of};
ghost use Rattle.account_core.specs.Places.{IsOwed};
ghost use Rattle.account_core.specs.Admitting.{IsAdmitted};

use account_core::{
    Account, AccountFault, Admitted, CallStage, Entry, Op, Reply, RisingMap, places_go_with_entries,
};
use std::alloc::{AllocError, Global};
use std::marker::Model;

/// A seat of an account: it asks under its number, and keeps the list of its own entries.
///
/// Beside them it keeps room in memory for the places that they owe to the calls they have opened,
/// so that it can enter the Return of such a call, and its first Settle since its last grant,
/// without asking for memory.
#[derive(Drop)]
pub struct Seat {
    account: u32,
    number: u32,
    mine: Vec<Entry>,
    stages: RisingMap<CallStage>,
    owed: usize,
}

impl Model for Seat {
    ghost use Rattle.std.specs.Prelude.{map, reverse};
    ghost use Rattle.std.specs.Vec.{vec_capacity};
    ghost use Rattle.account_core.specs.Entries.{entry_data};
    ghost use Rattle.locked_account.specs.Room.{IsRoomy};
    ghost use Rattle.locked_account.specs.Seats.{SeatView};

    ghost Value = { SeatView };

    ghost view = { λ s. record {
      account = s.account;
      number = s.number;
      mine = map entry_data s.mine.items;
    } };

    ghost invariant = { λ s. IsRoomy (reverse (map entry_data s.mine.items)) s.stages s.owed
        (vec_capacity s.mine) };
}

impl Seat {
    /// A seat of this account, with this number and no entries. It takes no memory yet.
    pub(crate) fn new(alloc: Global, account: u32, number: u32) -> Seat
        ensures { result ≡ record { account = account; number = number; mine = [] } }
    {
        Seat {
            account,
            number,
            mine: Vec::new(alloc),
            stages: RisingMap::new(alloc),
            owed: 0,
        }
    }

    /// The number of its account.
    pub fn account(&self) -> u32
        ensures { result ≡ self.now.account }
    {
        self.account
    }

    /// Its own number.
    pub fn number(&self) -> u32
        ensures { result ≡ self.now.number }
    {
        self.number
    }

    /// Its own entries, oldest first.
    pub fn mine(&self) -> &[Entry]
        ensures { map entry_data result.now ≡ self.now.mine }
    {
        self.mine.as_slice()
    }

    /// Asks an account under the seat's number, and keeps the same entry in the seat's list.
    ///
    /// A fault changes neither the account nor the seat, and faults come as in `Account::apply`:
    /// `OutOfMemory`, be it the account's or the seat's, comes last. A Return of an open call, and
    /// its first Settle since its last grant, always succeed where the seat's own entries show the
    /// same, and so where the call's entries in the account are those in the seat's list.
    #[inline(always)]
    pub fn apply_to(&mut self, account: &mut Account, op: Op) -> Result<Reply, AccountFault>
        ensures answered { IfOk result (λ reply. reply ≡ answer_of account.old (asked_of op)) }
        ensures entered { IfOk result (λ reply. account.new ≡ record account.old {
          history = account.old.history ++ entry_by self.old.number (asked_of op) reply ∷ [];
        }) }
        ensures mine { IfOk result (λ reply. self.new ≡ record self.old {
          mine = self.old.mine ++ entry_by self.old.number (asked_of op) reply ∷ [];
        }) }
        ensures admitted { OnOk result (refusal_of account.old (asked_of op) ≡ None) }
        ensures account_kept { OnErr result (account.new ≡ account.old) }
        ensures kept { OnErr result (self.new ≡ self.old) }
        ensures refused { IfErr result (λ fault. IsRefusal account.old (asked_of op) fault) }
        ensures ungated { result ≢ Err AccountFault.GateClosed }
        ensures kind { IfOk result (λ reply. IsReplyTo (asked_of op) reply) }
        ensures returning { IsReturn (asked_of op) → IsOwed (reverse self.old.mine) (asked_of op)
            → IfErr result (λ fault. fault ≡ AccountFault.NotOpen) }
        ensures owed { IsOwed (reverse account.old.history) (asked_of op)
            → IsOwed (reverse self.old.mine) (asked_of op) → IsOk result }
        ensures own { IsOwed (reverse account.old.history) (asked_of op)
            → of_call (call_of (asked_of op)) account.old.history
            ≡ of_call (call_of (asked_of op)) self.old.mine
            → IsOk result }
    {
        match op {
            Op::Credit { amount, until } => self.apply_credit(account, amount, until),
            Op::Reserve { call, .. } | Op::Settle { call, .. } | Op::Return { call } => {
                self.apply_of_call(account, call, op)
            }
        }
    }

    /// Asks for a Credit, of which nothing but the totals is looked at.
    #[inline(always)]
    fn apply_credit(
        &mut self,
        account: &mut Account,
        amount: u64,
        until: Option<u64>,
    ) -> Result<Reply, AccountFault>
        ensures answered { IfOk result (λ reply. reply
            ≡ answer_of account.old (Credits amount until)) }
        ensures entered { IfOk result (λ reply. account.new ≡ record account.old {
          history = account.old.history ++ entry_by self.old.number (Credits amount until) reply
              ∷ [];
        }) }
        ensures mine { IfOk result (λ reply. self.new ≡ record self.old {
          mine = self.old.mine ++ entry_by self.old.number (Credits amount until) reply ∷ [];
        }) }
        ensures admitted { OnOk result (refusal_of account.old (Credits amount until) ≡ None) }
        ensures account_kept { OnErr result (account.new ≡ account.old) }
        ensures kept { OnErr result (self.new ≡ self.old) }
        ensures refused { IfErr result (λ fault.
            IsRefusal account.old (Credits amount until) fault) }
        ensures ungated { result ≢ Err AccountFault.GateClosed }
    {
        match account.admit(Op::Credit { amount, until }) {
            Ok(admitted) => Ok(self.enter_credit(account, admitted)?),
            Err(fault) => Err(fault),
        }
    }

    /// Asks for an operation of a call.
    fn apply_of_call(
        &mut self,
        account: &mut Account,
        call: u64,
        op: Op,
    ) -> Result<Reply, AccountFault>
        requires { IsOfCall call (asked_of op) }
        ensures answered { IfOk result (λ reply. reply ≡ answer_of account.old (asked_of op)) }
        ensures entered { IfOk result (λ reply. account.new ≡ record account.old {
          history = account.old.history ++ entry_by self.old.number (asked_of op) reply ∷ [];
        }) }
        ensures mine { IfOk result (λ reply. self.new ≡ record self.old {
          mine = self.old.mine ++ entry_by self.old.number (asked_of op) reply ∷ [];
        }) }
        ensures admitted { OnOk result (refusal_of account.old (asked_of op) ≡ None) }
        ensures account_kept { OnErr result (account.new ≡ account.old) }
        ensures kept { OnErr result (self.new ≡ self.old) }
        ensures refused { IfErr result (λ fault. IsRefusal account.old (asked_of op) fault) }
        ensures ungated { result ≢ Err AccountFault.GateClosed }
        ensures owed { IsOwed (reverse account.old.history) (asked_of op)
            → IsOwed (reverse self.old.mine) (asked_of op) → IsOk result }
    {
        match account.admit(op) {
            Ok(admitted) => Ok(self.enter_call(account, call, admitted)?),
            Err(fault) => Err(fault),
        }
    }

    /// Enters a Credit that the account admits, there and in the seat's list. All room that the
    /// seat needs is made first.
    #[inline(always)]
    fn enter_credit(
        &mut self,
        account: &mut Account,
        admitted: Admitted,
    ) -> Result<Reply, AllocError>
        requires credit { IsCredit (asked_of admitted.op) }
        requires admitted { IsAdmitted account.old admitted }
        ensures answered { IfOk result (λ reply. reply
            ≡ answer_of account.old (asked_of admitted.op)) }
        ensures entered { IfOk result (λ reply. account.new ≡ record account.old {
          history = account.old.history ++ entry_by self.old.number (asked_of admitted.op) reply
              ∷ [];
        }) }
        ensures mine { IfOk result (λ reply. self.new ≡ record self.old {
          mine = self.old.mine ++ entry_by self.old.number (asked_of admitted.op) reply ∷ [];
        }) }
        ensures account_kept { OnErr result (account.new ≡ account.old) }
        ensures kept { OnErr result (self.new ≡ self.old) }
    {
        places_go_with_entries();
        self.mine.try_reserve(self.owed + 1)?;
        let seat = self.number;
        let op = admitted.op();
        let reply = account.enter(seat, admitted)?;
        self.mine.push_reserved(Entry { seat, op, reply });
        Ok(reply)
    }

    /// Enters an operation of a call that the account admits, as a Credit is entered.
    #[inline(always)]
    fn enter_call(
        &mut self,
        account: &mut Account,
        call: u64,
        admitted: Admitted,
    ) -> Result<Reply, AllocError>
        requires of_call { IsOfCall call (asked_of admitted.op) }
        requires admitted { IsAdmitted account.old admitted }
        ensures answered { IfOk result (λ reply. reply
            ≡ answer_of account.old (asked_of admitted.op)) }
        ensures entered { IfOk result (λ reply. account.new ≡ record account.old {
          history = account.old.history ++ entry_by self.old.number (asked_of admitted.op) reply
              ∷ [];
        }) }
        ensures mine { IfOk result (λ reply. self.new ≡ record self.old {
          mine = self.old.mine ++ entry_by self.old.number (asked_of admitted.op) reply ∷ [];
        }) }
        ensures account_kept { OnErr result (account.new ≡ account.old) }
        ensures kept { OnErr result (self.new ≡ self.old) }
        ensures owed { IsOwed (reverse account.old.history) (asked_of admitted.op)
            → IsOwed (reverse self.old.mine) (asked_of admitted.op) → IsOk result }
    {
        places_go_with_entries();
        let seat = self.number;
        let op = admitted.op();
        let before = kept_stage(&mut self.stages, call)?;
        self.mine.try_reserve(self.owed + before.needed(&op))?;
        let reply = account.enter(seat, admitted)?;
        let after = before.after(op, reply);
        self.stages.set(call, after);
        let places = self.owed + after.owed() - before.owed();
        self.mine.push_reserved(Entry { seat, op, reply });
        self.owed = places;
        Ok(reply)
    }
}

/// The stage of a call. One that had none is kept as fresh, so that its later stages need no
/// memory.
#[inline(always)]
fn kept_stage(stages: &mut RisingMap<CallStage>, call: u64) -> Result<CallStage, AllocError>
    ensures stage { IfOk result (λ stage. stage ≡ stage_in stages.old call) }
    ensures kept { OnOk result (IsSome (lookup (is_at (nat_cmp call)) stages.new)) }
    ensures same { (other : ℕ) → stage_in stages.new other ≡ stage_in stages.old other }
    ensures fresh { OnErr result (stage_in stages.old call ≡ CallStage.Fresh) }
{
    match stages.get(call) {
        Some(stage) => Ok(*stage),
        None => {
            stages.insert(call, CallStage::Fresh)?;
            Ok(CallStage::Fresh)
        }
    }
}
