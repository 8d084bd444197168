//! The account without its entries.

ghost use Rattle.std.specs.Prelude.{◌≡◌, ◌≢◌, ◌+◌, ◌≤◌, [], None, Some, reverse, IsOk, OnOk, OnErr, IfOk, IfErr};
ghost use Rattle.account_core.specs.Admitting.{IsAdmitted};
ghost use Rattle.account_core.specs.Asked.{IsCredit, IsOfCall};
ghost use Rattle.account_core.specs.Entries.{asked_of, entry_data};
ghost use Rattle.account_core.specs.Kept.{known_of};
ghost use Rattle.account_core.specs.Known.{known, known_asked};
ghost use Rattle.account_core.specs.Ledger.{IsRefusal, Ledger, answer_of, entry_by, refusal_of};
ghost use Rattle.account_core.specs.Places.{IsOwed, needed_by};
ghost use Rattle.account_core.specs.Tellers.{Admits, IsAnsweredByTeller, IsTellerOf, entered};

use crate::call_state::{CallState, judge, reply};
use crate::tally::Tally;
use crate::{AccountFault, Admitted, Entry, Op, Reply, laws};
use price_core::MAX_MONEY;
use std::alloc::{AllocError, Global};

/// Answers as an `Account` does, and keeps no entry: only what the entries come to, how many they
/// are, and the places that are owed for closing the open calls. It is for those that want the
/// answers alone.
///
/// Each clause speaks of every ledger that a teller stands for: one whose history comes to this.
pub struct Teller {
    pub(crate) tally: Tally,
    pub(crate) limit: u32,
    entries: usize,
    owed: usize,
}

// Written out, since a derived one is proved field by field again wherever a teller is let go.
impl Drop for Teller {
    fn drop(self) {
        let Teller {
            tally: _tally,
            limit: _limit,
            entries: _entries,
            owed: _owed,
        } = self;
    }
}

impl Teller {
    /// The teller of an account with an opening credit of 0 to `MAX_MONEY`, a last moment, if it
    /// has one, an empty history, and the number of entries that this may grow to. It takes no
    /// memory yet.
    pub fn new(alloc: Global, opening: u64, until: Option<u64>, limit: u32) -> Teller
        requires { opening ≤ MAX_MONEY }
        ensures { IsTellerOf
            (record { opening = opening; until = until; limit = limit; history = [] }) result }
    {
        Teller {
            tally: Tally::new(alloc, opening, until),
            limit,
            entries: 0,
            owed: 0,
        }
    }

    /// Answers an operation of a seat, as `Account::apply`, and with its faults.
    #[inline(always)]
    pub fn apply(&mut self, seat: u32, op: Op) -> Result<Reply, AccountFault>
        requires { (ledger : Ledger) × IsTellerOf ledger self.old }
        ensures answered { IfOk result (λ reply. (ledger : Ledger) → IsTellerOf ledger self.old →
            reply ≡ answer_of ledger (asked_of op)) }
        ensures entered { IfOk result (λ reply. (ledger : Ledger) → IsTellerOf ledger self.old →
            IsTellerOf (entered ledger (entry_by seat (asked_of op) reply)) self.new) }
        ensures admitted { OnOk result ((ledger : Ledger) → IsTellerOf ledger self.old →
            refusal_of ledger (asked_of op) ≡ None) }
        ensures kept { OnErr result ((ledger : Ledger) → IsTellerOf ledger self.old →
            IsTellerOf ledger self.new) }
        ensures refused { IfErr result (λ fault. (ledger : Ledger) → IsTellerOf ledger self.old →
            IsRefusal ledger (asked_of op) fault) }
        ensures ungated { result ≢ Err AccountFault.GateClosed }
        ensures owed { (ledger : Ledger) → IsTellerOf ledger self.old →
            IsOwed (reverse ledger.history) (asked_of op) → IsOk result }
    {
        match self.admit(op) {
            Ok(admitted) => Ok(self.enter(seat, admitted)?.reply),
            Err(fault) => Err(fault),
        }
    }

    /// Judges an operation, as `Account::admit`.
    #[inline(always)]
    pub(crate) fn admit(&self, op: Op) -> Result<Admitted, AccountFault>
        requires { (ledger : Ledger) × IsTellerOf ledger self.now }
        ensures op { IfOk result (λ admitted. admitted.op ≡ op) }
        ensures admitted { IfOk result (λ admitted. (ledger : Ledger) →
            IsTellerOf ledger self.now → IsAdmitted ledger admitted) }
        ensures refused { IfErr result (λ fault. (ledger : Ledger) → IsTellerOf ledger self.now →
            refusal_of ledger (asked_of op) ≡ Some fault) }
        ensures ungated { result ≢ Err AccountFault.GateClosed }
        ensures owed { (ledger : Ledger) → IsTellerOf ledger self.now →
            IsOwed (reverse ledger.history) (asked_of op) → IsOk result }
    {
        let call = self.asked_state(&op);
        match judge(&op, &call, self.entries, self.owed, self.limit) {
            Some(fault) => Err(fault),
            None => Ok(Admitted { op, call }),
        }
    }

    /// The places that are owed once an operation that is admitted has its entry, and the place of
    /// that.
    #[inline(always)]
    pub(crate) fn places(&self, admitted: &Admitted) -> usize
        requires { (ledger : Ledger) × IsTellerOf ledger self.now }
        ensures { result
            ≡ self.now.owed + needed_by (known_of admitted.now.call) (asked_of admitted.now.op) }
    {
        self.owed + admitted.call.stage().needed(&admitted.op)
    }

    /// Answers an operation that is admitted, and gives its entry for a seat. The only error is
    /// out of memory, as in `Account::enter`.
    #[inline(always)]
    pub(crate) fn enter(&mut self, seat: u32, admitted: Admitted) -> Result<Entry, AllocError>
        requires { (ledger : Ledger) × Admits ledger self.old admitted }
        ensures entry { IfOk result (λ entry. (ledger : Ledger) →
            Admits ledger self.old admitted → entry_data entry ≡ entry_by seat
            (asked_of admitted.op) (answer_of ledger (asked_of admitted.op))) }
        ensures entered { IfOk result (λ entry. (ledger : Ledger) →
            Admits ledger self.old admitted →
            IsTellerOf (entered ledger (entry_data entry)) self.new) }
        ensures kept { OnErr result ((ledger : Ledger) → IsTellerOf ledger self.old →
            IsTellerOf ledger self.new) }
        ensures owed { (ledger : Ledger) → Admits ledger self.old admitted →
            IsOwed (reverse ledger.history) (asked_of admitted.op) → IsOk result }
    {
        let reply = self.reply_to(&admitted);
        let Admitted { op, call: before } = admitted;
        let entry = Entry { seat, op, reply };
        match op {
            Op::Credit { .. } => self.keep_credit(&entry),
            Op::Reserve { call, .. } | Op::Settle { call, .. } | Op::Return { call } => {
                self.keep_call(call, entry, before)?;
            }
        }
        Ok(entry)
    }

    /// What is known of the call that is asked for. A Credit is of none, so that nothing is looked
    /// up for it.
    #[inline(always)]
    fn asked_state(&self, op: &Op) -> CallState
        ensures { (ledger : Ledger) → IsTellerOf ledger self.now →
            known_of result ≡ known_asked (asked_of op.now) (reverse ledger.history) }
    {
        match *op {
            Op::Credit { .. } => CallState::Fresh,
            Op::Reserve { call, .. } | Op::Settle { call, .. } | Op::Return { call } => {
                self.tally.calls.state(call)
            }
        }
    }

    /// The answer to an operation that is admitted.
    #[inline(always)]
    fn reply_to(&self, admitted: &Admitted) -> Reply
        requires { (ledger : Ledger) × Admits ledger self.now admitted.now }
        ensures { (ledger : Ledger) → Admits ledger self.now admitted.now →
            result ≡ answer_of ledger (asked_of admitted.now.op) }
    {
        laws::legal_pasts_are_sound();
        let Tally {
            funds,
            available,
            last_moment,
            ..
        } = self.tally;
        reply(admitted.op, &admitted.call, funds, available, last_moment)
    }

    /// Keeps what a Credit changes.
    #[inline(always)]
    fn keep_credit(&mut self, entry: &Entry)
        requires credit { IsCredit (asked_of entry.now.op) }
        requires of { (ledger : Ledger) × IsAnsweredByTeller ledger self.old entry.now }
        ensures { (ledger : Ledger) → IsAnsweredByTeller ledger self.old entry.now →
            IsTellerOf (entered ledger (entry_data entry.now)) self.new }
    {
        laws::legal_pasts_are_sound();
        self.tally.count(entry);
        self.entries += 1;
    }

    /// Keeps what an operation of a call changes.
    #[inline(always)]
    fn keep_call(&mut self, call: u64, entry: Entry, before: CallState) -> Result<(), AllocError>
        requires of_call { IsOfCall call (asked_of entry.op) }
        requires of { (ledger : Ledger) × IsAnsweredByTeller ledger self.old entry ×
            (known_of before ≡ known call (reverse ledger.history)) }
        ensures ok { OnOk result ((ledger : Ledger) → IsAnsweredByTeller ledger self.old entry →
            known_of before ≡ known call (reverse ledger.history) →
            IsTellerOf (entered ledger (entry_data entry)) self.new) }
        ensures kept { OnErr result ((ledger : Ledger) → IsTellerOf ledger self.old →
            IsTellerOf ledger self.new) }
        ensures owed { (ledger : Ledger) → IsAnsweredByTeller ledger self.old entry →
            IsOwed (reverse ledger.history) (asked_of entry.op) → IsOk result }
    {
        laws::legal_pasts_are_sound();
        let after = before.after(entry.op, entry.reply);
        self.tally.calls.renew(call, after)?;
        self.tally.available = entry.reply.available();
        self.owed = self.owed + after.stage().owed() - before.stage().owed();
        self.entries += 1;
        Ok(())
    }
}
