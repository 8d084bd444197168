//! The sequential account.

ghost use Rattle.std.specs.Prelude.{◌≡◌, ◌≢◌, ◌≤◌, ◌++◌, ◌∷◌, [], None, Some, map, reverse, IsOk, OnOk, OnErr, IfOk, IfErr};
ghost use Rattle.account_core.specs.Admitting.{IsAdmitted};
ghost use Rattle.account_core.specs.Answers.{IsLegal};
ghost use Rattle.account_core.specs.Available.{available};
ghost use Rattle.account_core.specs.Entries.{asked_of, entry_data};
ghost use Rattle.account_core.specs.Known.{known, paid_if_granted};
ghost use Rattle.account_core.specs.Ledger.{IsRefusal, Ledger, answer_of, entry_by, refusal_of};
ghost use Rattle.account_core.specs.Places.{IsOwed};
ghost use Rattle.account_core.specs.Sums.{AreSums};

use crate::teller::Teller;
use crate::{AccountFault, Admitted, CallSum, Entry, Op, Reply};
use price_core::MAX_MONEY;
use std::alloc::{AllocError, Global};
use std::marker::Model;

/// An account: a history of entries, each the one right answer of a sequential account in its
/// place.
///
/// Beside its entries it keeps what they come to. It keeps room in memory for the places that are
/// owed for closing the open calls, so that a Return of an open call, and its first Settle since
/// its last grant, always succeed.
pub struct Account {
    entries: Vec<Entry>,
    opening: u64,
    until: Option<u64>,
    teller: Teller,
}

// Written out, since a derived one is proved field by field again wherever an account is let go.
impl Drop for Account {
    fn drop(self) {
        let Account {
            entries: _entries,
            opening: _opening,
            until: _until,
            teller: _teller,
        } = self;
    }
}

impl Model for Account {
    ghost use Rattle.std.specs.Prelude.{map};
    ghost use Rattle.std.specs.Vec.{vec_capacity};
    ghost use Rattle.account_core.specs.Entries.{entry_data};
    ghost use Rattle.account_core.specs.Ledger.{Ledger};
    ghost use Rattle.account_core.specs.Tellers.{IsKeptTeller};

    ghost Value = { Ledger };

    ghost view = { λ a. record {
      opening = a.opening;
      until = a.until;
      limit = a.teller.limit;
      history = map entry_data a.entries.items;
    } };

    ghost invariant = { λ a. IsKeptTeller (record {
      opening = a.opening;
      until = a.until;
      limit = a.teller.limit;
      history = map entry_data a.entries.items;
    }) a.teller (vec_capacity a.entries) };
}

impl Account {
    /// An account with an opening credit of 0 to `MAX_MONEY`, a last moment, if it has one, an
    /// empty history, and the number of entries that this may grow to. It takes no memory yet.
    pub fn new(alloc: Global, opening: u64, until: Option<u64>, limit: u32) -> Account
        requires { opening ≤ MAX_MONEY }
        ensures { result
            ≡ record { opening = opening; until = until; limit = limit; history = [] } }
    {
        Account {
            entries: Vec::new(alloc),
            opening,
            until,
            teller: Teller::new(alloc, opening, until, limit),
        }
    }

    /// Asks the account for a seat, and enters the operation with its answer.
    ///
    /// A fault changes nothing. An operation that isn't admissible is `OutOfRange`, `NotOpen` or
    /// `CallUsed`, in that order; then `HistoryFull` where its entry, the places owed and those
    /// that it needs pass the limit; then `OutOfMemory`. A Return of an open call, and its first
    /// Settle since its last grant, always succeed.
    #[inline(always)]
    pub fn apply(&mut self, seat: u32, op: Op) -> Result<Reply, AccountFault>
        ensures answered { IfOk result (λ reply. reply ≡ answer_of self.old (asked_of op)) }
        ensures entered { IfOk result (λ reply. self.new ≡
            record self.old {
              history = self.old.history ++ entry_by seat (asked_of op) reply
                  ∷ [];
            }) }
        ensures admitted { OnOk result (refusal_of self.old (asked_of op) ≡ None) }
        ensures kept { OnErr result (self.new ≡ self.old) }
        ensures refused { IfErr result (λ fault. IsRefusal self.old (asked_of op) fault) }
        ensures ungated { result ≢ Err AccountFault.GateClosed }
        ensures owed { IsOwed (reverse self.old.history) (asked_of op) → IsOk result }
    {
        match self.admit(op) {
            Ok(admitted) => Ok(self.enter(seat, admitted)?),
            Err(fault) => Err(fault),
        }
    }

    /// Judges an operation: the first half of `apply`, for a caller that has its own room to make
    /// before the second. A fault is as in `apply`, but for `OutOfMemory`.
    #[inline(always)]
    pub fn admit(&self, op: Op) -> Result<Admitted, AccountFault>
        ensures admitted { IfOk result (λ admitted.
            (admitted.op ≡ op) × IsAdmitted self.now admitted) }
        ensures refused { IfErr result (λ fault. refusal_of self.now (asked_of op) ≡ Some fault) }
        ensures ungated { result ≢ Err AccountFault.GateClosed }
        ensures owed { IsOwed (reverse self.now.history) (asked_of op) → IsOk result }
    {
        self.teller.admit(op)
    }

    /// Answers an operation that the account admits as it is, and enters it for a seat: the second
    /// half of `apply`. The only error is out of memory, which changes nothing, and which a Return
    /// of an open call, and its first Settle since its last grant, never meet.
    #[inline(always)]
    pub fn enter(&mut self, seat: u32, admitted: Admitted) -> Result<Reply, AllocError>
        requires { IsAdmitted self.old admitted }
        ensures answered { IfOk result (λ reply. reply
            ≡ answer_of self.old (asked_of admitted.op)) }
        ensures entered { IfOk result (λ reply. self.new ≡ record self.old {
          history = self.old.history ++ entry_by seat (asked_of admitted.op) reply ∷ [];
        }) }
        ensures kept { OnErr result (self.new ≡ self.old) }
        ensures owed { IsOwed (reverse self.old.history) (asked_of admitted.op)
            → IsOk result }
    {
        self.entries.try_reserve(self.teller.places(&admitted))?;
        let entry = self.teller.enter(seat, admitted)?;
        self.entries.push_reserved(entry);
        Ok(entry.reply)
    }

    /// The entries, oldest first. They are a legal history.
    pub fn history(&self) -> &[Entry]
        ensures value { map entry_data result.now ≡ self.now.history }
        ensures legal { IsLegal self.now.opening self.now.until self.now.history }
        ensures small { self.now.opening ≤ MAX_MONEY }
    {
        self.entries.as_slice()
    }

    /// The credit that it was opened with.
    pub fn opening(&self) -> u64
        ensures { result ≡ self.now.opening }
    {
        self.opening
    }

    /// The last moment that it was opened with, if it has one.
    pub fn until(&self) -> Option<u64>
        ensures { result ≡ self.now.until }
    {
        self.until
    }

    /// How many entries its history may grow to.
    pub fn limit(&self) -> u32
        ensures { result ≡ self.now.limit }
    {
        self.teller.limit
    }

    /// The credit that is left.
    pub fn available(&self) -> u64
        ensures { result ≡ available self.now.opening (reverse self.now.history) }
    {
        self.teller.tally.available
    }

    /// What a call has paid so far, or none where it was never granted anything.
    pub fn paid(&self, call: u64) -> Option<u64>
        ensures { result ≡ paid_if_granted (known call (reverse self.now.history)) }
    {
        self.teller.tally.calls.state(call).paid_if_granted()
    }

    /// The calls that were granted anything, by rising number, with what each has paid so far and
    /// what has become of it.
    pub fn sums(&self, alloc: Global) -> Result<Vec<CallSum>, AllocError>
        ensures { IfOk result (λ sums. AreSums (reverse self.now.history) sums.items) }
    {
        self.teller.tally.calls.sums(alloc)
    }
}
