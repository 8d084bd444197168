//! What a legal history comes to.

ghost use Rattle.std.specs.Prelude.{◌≡◌, ◌+◌, ◌≤◌, ◌∷◌, [], ℕ, List, None, Option, OnErr, IfOk, IfSome};
ghost use Rattle.account_core.specs.Answers.{shown_by};
ghost use Rattle.account_core.specs.Asked.{call_of};
ghost use Rattle.account_core.specs.Available.{credited};
ghost use Rattle.account_core.specs.Entries.{entry_data, EntryData, asked_of};
ghost use Rattle.account_core.specs.Expiry.{last_moment_after};
ghost use Rattle.account_core.specs.Known.{known, nothing_known};
ghost use Rattle.account_core.specs.Tallied.{IsTallied, tally_of};
ghost use Rattle.account_core.specs.Wrong.{IsWrong};

use crate::call_state::{CallState, inadmissible, reply};
use crate::call_states::CallStates;
use crate::{AccountFault, Entry, Reply, laws};
use price_core::MAX_MONEY;
use std::alloc::{AllocError, Global};

/// What an account answers an operation: its reply, or why it refuses it.
pub(crate) type Response = Result<Reply, AccountFault>;

/// What a legal history comes to: the state of each call, the opening with the accepted credits,
/// the credit that is left, and the last moment, if there is one. The history itself isn't kept:
/// each clause speaks of every history that comes to this.
#[derive(Drop)]
pub(crate) struct Tally {
    pub calls: CallStates,
    pub funds: u64,
    pub available: u64,
    pub last_moment: Option<u64>,
}

impl Tally {
    /// That of the empty history.
    pub fn new(alloc: Global, opening: u64, until: Option<u64>) -> Tally
        requires { opening ≤ MAX_MONEY }
        ensures { IsTallied opening until [] result }
    {
        Tally {
            calls: CallStates::new(alloc),
            funds: opening,
            available: opening,
            last_moment: until,
        }
    }

    /// Adds an entry to those so far where it is legal after them, and else gives what an account
    /// answers in its place. Memory is taken where the entry's call is new.
    #[inline(always)]
    pub fn hear(&mut self, entry: Entry) -> Result<Option<Response>, AllocError>
        requires { (opening : ℕ) × (until : Option ℕ) × (h : List EntryData)
            × IsTallied opening until h self.old }
        ensures legal { IfOk result (λ wrong. wrong ≡ None
            → (opening : ℕ) (until : Option ℕ) (h : List EntryData) →
            IsTallied opening until h self.old
            → IsTallied opening until (entry_data entry ∷ h) self.new) }
        ensures wrong { IfOk result (λ wrong. IfSome wrong (λ right.
            (opening : ℕ) (until : Option ℕ) (h : List EntryData) →
            IsTallied opening until h self.old
            → IsWrong opening until h (entry_data entry) right)) }
        ensures kept { OnErr result ((opening : ℕ) (until : Option ℕ) (h : List EntryData) →
            IsTallied opening until h self.old → IsTallied opening until h self.new) }
        ensures fresh { OnErr result ((opening : ℕ) (until : Option ℕ) (h : List EntryData) →
            IsTallied opening until h self.old → known (call_of (asked_of entry.op)) h
            ≡ nothing_known) }
    {
        laws::legal_pasts_are_sound();
        let call = entry.op.call();
        let state = self.calls.state(call);
        if let Some(fault) = inadmissible(&entry.op, &state) {
            return Ok(Some(Err(fault)));
        }
        let right = reply(
            entry.op,
            &state,
            self.funds,
            self.available,
            self.last_moment,
        );
        if right != entry.reply {
            return Ok(Some(Ok(right)));
        }
        self.calls.renew(call, state.after(entry.op, right))?;
        self.count(&entry);
        Ok(None)
    }

    /// Adds an entry to the totals, and to the last moment.
    #[inline(always)]
    pub fn count(&mut self, entry: &Entry)
        requires { self.old.funds + credited (asked_of entry.now.op) entry.now.reply ≤ MAX_MONEY }
        ensures { self.new ≡ tally_of self.old.calls
            (self.old.funds + credited (asked_of entry.now.op) entry.now.reply)
            (shown_by entry.now.reply)
            (last_moment_after self.old.last_moment (asked_of entry.now.op) entry.now.reply) }
    {
        self.funds += entry.credited();
        self.available = entry.reply.available();
        self.last_moment = entry.last_moment(self.last_moment);
    }
}
