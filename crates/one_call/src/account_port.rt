//! A port to an account.

ghost use Rattle.std.specs.Prelude.{◌≡◌, ◌≢◌, ◌++◌, ◌∷◌, [], IfSome, ℕ, None, Option, Some, reverse, IfOk, IfErr, IsOk, OnErr, OnOk};
ghost use Rattle.account_core.specs.Entries.{asked_of};
ghost use Rattle.account_core.specs.Known.{CallFacts, known};
ghost use Rattle.account_core.specs.Standing.{MovesCall};
ghost use Rattle.account_core.specs.Ledger.{IsRefusal, answer_of, entry_by, refusal_of};
ghost use Rattle.account_core.specs.Places.{IsOwed};

use account_core::{Account, AccountFault, Op, Reply, answers_fit_their_operations};

/// Takes the operations of calls, for an account that is behind it.
///
/// A port may state what it keeps of a call, and then moves it as an account's history would. That
/// is all that an account knows of it: beside its plan, its times, the total granted and whether it
/// forfeited, also what is held for it, whether it was returned, and whether a report is awaited. A
/// port that others move too, as they share its account, can't state it.
pub trait Port {
    ghost state: { Self → ℕ → Option CallFacts } = { λ _ _. None };

    /// Asks the account, and gives its reply or its refusal.
    fn ask(&mut self, op: Op) -> Result<Reply, AccountFault>
        ensures moves { (call : ℕ) → IfSome (state self.old call)
            (λ before. MovesCall call before (asked_of op) result (state self.new call)) };
}

/// An account with the number of the seat that asks it. Nobody else asks it, so that it states
/// what it keeps of each call.
#[derive(Drop)]
pub struct AccountPort {
    /// The account.
    pub account: Account,
    /// The seat that its entries name.
    pub seat: u32,
}

impl AccountPort {
    /// A port to this account, for this seat.
    pub fn new(account: Account, seat: u32) -> AccountPort
        ensures account { result.account ≡ account }
        ensures seat { result.seat ≡ seat }
    {
        AccountPort { account, seat }
    }
}

impl Port for AccountPort {
    ghost state = { λ port call. Some (known call (reverse port.account.history)) };

    /// Asks the account, as `Account::apply` with the seat's number.
    fn ask(&mut self, op: Op) -> Result<Reply, AccountFault>
        ensures answered { IfOk result (λ reply. reply ≡ answer_of self.old.account (asked_of op)) }
        ensures entered { IfOk result (λ reply. self.new.account ≡
            record self.old.account {
              history = self.old.account.history
                  ++ entry_by self.old.seat (asked_of op) reply ∷ [];
            }) }
        ensures admitted { OnOk result (refusal_of self.old.account (asked_of op) ≡ None) }
        ensures kept { OnErr result (self.new.account ≡ self.old.account) }
        ensures refused { IfErr result (λ fault. IsRefusal self.old.account (asked_of op) fault) }
        ensures ungated { result ≢ Err AccountFault.GateClosed }
        ensures owed { IsOwed (reverse self.old.account.history) (asked_of op) → IsOk result }
        ensures seat { self.new.seat ≡ self.old.seat }
        ensures moves { (call : ℕ) → MovesCall call (known call (reverse self.old.account.history))
            (asked_of op) result
            (Some (known call (reverse self.new.account.history))) }
    {
        answers_fit_their_operations();
        // For its clauses: the history is legal.
        let _entries = self.account.history();
        self.account.apply(self.seat, op)
    }
}
