//! Books of accounts that were closed.

ghost use Rattle.std.specs.Prelude.{◌≡◌, ◌≤◌, map, reverse, length, IfOk};
ghost use Rattle.account_core.specs.Answers.{IsLegal};
ghost use Rattle.account_core.specs.Available.{available};
ghost use Rattle.account_core.specs.Entries.{entry_data};
ghost use Rattle.account_core.specs.Sums.{AreSums};

use crate::{Account, CallSum, Entry};
use price_core::MAX_MONEY;
use std::alloc::{AllocError, Global};
use std::marker::Model;

/// The book of an account that was closed: its history, which is legal. A form of a shared account
/// makes it when it is closed, by `Book::new`.
pub struct Book {
    number: u32,
    account: Account,
}

// Written out, since a derived one is proved field by field again wherever a book is let go.
impl Drop for Book {
    fn drop(self) {
        let Book {
            number: _number,
            account: _account,
        } = self;
    }
}

impl Model for Book {
    ghost use Rattle.std.specs.Prelude.{◌≤◌, length};
    ghost use Rattle.account_core.specs.Closed.{Closed};

    ghost Value = { Closed };

    ghost view = { λ b. record {
      account = b.number;
      opening = b.account.opening;
      until = b.account.until;
      limit = b.account.limit;
      history = b.account.history;
    } };

    ghost invariant = { λ b. length b.account.history ≤ b.account.limit };
}

impl Book {
    /// The book of an account with this number. Whoever writes another form of a shared account
    /// closes it with this.
    pub fn new(number: u32, account: Account) -> Book
        requires { length account.history ≤ account.limit }
        ensures { result ≡ record {
          account = number;
          opening = account.opening;
          until = account.until;
          limit = account.limit;
          history = account.history;
        } }
    {
        Book { number, account }
    }

    /// The account's number.
    pub fn account(&self) -> u32
        ensures { result ≡ self.now.account }
    {
        self.number
    }

    /// The credit that it was opened with.
    pub fn opening(&self) -> u64
        ensures { result ≡ self.now.opening }
    {
        self.account.opening()
    }

    /// The last moment that it was opened with, if it has one.
    pub fn until(&self) -> Option<u64>
        ensures { result ≡ self.now.until }
    {
        self.account.until()
    }

    /// How many entries its history might have grown to. It never has more.
    pub fn limit(&self) -> u32
        ensures { result ≡ self.now.limit }
    {
        self.account.limit()
    }

    /// The entries, oldest first. They are a legal history of an account that was opened with at
    /// most `MAX_MONEY`, and no more than its limit.
    pub fn history(&self) -> &[Entry]
        ensures value { map entry_data result.now ≡ self.now.history }
        ensures legal { IsLegal self.now.opening self.now.until self.now.history }
        ensures small { self.now.opening ≤ MAX_MONEY }
        ensures within_limit { length self.now.history ≤ self.now.limit }
    {
        self.account.history()
    }

    /// What the account came to, and each call that it granted anything.
    pub fn summary(&self, alloc: Global) -> Result<Summary, AllocError>
        ensures account { IfOk result (λ summary. summary.account ≡ self.now.account) }
        ensures opening { IfOk result (λ summary. summary.opening ≡ self.now.opening) }
        ensures available { IfOk result (λ summary.
            summary.available ≡ available self.now.opening (reverse self.now.history)) }
        ensures entries { IfOk result (λ summary. summary.entries ≡ length self.now.history) }
        ensures calls { IfOk result
            (λ summary. AreSums (reverse self.now.history) summary.calls.items) }
    {
        let calls = self.account.sums(alloc)?;
        Ok(Summary {
            account: self.account(),
            opening: self.opening(),
            available: self.account.available(),
            entries: self.history().len(),
            calls,
        })
    }
}

/// What an account came to. Amounts are in units of money.
#[derive(Drop)]
pub struct Summary {
    /// The account's number.
    pub account: u32,
    /// The credit that it was opened with.
    pub opening: u64,
    /// The credit that is left.
    pub available: u64,
    /// How many entries its history has.
    pub entries: usize,
    /// The calls that were granted anything, by rising number.
    pub calls: Vec<CallSum>,
}
