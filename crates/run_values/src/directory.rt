//! The accounts and the subscribers that a run is set up with, judged one by one.

ghost use Rattle.std.specs.Prelude.{◌≡◌, ◌≢◌, ◌+◌, None, Some, true, length, is_some, All, IfErr, IfOk, OnErr, OnOk};
ghost use Rattle.std.specs.List.Sorted.{IsStrictlySortedBy};
ghost use Rattle.std.specs.Map.{keys_of};
ghost use Rattle.std.specs.Ordering.{nat_cmp};
ghost use Rattle.run_values.specs.Openings.{opening_is_in_range};
ghost use Rattle.run_values.specs.Setups.{account_fault, account_of, has_account, nothing, subscriber_fault, with_account, with_subscriber};

use crate::SetupFault;
use cap_values::Number;
use price_core::{MAX_MOMENT, MAX_MONEY};
use std::alloc::{AllocError, Global};
use std::collections::BTreeMap;
use std::marker::Model;

/// The accounts and the subscribers of a run, each of them judged as it came: no number is there
/// twice, each opening credit is in its range, and each subscriber has one of the accounts.
#[derive(Drop)]
pub struct Directory {
    accounts: BTreeMap<u32, OpeningCredit>,
    subscribers: BTreeMap<Number, u32>,
}

impl Model for Directory {
    ghost use Rattle.std.specs.Prelude.{◌≡◌, true, All};
    ghost use Rattle.std.specs.Map.{values_of};
    ghost use Rattle.run_values.specs.Openings.{opening_is_in_range};
    ghost use Rattle.run_values.specs.Setups.{Listing};

    ghost Value = { Listing };

    ghost view = { λ d. record {
      accounts = d.accounts.entries;
      subscribers = d.subscribers.entries;
    } };

    ghost invariant = { λ d. All (λ opening. opening_is_in_range opening ≡ true)
        (values_of d.accounts.entries) };
}

impl Directory {
    /// A directory without accounts and subscribers. It takes no memory yet.
    pub fn new(alloc: Global) -> Directory
        ensures { result ≡ nothing }
    {
        Directory {
            accounts: BTreeMap::new(alloc),
            subscribers: BTreeMap::new(alloc),
        }
    }

    /// Lists an account with its opening credit.
    ///
    /// `OutOfRange` comes where the credit is above `MAX_MONEY`, or its last moment above
    /// `MAX_MOMENT`, then `Repeated` where the account is there already. After a fault the
    /// directory is as before.
    pub fn account(&mut self, number: u32, opening: OpeningCredit) -> Result<(), SetupFault>
        ensures made { OnOk result
            (account_fault (has_account number self.old.accounts) opening ≡ None) }
        ensures listed { OnOk result (self.new ≡ with_account self.old number opening) }
        ensures count { OnOk result (length self.new.accounts ≡ length self.old.accounts + 1) }
        ensures fault { IfErr result (λ fault. fault ≢ SetupFault.OutOfMemory
            → account_fault (has_account number self.old.accounts) opening ≡ Some fault) }
        ensures unchanged { OnErr result (self.new ≡ self.old) }
    {
        if !opening.is_in_range() {
            return Err(SetupFault::OutOfRange);
        }
        if self.accounts.contains_key(&number) {
            return Err(SetupFault::Repeated);
        }
        self.accounts.insert(number, opening)?;
        Ok(())
    }

    /// Lists a subscriber with its account.
    ///
    /// `Repeated` comes where the number is there already, then `Unknown` where the account isn't
    /// there. After a fault the directory is as before.
    pub fn subscriber(&mut self, number: Number, account: u32) -> Result<(), SetupFault>
        ensures made { OnOk result (subscriber_fault (is_some
            (account_of number self.old.subscribers)) (has_account account self.old.accounts)
            ≡ None) }
        ensures listed { OnOk result (self.new ≡ with_subscriber self.old number account) }
        ensures count { OnOk result
            (length self.new.subscribers ≡ length self.old.subscribers + 1) }
        ensures fault { IfErr result (λ fault. fault ≢ SetupFault.OutOfMemory
            → subscriber_fault (is_some (account_of number self.old.subscribers))
            (has_account account self.old.accounts) ≡ Some fault) }
        ensures unchanged { OnErr result (self.new ≡ self.old) }
    {
        if self.subscribers.contains_key(&number) {
            return Err(SetupFault::Repeated);
        }
        if !self.accounts.contains_key(&account) {
            return Err(SetupFault::Unknown);
        }
        self.subscribers.insert(number, account)?;
        Ok(())
    }

    /// Whether an account is there.
    pub fn has_account(&self, number: u32) -> bool
        ensures { result ≡ has_account number self.now.accounts }
    {
        self.accounts.contains_key(&number)
    }

    /// How many accounts there are.
    pub fn account_count(&self) -> usize
        ensures { result ≡ length self.now.accounts }
    {
        self.accounts.len()
    }

    /// The accounts with their opening credits, and the subscribers with their accounts.
    pub(crate) fn into_parts(
        self,
        alloc: Global,
    ) -> Result<(Vec<(u32, OpeningCredit)>, BTreeMap<Number, u32>), AllocError>
        ensures accounts { IfOk result (λ parts. parts.0.items ≡ self.accounts) }
        ensures ordered { IfOk result
            (λ parts. IsStrictlySortedBy nat_cmp (keys_of parts.0.items)) }
        ensures range { IfOk result
            (λ parts. All (λ account. opening_is_in_range account.1 ≡ true) parts.0.items) }
        ensures subscribers { IfOk result (λ parts. parts.1.entries ≡ self.subscribers) }
    {
        let Directory {
            accounts,
            subscribers,
        } = self;
        Ok((ascending(alloc, &accounts)?, subscribers))
    }
}

/// The entries of a map, in ascending order.
fn ascending(
    alloc: Global,
    accounts: &BTreeMap<u32, OpeningCredit>,
) -> Result<Vec<(u32, OpeningCredit)>, AllocError>
    ensures items { IfOk result (λ ascending. ascending.items ≡ accounts.now.entries) }
    ensures ordered { IfOk result
        (λ ascending. IsStrictlySortedBy nat_cmp (keys_of ascending.items)) }
{
    let mut ascending = Vec::new(alloc);
    for (number, opening) in accounts {
        ascending.push((*number, *opening))?;
    }
    Ok(ascending)
}

/// What an account is opened with: its credit, and the last moment at which that grants anything.
#[derive(Clone, Copy, Debug, PartialEq, Eq)]
pub struct OpeningCredit {
    /// How much, in units of money.
    pub amount: u64,
    /// The last moment, in units of 100 ms; none where the credit doesn't expire.
    pub until: Option<u64>,
}

impl OpeningCredit {
    /// Whether the amount is at most `MAX_MONEY`, and the last moment at most `MAX_MOMENT`.
    pub(crate) fn is_in_range(&self) -> bool
        ensures { result ≡ opening_is_in_range self.now }
    {
        let expires_in_time = match self.until {
            Some(until) => until <= MAX_MOMENT,
            None => true,
        };
        self.amount <= MAX_MONEY && expires_in_time
    }
}
