//! What a run is set up with.

ghost use Rattle.std.specs.Prelude.{◌≡◌, ◌≢◌, ◌≤◌, ℕ, None, Some, true, length, if◌then◌else◌, All, IfOk, IfErr, IfNone, IfSome, OnOk, ◌<◌};
ghost use Rattle.std.specs.List.{HoldsAt};
ghost use Rattle.std.specs.List.Sorted.{IsStrictlySortedBy};
ghost use Rattle.std.specs.Map.{keys_of};
ghost use Rattle.std.specs.Ordering.{nat_cmp};
ghost use Rattle.run_values.specs.Openings.{opening_is_in_range};
ghost use Rattle.run_values.specs.Setups.{place_of};
ghost use Rattle.run_values.specs.Setups.{AreAscending, ListingIsWithin, account_of, counts_fault, items_fault, opening_of, setup_fault};

use crate::{Directory, OpeningCredit, SetupFault};
use account_core::{MAX_LIMIT, MIN_LIMIT};
use cap_values::Number;
use dialogue_core::ServiceConfig;
use price_core::MAX_MONEY;
use std::alloc::{AllocError, Global};
use std::collections::BTreeMap;
use std::marker::Model;
use tariff_core::Tariff;

/// How many accounts a run may have.
pub const MAX_ACCOUNTS: usize = 1_000;

/// How many subscribers a run may have.
pub const MAX_SUBSCRIBERS: usize = 10_000;

/// What a run is set up with: the accounts in ascending order of their numbers, the subscribers,
/// the tariff, what the service asks for, and the history limit of each account.
pub struct RunSetup {
    accounts: Vec<(u32, OpeningCredit)>,
    subscribers: BTreeMap<Number, u32>,
    tariff: Tariff,
    service: ServiceConfig,
    limit: u32,
}

// Written out, since a derived one is proved field by field again wherever a setup is let go.
impl Drop for RunSetup {
    fn drop(self) {
        let RunSetup {
            accounts: _accounts,
            subscribers: _subscribers,
            tariff: _tariff,
            service: _service,
            limit: _limit,
        } = self;
    }
}

impl Model for RunSetup {
    ghost use Rattle.std.specs.Prelude.{◌≡◌, true, All};
    ghost use Rattle.std.specs.List.Sorted.{IsStrictlySortedBy};
    ghost use Rattle.std.specs.Map.{keys_of};
    ghost use Rattle.std.specs.Ordering.{nat_cmp};
    ghost use Rattle.run_values.specs.Setups.{Setup};
    ghost use Rattle.run_values.specs.Openings.{opening_is_in_range};

    ghost Value = { Setup };

    ghost view = { λ s. record {
      accounts = s.accounts.items;
      subscribers = s.subscribers.entries;
      tariff = s.tariff;
      service = s.service;
      limit = s.limit;
    } };

    ghost invariant = { λ s. IsStrictlySortedBy nat_cmp (keys_of s.accounts.items)
        × All (λ account. opening_is_in_range account.1 ≡ true) s.accounts.items };
}

impl RunSetup {
    /// The setup of these accounts, each a number and an opening credit of 0 to `MAX_MONEY`, with a
    /// last moment of 0 to `MAX_MOMENT` or none; of these subscribers, each a number and one of
    /// the accounts; and of a limit of `MIN_LIMIT` to `MAX_LIMIT`. At most 1,000 accounts and
    /// 10,000 subscribers; there may be none.
    ///
    /// The limit and the counts are judged first, then the accounts in order, then the subscribers
    /// in order; of one item OutOfRange, Repeated, Unknown. OutOfMemory comes where it happens: at
    /// the first item that there is no room for, where no earlier one has a fault.
    pub fn new(
        alloc: Global,
        accounts: &[(u32, OpeningCredit)],
        subscribers: &[(Number, u32)],
        tariff: Tariff,
        service: ServiceConfig,
        limit: u32,
    ) -> Result<RunSetup, SetupFault>
        ensures made { OnOk result (setup_fault limit accounts.now subscribers.now ≡ None) }
        ensures accounts { IfOk result (λ setup. AreAscending accounts.now setup.accounts) }
        ensures subscribers { IfOk result (λ setup. (number : Number)
            → account_of number setup.subscribers ≡ account_of number subscribers.now) }
        ensures tariff { IfOk result (λ setup. setup.tariff ≡ tariff) }
        ensures service { IfOk result (λ setup. setup.service ≡ service) }
        ensures limit { IfOk result (λ setup. setup.limit ≡ limit) }
        ensures fault { IfErr result (λ fault. fault ≢ SetupFault.OutOfMemory
            → setup_fault limit accounts.now subscribers.now ≡ Some fault) }
        ensures memory { result ≡ Err SetupFault.OutOfMemory
            → counts_fault limit (length accounts.now) (length subscribers.now) ≡ None }
    {
        if !are_in_range(limit, accounts.len(), subscribers.len()) {
            return Err(SetupFault::OutOfRange);
        }
        let directory = list(alloc, accounts, subscribers)?;
        Ok(RunSetup::of(alloc, directory, tariff, service, limit)?)
    }

    /// The setup of a directory with at most `MAX_ACCOUNTS` accounts and `MAX_SUBSCRIBERS`
    /// subscribers, and of a limit of `MIN_LIMIT` to `MAX_LIMIT`. The only error is out of memory.
    pub fn of(
        alloc: Global,
        directory: Directory,
        tariff: Tariff,
        service: ServiceConfig,
        limit: u32,
    ) -> Result<RunSetup, AllocError>
        requires within { ListingIsWithin directory }
        requires least { MIN_LIMIT ≤ limit }
        requires most { limit ≤ MAX_LIMIT }
        ensures accounts { IfOk result (λ setup. setup.accounts ≡ directory.accounts) }
        ensures ordered { IfOk result
            (λ setup. IsStrictlySortedBy nat_cmp (keys_of setup.accounts)) }
        ensures subscribers { IfOk result (λ setup. setup.subscribers ≡ directory.subscribers) }
        ensures tariff { IfOk result (λ setup. setup.tariff ≡ tariff) }
        ensures service { IfOk result (λ setup. setup.service ≡ service) }
        ensures limit { IfOk result (λ setup. setup.limit ≡ limit) }
    {
        let (accounts, subscribers) = directory.into_parts(alloc)?;
        Ok(RunSetup {
            accounts,
            subscribers,
            tariff,
            service,
            limit,
        })
    }

    /// The account of a calling number, none where it isn't a subscriber's.
    pub fn account_of(&self, calling: Number) -> Option<u32>
        ensures { result ≡ account_of calling self.now.subscribers }
    {
        self.subscribers.get(&calling).copied()
    }

    /// How many accounts there are.
    pub fn account_count(&self) -> usize
        ensures { result ≡ length self.now.accounts }
    {
        self.accounts.len()
    }

    /// The accounts by rising number, each with its opening credit of 0 to `MAX_MONEY` and a last
    /// moment of 0 to `MAX_MOMENT`, if it has one.
    pub fn accounts(&self) -> &[(u32, OpeningCredit)]
        ensures value { result.now ≡ self.now.accounts }
        ensures ordered { IsStrictlySortedBy nat_cmp (keys_of self.now.accounts) }
        ensures range { All (λ account. opening_is_in_range account.1 ≡ true) self.now.accounts }
    {
        self.accounts.as_slice()
    }

    /// The number of the account at a place of the ascending order.
    pub fn number(&self, place: usize) -> u32
        requires { place < length self.now.accounts }
        ensures { HoldsAt (λ account. account.0 ≡ result) self.now.accounts place }
    {
        self.accounts[place].0
    }

    /// The opening credit of the account at a place of the ascending order.
    pub fn opening(&self, place: usize) -> OpeningCredit
        requires { place < length self.now.accounts }
        ensures value { HoldsAt (λ account. account.1 ≡ result) self.now.accounts place }
        ensures range { result.amount ≤ MAX_MONEY }
    {
        self.accounts[place].1
    }

    /// The place of an account in the ascending order, none where there is no such account.
    pub fn place_of(&self, account: u32) -> Option<usize>
        ensures within { IfSome result (λ place. place < length self.now.accounts) }
        ensures found { IfSome result
            (HoldsAt (λ entry. entry.0 ≡ account) self.now.accounts) }
        ensures missing { IfNone result (opening_of account self.now.accounts ≡ None) }
        ensures place { result ≡ place_of account self.now }
    {
        match self
            .accounts
            .binary_search_by_key(&account, |entry| entry.0)
        {
            Ok(place) => Some(place),
            Err(_) => None,
        }
    }

    /// What the service asks an account for.
    pub fn service(&self) -> ServiceConfig
        ensures { result ≡ self.now.service }
    {
        self.service
    }

    /// The tariff.
    pub fn tariff(&self) -> &Tariff
        ensures { result.now ≡ self.now.tariff }
    {
        &self.tariff
    }

    /// The number of entries that the history of each account may grow to.
    pub fn limit(&self) -> u32
        ensures { result ≡ self.now.limit }
    {
        self.limit
    }
}

/// Whether a limit and the counts of accounts and subscribers are in their ranges.
fn are_in_range(limit: u32, accounts: usize, subscribers: usize) -> bool
    ensures { counts_fault limit accounts subscribers
        ≡ (if result then None else Some SetupFault.OutOfRange) }
{
    MIN_LIMIT <= limit
        && limit <= MAX_LIMIT
        && accounts <= MAX_ACCOUNTS
        && subscribers <= MAX_SUBSCRIBERS
}

/// The directory of these accounts and subscribers, where nothing is wrong with them.
fn list(
    alloc: Global,
    accounts: &[(u32, OpeningCredit)],
    subscribers: &[(Number, u32)],
) -> Result<Directory, SetupFault>
    ensures made { OnOk result (items_fault accounts.now subscribers.now ≡ None) }
    ensures accounts { IfOk result (λ listing. (account : ℕ)
        → opening_of account listing.accounts ≡ opening_of account accounts.now) }
    ensures subscribers { IfOk result (λ listing. (number : Number)
        → account_of number listing.subscribers ≡ account_of number subscribers.now) }
    ensures account_count { IfOk result
        (λ listing. length listing.accounts ≡ length accounts.now) }
    ensures subscriber_count { IfOk result
        (λ listing. length listing.subscribers ≡ length subscribers.now) }
    ensures fault { IfErr result (λ fault. fault ≢ SetupFault.OutOfMemory
        → items_fault accounts.now subscribers.now ≡ Some fault) }
{
    let mut directory = Directory::new(alloc);
    for account in accounts {
        directory.account(account.0, account.1)?;
    }
    for subscriber in subscribers {
        directory.subscriber(subscriber.0, subscriber.1)?;
    }
    Ok(directory)
}
