//! What the accounts of a run know of its calls.

ghost use Rattle.std.specs.Prelude.{◌≡◌, ◌==◌, if◌then◌else◌, ◌∷◌, ◌++◌, [], ℕ, List, Some, None, reverse, IfOk, OnOk};
ghost use Rattle.std.specs.BTreeMap.{is_at};
ghost use Rattle.std.specs.Map.{lookup};
ghost use Rattle.std.specs.Option.{option_or};
ghost use Rattle.std.specs.Ordering.{nat_cmp};
ghost use Rattle.account_core.specs.Entries.{EntryData};
ghost use Rattle.account_core.specs.Sums.{AreSums};
ghost use Rattle.run_outputs.specs.KeptRecords.{HaveAccounts, HavePaid, KnowCalls};
ghost use Rattle.run_outputs.specs.Standings.{past_of, standing_of};
ghost use Rattle.account_core.specs.Closed.{Closed};

use crate::marks::{CallMarks, marks_in, marks_of};
use crate::standing::Standing;
use account_core::{Book, CallSum, RisingMap};
use std::alloc::{AllocError, Global};
use std::collections::BTreeMap;

/// What an account knows of its calls.
#[derive(Drop)]
pub(crate) struct AccountCalls {
    /// What its history says of each.
    pub marks: RisingMap<CallMarks>,
    /// What each has paid that was granted anything.
    pub paid: RisingMap<u64>,
}

impl AccountCalls {
    /// Those of a book.
    fn of(alloc: Global, book: &Book) -> Result<AccountCalls, AllocError>
        ensures { IfOk result (λ calls. KnowCalls calls (reverse book.now.history)) }
    {
        let summary = book.summary(alloc)?;
        Ok(AccountCalls {
            marks: marks_in(alloc, book.history())?,
            paid: paid_in(alloc, summary.calls.as_slice())?,
        })
    }

    /// What the account knows of a call.
    fn standing(&self, call: u64) -> Standing
        ensures { (h : List EntryData) → KnowCalls self.now h → result ≡ standing_of call h }
    {
        let marks = marks_of(&self.marks, call);
        let used_up = u64::from(marks.times.total()) == marks.total;
        Standing {
            times: marks.times,
            paid: self.paid.get(call).copied().unwrap_or(0),
            granted: marks.granted,
            forfeited: marks.forfeited,
            denied: marks.denied,
            cut: marks.denied_later || (marks.last && used_up),
        }
    }
}

/// What each account of these books knows of its calls; of two books of one account the first.
pub(crate) fn accounts_in(
    alloc: Global,
    books: &[Book],
) -> Result<BTreeMap<u32, AccountCalls>, AllocError>
    ensures { IfOk result (λ accounts. HaveAccounts accounts books.now) }
{
    let mut accounts = BTreeMap::new(alloc);
    for book in books {
        open(alloc, &mut accounts, book)?;
    }
    Ok(accounts)
}

/// What the account of a call knows of it, and nothing where it has no account.
pub(crate) fn standing_in(
    accounts: &BTreeMap<u32, AccountCalls>,
    account: Option<u32>,
    call: u64,
) -> Standing
    ensures { (books : List Closed) → HaveAccounts accounts.now books
        → result ≡ standing_of call (past_of account books) }
{
    let Some(account) = account else {
        return Standing::NONE;
    };
    match accounts.get(&account) {
        Some(calls) => calls.standing(call),
        None => Standing::NONE,
    }
}

/// Keeps the calls of a book, where its account has none yet.
fn open(
    alloc: Global,
    accounts: &mut BTreeMap<u32, AccountCalls>,
    book: &Book,
) -> Result<(), AllocError>
    ensures { OnOk result ((books : List Closed) → HaveAccounts accounts.old books
        → HaveAccounts accounts.new (books ++ book.now ∷ [])) }
{
    if accounts.contains_key(&book.account()) {
        return Ok(());
    }
    let calls = AccountCalls::of(alloc, book)?;
    accounts.insert(book.account(), calls)?;
    Ok(())
}

/// What each call has paid, by the sums of an account's calls.
fn paid_in(alloc: Global, sums: &[CallSum]) -> Result<RisingMap<u64>, AllocError>
    ensures { IfOk result (λ paid. (h : List EntryData) → AreSums h sums.now → HavePaid paid h) }
{
    let mut paid = RisingMap::new(alloc);
    for sum in sums {
        keep_paid(&mut paid, sum)?;
    }
    Ok(paid)
}

/// Keeps what a call has paid, where nothing is kept of it yet.
fn keep_paid(paid: &mut RisingMap<u64>, sum: &CallSum) -> Result<(), AllocError>
    ensures { OnOk result ((call : ℕ) → lookup (is_at (nat_cmp call)) paid.new ≡ option_or
        (lookup (is_at (nat_cmp call)) paid.old)
        (if call == sum.now.call then Some sum.now.paid else None)) }
{
    match paid.get(sum.call) {
        Some(_) => Ok(()),
        None => paid.insert(sum.call, sum.paid),
    }
}
