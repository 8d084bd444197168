//! The checks of the accounts of a table of books, by the accounts' numbers.

ghost use Rattle.std.specs.Prelude.{◌≡◌, ◌≤◌, ℕ, Option, [], IfOk};
ghost use Rattle.std.specs.Result.{result_err};
ghost use Rattle.account_core.specs.Checked.{IsCheckOf};
ghost use Rattle.account_core.specs.Entries.{entry_data};
ghost use Rattle.book_texts.specs.Books.{Books, entered_in_books, opened, account_so_far};
ghost use Rattle.book_texts.specs.Checks.{AreChecks, Comes, HaveChecks, IsHeard, ListComes, checks_by_account};
ghost use Rattle.account_core.specs.Rising.{AreRising};

use account_core::{AccountFault, Entry, HistoryCheck, Reply, is_above, place_of};
use price_core::MAX_MONEY;
use std::alloc::{AllocError, Global};
use std::collections::BTreeMap;
use std::mem;
use table_core::RowKind;

/// What an account answers in place of an entry, where that is the first of its history which is
/// wrong; or why the entry is refused.
pub(crate) type Heard = Result<Option<Result<Reply, AccountFault>>, RowKind>;

/// A check of each account's history.
#[derive(Drop)]
pub(crate) enum AccountChecks {
    /// The accounts opened by rising number: a list in this order, in which a search is quickest.
    Rising(Vec<(u64, HistoryCheck)>),
    /// They did not: a map, so that no order of openings takes long.
    Mixed(BTreeMap<u64, HistoryCheck>),
}

impl AccountChecks {
    /// Those of no accounts.
    pub fn new(alloc: Global) -> AccountChecks
        ensures { HaveChecks [] result }
    {
        AccountChecks::Rising(Vec::new(alloc))
    }

    /// Opens an account with this credit and last moment. `Repeated` where it is open, which
    /// changes nothing. Where memory runs out, checks may be lost.
    pub fn open(
        &mut self,
        alloc: Global,
        account: u32,
        opening: u64,
        until: Option<u64>,
    ) -> Result<Option<RowKind>, AllocError>
        requires small { opening ≤ MAX_MONEY }
        requires have { (books : Books) × HaveChecks books self.old }
        ensures { IfOk result (λ refused. (books : Books) → HaveChecks books self.old
            → Comes books refused (opened account opening until books
            (account_so_far account books))
            self.new) }
    {
        let account = u64::from(account);
        let check = HistoryCheck::new(alloc, opening, until);
        match self {
            AccountChecks::Rising(list) => {
                if is_above(list.as_slice(), account) {
                    list.push((account, check))?;
                    return Ok(None);
                }
                let list = mem::replace(list, Vec::new(alloc));
                let mut map = mapped(alloc, list)?;
                let refused = open_in(&mut map, account, check)?;
                *self = AccountChecks::Mixed(map);
                Ok(refused)
            }
            AccountChecks::Mixed(map) => open_in(map, account, check),
        }
    }

    /// Gives an entry to the check of its account, which answers as `HistoryCheck::hear` does.
    /// `Unknown` where the account isn't open. A refused entry changes nothing.
    pub fn hear(&mut self, account: u32, entry: Entry) -> Result<Heard, AllocError>
        requires { (books : Books) × HaveChecks books self.old }
        ensures comes { IfOk result (λ heard. (books : Books) → HaveChecks books self.old
            → Comes books (result_err heard) (entered_in_books account (entry_data entry) books
            (account_so_far account books)) self.new) }
        ensures heard { IfOk result (λ heard. (books : Books) → HaveChecks books self.old
            → IsHeard (account_so_far account books) (entry_data entry) heard) }
    {
        let account = u64::from(account);
        match self {
            AccountChecks::Rising(list) => {
                let Some(place) = place_of(list.as_slice(), account) else {
                    return Ok(Err(RowKind::Unknown));
                };
                Ok(Ok(list[place].1.hear(entry)?))
            }
            AccountChecks::Mixed(map) => {
                let Some(check) = map.get_mut(&account) else {
                    return Ok(Err(RowKind::Unknown));
                };
                Ok(Ok(check.hear(entry)?))
            }
        }
    }

    /// Each account with its check, by rising number.
    pub fn into_list(self, alloc: Global) -> Result<Vec<(u64, HistoryCheck)>, AllocError>
        ensures { IfOk result (λ list. list.items ≡ checks_by_account self) }
    {
        match self {
            AccountChecks::Rising(list) => Ok(list),
            AccountChecks::Mixed(map) => map.into_iter().collect(alloc),
        }
    }
}

/// Adds the check of an account that opens to a map, where it has none.
fn open_in(
    map: &mut BTreeMap<u64, HistoryCheck>,
    account: u64,
    check: HistoryCheck,
) -> Result<Option<RowKind>, AllocError>
    ensures { IfOk result (λ refused. (books : Books) (opening : ℕ) (until : Option ℕ)
        → AreChecks books map.old.entries → IsCheckOf opening until [] check
        → ListComes books refused (opened account opening until books
        (account_so_far account books))
        map.new.entries) }
{
    if map.contains_key(&account) {
        return Ok(Some(RowKind::Repeated));
    }
    map.insert(account, check)?;
    Ok(None)
}

/// A map of what a list has.
#[cold]
#[inline(never)]
fn mapped(
    alloc: Global,
    list: Vec<(u64, HistoryCheck)>,
) -> Result<BTreeMap<u64, HistoryCheck>, AllocError>
    requires { AreRising list.items }
    ensures { IfOk result (λ map. map.entries ≡ list.items) }
{
    let mut map = BTreeMap::new(alloc);
    for (account, check) in list {
        map.insert(account, check)?;
    }
    Ok(map)
}
