//! The accounts of a run are opened.

ghost use Rattle.std.specs.Prelude.{◌≡◌, ◌≤◌, [], length, map, IfOk, replicate, OnOk};
ghost use Rattle.runs_core.specs.Teams.{AreFresh, IsNew, terms_of};
ghost use Rattle.runs_core.specs.LaidOut.{laid_out};

use account_core::Shared;
use price_core::MAX_MONEY;
use run_values::{OpeningCredit, RunSetup};
use std::alloc::{AllocError, AllocFailed, Global};

/// The accounts of a run, in order, and the seats of each worker, one of each account.
#[derive(Drop)]
pub(crate) struct Opened<S: Shared> {
    pub accounts: Vec<S>,
    pub teams: Vec<Vec<S::Seat>>,
}

/// Opens the accounts of a setup, each with a seat for each of so many workers.
pub(crate) fn open_accounts<S: Shared>(
    alloc: Global,
    setup: &RunSetup,
    workers: u32,
) -> Result<Opened<S>, AllocError>
    requires some { 1 ≤ workers }
    requires few { workers ≤ 16 }
    ensures accounts { IfOk result (λ opened.
        map S.terms opened.accounts.items ≡ terms_of setup.now.limit workers setup.now.accounts) }
    ensures count { IfOk result (λ opened. length opened.teams.items ≡ workers) }
    ensures fresh { IfOk result (λ opened. AreFresh S.reads
        (map S.key opened.accounts.items) 0 (map (λ team. team.items) opened.teams.items)) }
{
    let mut accounts = Vec::new(alloc);
    let mut teams = empty_piles(alloc, workers as usize)?;
    for place in 0..setup.account_count() {
        let terms = (setup.number(place), setup.opening(place));
        let (account, seats) = open_account::<S>(alloc, terms, setup.limit(), workers)?;
        deal(&mut teams, seats)?;
        accounts.push(account)?;
    }
    Ok(Opened { accounts, teams })
}

/// Opens an account, named by its number, with its opening credit.
fn open_account<S: Shared>(
    alloc: Global,
    account: (u32, OpeningCredit),
    limit: u32,
    workers: u32,
) -> Result<(S, Vec<S::Seat>), AllocError>
    requires opening { account.1.amount ≤ MAX_MONEY }
    requires some { 1 ≤ workers }
    requires few { workers ≤ 16 }
    ensures terms { IfOk result (λ made. S.terms made.0 ≡ record {
      number = account.0;
      opening = account.1.amount;
      until = account.1.until;
      limit = limit;
      seats = workers;
    }) }
    ensures seats { IfOk result (λ made. IsNew S.reads (S.key made.0) workers made.1.items) }
{
    let (number, opening) = account;
    let made = S::new(alloc, number, opening.amount, opening.until, limit, workers);
    made.or(Err(AllocError))
}

/// So many piles without items.
pub(crate) fn empty_piles<T: Drop>(alloc: Global, count: usize) -> Result<Vec<Vec<T>>, AllocError>
    ensures { IfOk result (λ piles. map (λ pile. pile.items) piles.items ≡ replicate count []) }
{
    let mut piles = Vec::with_capacity(alloc, count)?;
    for _ in 0..count {
        piles.push(Vec::new(alloc))?;
    }
    Ok(piles)
}

/// Lays the first item onto the first pile, the second onto the second, and so on.
pub(crate) fn deal<T: Drop>(piles: &mut Vec<Vec<T>>, items: Vec<T>) -> Result<(), AllocFailed<T>>
    requires { length items.items ≡ length piles.old.items }
    ensures { OnOk result (map (λ pile. pile.items) piles.new.items
        ≡ laid_out (map (λ pile. pile.items) piles.old.items) items.items) }
{
    let mut at = 0;
    for item in items {
        piles[at].push(item)?;
        at += 1;
    }
    Ok(())
}
