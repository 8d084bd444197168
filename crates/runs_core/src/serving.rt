//! A run, from its setup to its books.

ghost use Rattle.std.specs.Prelude.{◌≡◌, ◌≤◌, ◌<◌, ◌↔◌, [], ℕ, true, false, length, map, None, IfErr, IfOk, IfSome, OnOk, All, slice_index_or};
ghost use Rattle.std.specs.Map.{keys_of};
ghost use Rattle.std.specs.Vec.{vec_capacity};
ghost use Rattle.std.specs.Vec.Iter.{into_iter_items};
ghost use Rattle.runs_core.specs.Closing.{AreAllThere, AreBooksOfSeats, AreNumberedFrom, AreSeatsOf, IsInBooks, ShowsAll, terms_shown};
ghost use Rattle.runs_core.specs.Crews.{HasPlayed};
ghost use Rattle.runs_core.specs.Goings.{HasAnswered};
ghost use Rattle.runs_core.specs.Hearing.{HasLeft};
ghost use Rattle.runs_core.specs.RunFaults.{AsksNoGate, MayAskGate, ended_by};
ghost use Rattle.runs_core.specs.Runs.{HasRun};
ghost use Rattle.runs_core.specs.Sending.{ArePromised, promises_of};
ghost use Rattle.runs_core.specs.Teams.{AreFresh, are_workers};
ghost use Rattle.runs_core.specs.Workers.{number_by};
ghost use Rattle.account_core.specs.Answers.{IsLegal};
ghost use Rattle.account_core.specs.Closed.{IsBookOf};
ghost use Rattle.account_core.specs.Seats.{are_all};
ghost use Rattle.turn_account.specs.Seen.{StoodIn};

use crate::crew::Crew;
use crate::laws;
use crate::opened::{Opened, deal, empty_piles, open_accounts};
use crate::rounds::play;
use crate::threads::{finish_all, start_all};
use crate::worker::Worker;
use account_core::{Book, CloseFault, Gate, Shared};
use run_values::{Driver, RunFault, RunSetup};
use std::alloc::Global;
use std::sync::Wait;
use std::thread;
use std::thread::{Scope, Threads};
use std::vec::IntoIter;
use turn_account::TurnAccount;

/// The most workers of a run.
const MAX_WORKERS: u32 = 16;

/// Serves what the driver gives by so many workers, 1 to 16, until the driver has ended, and gives
/// the books. The first worker is the thread that calls; each other has a thread of its own. In a
/// round the others get their posts before the first begins, so a gate that holds one of its posts
/// holds up no other worker in that round.
///
/// * `run`: in each round the driver hears what handling the items of the round before gave, and
///   the books are what handling all that it has given comes to. `HasRun` says what that is, a
///   sentence each.
/// * `ended`, `agenda`: with books the driver has ended, and always its agenda is what it was.
/// * `workers`, `nothing`: `Workers` exactly where there aren't 1 to 16 workers; then nothing is
///   started.
/// * `gate`: `GateClosed` only with a gate that may answer false.
///
/// After any fault but `Workers` all workers are waited for. The fault is the first worker's where
/// that one has failed, else that of another that has, else the run's own.
pub fn serve<D: Driver, R: Wait + Threads + Sync, G: Gate + Sync>(
    rt: &R,
    alloc: Global,
    setup: &RunSetup,
    driver: &mut D,
    workers: u32,
    gate: &G,
) -> Result<Vec<Book>, RunFault>
    requires given { D.given driver.old ≡ [] }
    ensures run { IfOk result (λ books. HasRun D.given D.ended D.hears StoodIn
        setup.now workers driver.old driver.new books.items) }
    ensures ended { OnOk result (D.ended driver.new ≡ true) }
    ensures agenda { D.agenda driver.new ≡ D.agenda driver.old }
    ensures workers { (result ≡ Err RunFault.Workers) ↔ (are_workers workers ≡ false) }
    ensures nothing { result ≡ Err RunFault.Workers → driver.new ≡ driver.old }
    ensures gate { result ≡ Err RunFault.GateClosed → G.may_shut }
{
    serve_over::<D, TurnAccount, R, G>(rt, alloc, setup, driver, workers, gate)
}

/// Serves as `serve` does, over shared accounts of the form `S`.
pub fn serve_over<D: Driver, S: Shared, R: Wait + Threads + Sync, G: Gate + Sync>(
    rt: &R,
    alloc: Global,
    setup: &RunSetup,
    driver: &mut D,
    workers: u32,
    gate: &G,
) -> Result<Vec<Book>, RunFault>
    requires given { D.given driver.old ≡ [] }
    ensures run { IfOk result (λ books. HasRun D.given D.ended D.hears S.stood
        setup.now workers driver.old driver.new books.items) }
    ensures ended { OnOk result (D.ended driver.new ≡ true) }
    ensures agenda { D.agenda driver.new ≡ D.agenda driver.old }
    ensures workers { (result ≡ Err RunFault.Workers) ↔ (are_workers workers ≡ false) }
    ensures nothing { result ≡ Err RunFault.Workers → driver.new ≡ driver.old }
    ensures gate { result ≡ Err RunFault.GateClosed → G.may_shut }
{
    if workers < 1 || workers > MAX_WORKERS {
        return Err(RunFault::Workers);
    }
    let Opened { accounts, teams } = open_accounts::<S>(alloc, setup, workers)?;
    let left = run_workers(rt, alloc, setup, accounts.as_slice(), teams, driver, gate)?;
    close_accounts(alloc, accounts, left)
}

/// What comes back from the scope of the threads: the driver, and what the workers have left.
struct Served<'d, D: Driver, S: Shared> {
    driver: &'d mut D,
    left: Result<Vec<Vec<S::Seat>>, RunFault>,
}

/// Runs a worker for each team until the driver has ended.
fn run_workers<D: Driver, S: Shared, R: Wait + Threads + Sync, G: Gate + Sync>(
    rt: &R,
    alloc: Global,
    setup: &RunSetup,
    accounts: &[S],
    teams: Vec<Vec<S::Seat>>,
    driver: &mut D,
    gate: &G,
) -> Result<Vec<Vec<S::Seat>>, RunFault>
    requires given { D.given driver.old ≡ [] }
    requires some { 1 ≤ length teams.items }
    requires few { length teams.items ≤ 16 }
    requires numbered { map (number_by S.terms) accounts.now ≡ keys_of setup.now.accounts }
    requires fresh { AreFresh S.reads
        (map S.key accounts.now) 0 (map (λ team. team.items) teams.items) }
    ensures ended { OnOk result (D.ended driver.new ≡ true) }
    ensures agenda { D.agenda driver.new ≡ D.agenda driver.old }
    ensures left { IfOk result (λ left. HasLeft D.given D.ended D.hears
        S.reads S.was (map S.key accounts.now) setup.now (length teams.items)
        driver.old driver.new (map (λ team. team.items) left.items)) }
    ensures fault { MayAskGate G.may_shut result }
{
    let served = thread::scope(
        thread::scope_env(),
        rt,
        move |scope| -> Served<'_, D, S>
            requires { (D.given driver.now ≡ []) × (1 ≤ length teams.items)
                × (length teams.items ≤ 16)
                × (map (number_by S.terms) accounts.now ≡ keys_of setup.now.accounts)
                × AreFresh S.reads
                (map S.key accounts.now) 0 (map (λ team. team.items) teams.items) }
            ensures { (result.driver.ghost_name ≡ driver.entry.ghost_name)
                × (D.agenda result.driver.now ≡ D.agenda driver.entry.now)
                × OnOk result.left (D.ended result.driver.now ≡ true)
                × IfOk result.left (λ left. HasLeft D.given D.ended D.hears
                S.reads S.was (map S.key accounts.entry.now) setup.entry.now (length teams.items)
                driver.entry.now result.driver.now (map (λ team. team.items) left.items))
                × MayAskGate G.may_shut result.left }
        {
            let left = run_in(scope, rt, alloc, setup, accounts, teams, driver, gate);
            Served { driver, left }
        },
    );
    let Served { driver, left } = served;
    laws::loan_has_ended(driver);
    left
}

/// Starts the workers but for the first in a scope, plays the rounds, and waits for the workers.
/// Which fault is given, `serve` says.
fn run_in<'s, 'e, D: Driver, S: Shared, R: Wait + Threads + Sync, G: Gate + Sync>(
    scope: &Scope<'s, &'e ()>,
    rt: &'s R,
    alloc: Global,
    setup: &'s RunSetup,
    accounts: &'s [S],
    teams: Vec<Vec<S::Seat>>,
    driver: &mut D,
    gate: &'s G,
) -> Result<Vec<Vec<S::Seat>>, RunFault>
    requires given { D.given driver.old ≡ [] }
    requires some { 1 ≤ length teams.items }
    requires few { length teams.items ≤ 16 }
    requires numbered { map (number_by S.terms) accounts.now ≡ keys_of setup.now.accounts }
    requires fresh { AreFresh S.reads
        (map S.key accounts.now) 0 (map (λ team. team.items) teams.items) }
    ensures ended { OnOk result (D.ended driver.new ≡ true) }
    ensures agenda { D.agenda driver.new ≡ D.agenda driver.old }
    ensures left { IfOk result (λ left. HasLeft D.given D.ended D.hears
        S.reads S.was (map S.key accounts.now) setup.now (length teams.items)
        driver.old driver.new (map (λ team. team.items) left.items)) }
    ensures fault { MayAskGate G.may_shut result }
{
    let mut left = Vec::with_capacity(alloc, teams.len())?;
    let mut teams = teams.into_iter();
    let Some(team) = teams.next() else {
        unreachable!()
    };
    let mut crew = Crew {
        worker: Worker::new(alloc, 0, setup, accounts, team),
        failed: None,
        links: Vec::new(alloc),
    };
    let ran = start_and_play(
        scope, rt, alloc, setup, accounts, teams, driver, gate, &mut crew,
    );
    let Crew {
        worker,
        failed,
        links,
    } = crew;
    left.push_reserved(worker.finish());
    let finished = finish_all(rt, links, &mut left);
    first_fault(failed, finished, ran)?;
    Ok(left)
}

/// The fault of a run, if it has one: that of its first worker, else that of the others, else its
/// own.
fn first_fault(
    failed: Option<RunFault>,
    finished: Result<(), RunFault>,
    ran: Result<(), RunFault>,
) -> Result<(), RunFault>
    ensures exact { result ≡ ended_by failed finished ran }
{
    match failed {
        Some(why) => Err(why),
        None => finished.and(ran),
    }
}

/// Starts the workers but for the first, and plays the rounds.
fn start_and_play<'s, 'e, D: Driver, S: Shared, R: Wait + Sync, G: Gate + Sync>(
    scope: &Scope<'s, &'e ()>,
    rt: &'s R,
    alloc: Global,
    setup: &'s RunSetup,
    accounts: &'s [S],
    mut teams: IntoIter<Vec<S::Seat>>,
    driver: &mut D,
    gate: &'s G,
    crew: &mut Crew<'s, S, G>,
) -> Result<(), RunFault>
    requires given { D.given driver.old ≡ [] }
    requires few { length (into_iter_items teams) < 16 }
    requires numbered { map (number_by S.terms) accounts.now ≡ keys_of setup.now.accounts }
    requires fresh { AreFresh S.reads
        (map S.key accounts.now) 1 (map (λ team. team.items) (into_iter_items teams)) }
    requires first { HasAnswered (number_by S.terms) S.key S.reads S.was
        setup.now accounts.now 0 [] [] crew.old.worker }
    requires works { crew.old.failed ≡ None }
    requires none { crew.old.links.items ≡ [] }
    ensures ended { OnOk result (D.ended driver.new ≡ true) }
    ensures agenda { D.agenda driver.new ≡ D.agenda driver.old }
    ensures count { OnOk result (length crew.new.links.items ≡ length (into_iter_items teams)) }
    ensures played { OnOk result (HasPlayed D.given D.ended D.hears
        (number_by S.terms) S.key S.reads S.was
        setup.now accounts.now driver.old driver.new crew.new) }
    ensures promised { ArePromised setup.now accounts.now 1 (promises_of crew.new.links.items) }
    ensures fault { MayAskGate G.may_shut result }
    ensures failed { IfSome crew.new.failed (λ why. result ≡ Err why) }
{
    start_all(
        scope,
        rt,
        alloc,
        setup,
        accounts,
        &mut teams,
        gate,
        &mut crew.links,
    )?;
    play(rt, alloc, driver, crew, gate)
}

/// Closes the accounts of a run, with the seats that its workers have left.
fn close_accounts<S: Shared>(
    alloc: Global,
    accounts: Vec<S>,
    left: Vec<Vec<S::Seat>>,
) -> Result<Vec<Book>, RunFault>
    requires keys { All (λ team. map S.reads.key team.items ≡ map S.key accounts.items) left.items }
    requires numbers { AreNumberedFrom S.reads 0 (map (λ team. team.items) left.items) }
    requires seats { All (λ account. (S.terms account).seats ≡ length left.items) accounts.items }
    ensures terms { IfOk result (λ books. map (terms_shown (length left.items)) books.items
        ≡ map S.terms accounts.items) }
    ensures legal { IfOk result
        (λ books. All (λ book. IsLegal book.opening book.until book.history) books.items) }
    ensures owned { IfOk result (λ books. All (λ book.
        All (λ entry. entry.seat < length left.items) book.history) books.items) }
    ensures shown { IfOk result (λ books. (worker : ℕ) → worker < length left.items
        → IsInBooks S.reads S.was S.stood books.items worker
        (slice_index_or (map (λ team. team.items) left.items) worker [])) }
    ensures fault { AsksNoGate result }
{
    let mut rows = empty_piles(alloc, accounts.len())?;
    for team in left {
        deal(&mut rows, team)?;
    }
    let mut books = Vec::with_capacity(alloc, accounts.len())?;
    close_each(&mut accounts.into_iter(), &mut rows.into_iter(), &mut books)?;
    Ok(books)
}

/// Closes each account, with its row of seats, and puts down its book.
fn close_each<S: Shared>(
    accounts: &mut IntoIter<S>,
    rows: &mut IntoIter<Vec<S::Seat>>,
    books: &mut Vec<Book>,
) -> Result<(), RunFault>
    requires rows { AreSeatsOf S.reads.key (map S.key (into_iter_items accounts.old))
        (map (λ row. row.items) (into_iter_items rows.old)) }
    requires all { AreAllThere
        (map (λ account. (S.terms account).seats) (into_iter_items accounts.old))
        (map (λ row. map S.reads.number row.items) (into_iter_items rows.old)) }
    requires none { books.old.items ≡ [] }
    requires room { length (into_iter_items accounts.old) ≤ vec_capacity books.old }
    ensures books { OnOk result (AreBooksOfSeats S.reads S.was S.stood
        (map S.terms (into_iter_items accounts.old))
        (map (λ row. row.items) (into_iter_items rows.old)) books.new.items) }
    ensures fault { IfErr result (λ fault. fault ≡ RunFault.Mismatch) }
{
    while let Some(account) = accounts.next() {
        let Some(seats) = rows.next() else {
            unreachable!()
        };
        books.push_reserved(close(account, seats)?);
    }
    Ok(())
}

/// Closes an account with its seats.
fn close<S: Shared>(account: S, seats: Vec<S::Seat>) -> Result<Book, RunFault>
    requires keys { All (λ seat. S.reads.key seat ≡ S.key account) seats.items }
    requires all { are_all (S.terms account).seats (map S.reads.number seats.items) ≡ true }
    ensures book { IfOk result (λ book.
        IsBookOf (S.terms account) (map S.reads.mine seats.items) book) }
    ensures shows { IfOk result (λ book. ShowsAll S.reads S.was S.stood seats.items book) }
    ensures fault { IfErr result (λ fault. fault ≡ RunFault.Mismatch) }
{
    match account.close(seats) {
        Ok(book) => Ok(book),
        Err(CloseFault::Mismatch) => Err(RunFault::Mismatch),
        Err(CloseFault::Seats) => unreachable!(),
    }
}
