//! The close of an account under its lock.

ghost use Rattle.std.specs.Prelude.{◌≡◌, ◌↔◌, ◌<◌, map, IfOk, true, false, All, IsTrue};
ghost use Rattle.account_core.specs.Entries.{entry_data};
ghost use Rattle.locked_account.specs.Closing.{IsClosable};
ghost use Rattle.account_core.specs.Closed.{IsBookOf};
ghost use Rattle.account_core.specs.Own.{IsMerged, own};
ghost use Rattle.account_core.specs.Seats.{are_all, are_numbered};
ghost use Rattle.account_core.specs.declared.close_fault.CloseFault.TheVariants as close;

use crate::Seat;
use account_core::{Account, Book, CloseFault, Entry};

/// What an account is opened with: the credit, its last moment, if it has one, how many entries it
/// may have, and how many seats.
#[derive(Clone, Copy)]
pub(crate) struct Start {
    pub opening: u64,
    pub until: Option<u64>,
    pub limit: u32,
    pub seats: u32,
}

/// The book of an account whose seats were all handed in, in order, where their lists are what the
/// history says of them.
pub(crate) fn close_book(
    number: u32,
    start: Start,
    account: Account,
    seats: &[Seat],
) -> Result<Book, CloseFault>
    ensures book { IfOk result (λ book. IsBookOf record {
      number = number;
      opening = start.opening;
      until = start.until;
      limit = start.limit;
      seats = start.seats;
    } (map (λ seat. seat.mine) seats.now) book) }
    ensures history { IfOk result (λ book. book.history ≡ account.history) }
    ensures seats { (result ≡ Err close.Seats)
        ↔ (are_all start.seats (map (λ seat. seat.number) seats.now) ≡ false) }
    ensures mismatch { (result ≡ Err close.Mismatch)
        ↔ ((are_all start.seats (map (λ seat. seat.number) seats.now) ≡ true)
        × (¬ IsClosable start.opening start.until start.limit account
        (map (λ seat. seat.mine) seats.now))) }
{
    if !are_all(start.seats, seats) {
        return Err(CloseFault::Seats);
    }
    if !is_closable(&start, &account, seats) {
        return Err(CloseFault::Mismatch);
    }
    Ok(Book::new(number, account))
}

/// Whether an account is what it was opened as, and its history what its seats have entered.
fn is_closable(start: &Start, account: &Account, seats: &[Seat]) -> bool
    requires { are_numbered 0 (map (λ seat. seat.number) seats.now) ≡ true }
    ensures { IsTrue result ↔ IsClosable start.now.opening start.now.until start.now.limit
        account.now (map (λ seat. seat.mine) seats.now) }
{
    account.opening() == start.opening
        && account.until() == start.until
        && account.limit() == start.limit
        && account.history().len() <= start.limit as usize
        && are_merged(account.history(), seats)
}

/// Whether these are all seats of an account, in the order of their numbers.
fn are_all(count: u32, seats: &[Seat]) -> bool
    ensures { result ≡ are_all count (map (λ seat. seat.number) seats.now) }
{
    seats.len() == count as usize && are_numbered(seats)
}

/// Whether the numbers of seats go on from 0 by ones.
fn are_numbered(seats: &[Seat]) -> bool
    ensures { result ≡ are_numbered 0 (map (λ seat. seat.number) seats.now) }
{
    for (at, seat) in seats.iter().enumerate() {
        if seat.number() as usize != at {
            return false;
        }
    }
    true
}

/// Whether a history merges the lists of all seats of its account.
fn are_merged(history: &[Entry], seats: &[Seat]) -> bool
    requires { are_numbered 0 (map (λ seat. seat.number) seats.now) ≡ true }
    ensures { IsTrue result
        ↔ IsMerged (map entry_data history.now) (map (λ seat. seat.mine) seats.now) }
{
    have_own(history, seats) && are_of_seats(history, seats.len())
}

/// Whether each seat's list is the seat's own entries in the history.
fn have_own(history: &[Entry], seats: &[Seat]) -> bool
    ensures { IsTrue result
        ↔ All (λ seat. own seat.number (map entry_data history.now) ≡ seat.mine) seats.now }
{
    for seat in seats {
        if !is_own(history, seat.number(), seat.mine()) {
            return false;
        }
    }
    true
}

/// Whether a list is a seat's own entries in the history.
fn is_own(history: &[Entry], seat: u32, mine: &[Entry]) -> bool
    ensures { IsTrue result ↔ (own seat (map entry_data history.now) ≡ map entry_data mine.now) }
{
    let mut at = 0;
    for entry in history {
        if entry.seat == seat {
            if at >= mine.len() || mine[at] != *entry {
                return false;
            }
            at += 1;
        }
    }
    at == mine.len()
}

/// Whether each entry is of one of so many seats.
fn are_of_seats(history: &[Entry], seats: usize) -> bool
    ensures { IsTrue result ↔ All (λ entry. entry.seat < seats) history.now }
{
    for entry in history {
        if entry.seat as usize >= seats {
            return false;
        }
    }
    true
}
