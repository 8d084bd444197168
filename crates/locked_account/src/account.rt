//! The account under its lock.

ghost use Rattle.std.specs.Prelude.{◌≡◌, ◌≤◌, ◌↔◌, ◌⊎◌, ◌++◌, ◌∷◌, List, [], false, map, reverse, All, OnErr, IfOk, IfErr};
ghost use Rattle.account_core.specs.Closed.{IsBookOf};
ghost use Rattle.account_core.specs.Kinds.{IsReplyTo, IsReturn};
ghost use Rattle.account_core.specs.Refusals.{IsRefusedAt, Refusal};
ghost use Rattle.account_core.specs.Seats.{are_all};
ghost use Rattle.locked_account.specs.Seats.{fresh_seats};
ghost use Rattle.account_core.specs.Entries.{EntryData, asked_of};
ghost use Rattle.account_core.specs.Ledger.{entry_by};
ghost use Rattle.account_core.specs.Places.{IsOwed};
ghost use Rattle.account_core.specs.declared.close_fault.CloseFault.TheVariants as close;

use crate::Seat;
use crate::closing::{Start, close_book};
use account_core::{Account, AccountFault, Book, CloseFault, Gate, Op, Reply, Shared};
use price_core::MAX_MONEY;
use std::alloc::{AllocError, Global};
use std::marker::Model;
use std::sync::{Mutex, Wait};

/// An account under its lock, asked from the seats that were made with it.
///
/// The lock holds an `Account`, whose type keeps that its history is legal, so that is known each
/// time the lock is taken; and an entry is made while the lock is held. A seat's own list is the
/// seat's, and needs no lock.
#[derive(Drop)]
pub struct SharedAccount {
    number: u32,
    opening: u64,
    until: Option<u64>,
    limit: u32,
    seats: u32,
    locked: Mutex<Account>,
}

impl Model for SharedAccount {
    ghost use Rattle.account_core.specs.Terms.{Terms};

    ghost Value = { Terms };

    ghost view = { λ a. record {
      number = a.number;
      opening = a.opening;
      until = a.until;
      limit = a.limit;
      seats = a.seats;
    } };
}

impl SharedAccount {
    /// An account with this number, an opening credit of 0 to `MAX_MONEY`, a last moment, if it has
    /// one, an empty history and the number of entries that this may grow to; and its seats, 1 to
    /// 16 of them, numbered from 0. A seat knows its account by this number, so no two accounts may
    /// have the same one.
    ///
    /// A fault is `OutOfMemory`.
    pub fn new(
        alloc: Global,
        number: u32,
        opening: u64,
        until: Option<u64>,
        limit: u32,
        seats: u32,
    ) -> Result<(SharedAccount, Vec<Seat>), AccountFault>
        requires opening { opening ≤ MAX_MONEY }
        requires some_seats { 1 ≤ seats }
        requires few_seats { seats ≤ 16 }
        ensures terms { IfOk result (λ made. made.0 ≡ record {
          number = number;
          opening = opening;
          until = until;
          limit = limit;
          seats = seats;
        }) }
        ensures seats { IfOk result (λ made. made.1.items ≡ fresh_seats number seats) }
        ensures refused { IfErr result (λ fault. fault ≡ AccountFault.OutOfMemory) }
    {
        let made = make_seats(alloc, number, seats)?;
        let locked = Mutex::new(Account::new(alloc, opening, until, limit));
        let account = SharedAccount {
            number,
            opening,
            until,
            limit,
            seats,
            locked,
        };
        Ok((account, made))
    }

    /// Asks the account from one of its seats, once no other call holds it.
    ///
    /// The reply is the one right answer at the operation's place in the history, as the book shows
    /// once the account is closed; here it is known to be of a kind that the operation has. A fault
    /// makes no entry. `GateClosed` comes first, where the gate, asked while the account is held,
    /// answers false; then the faults of `Account::apply`. A Return of a call that this seat's own
    /// entries show granted and not returned is refused by nothing but `NotOpen` and `GateClosed`.
    pub fn call<R: Wait, G: Gate>(
        &self,
        rt: &R,
        seat: &mut Seat,
        op: Op,
        gate: &G,
    ) -> Result<Reply, AccountFault>
        requires { seat.old.account ≡ self.now.number }
        ensures mine { IfOk result (λ reply. seat.new ≡ record seat.old {
          mine = seat.old.mine ++ entry_by seat.old.number (asked_of op) reply ∷ [];
        }) }
        ensures kind { IfOk result (λ reply. IsReplyTo (asked_of op) reply) }
        ensures kept { OnErr result (seat.new ≡ seat.old) }
        ensures refused { IfErr result (λ fault. (fault ≡ AccountFault.GateClosed)
            ⊎ IsRefusedAt (λ _ _. Unit {0}) seat.old.mine (asked_of op) fault) }
        ensures gate { result ≡ Err AccountFault.GateClosed → G.may_shut }
        ensures returning { IsReturn (asked_of op) → IsOwed (reverse seat.old.mine) (asked_of op)
            → IfErr result (λ fault.
            (fault ≡ AccountFault.NotOpen) ⊎ (fault ≡ AccountFault.GateClosed)) }
    {
        let mut account = self.locked.lock(rt);
        if !gate.inside(self.number) {
            return Err(AccountFault::GateClosed);
        }
        // For the proof alone: the account that refuses has a legal history.
        let _ = account.history();
        seat.apply_to(&mut account, op)
    }

    /// Ends the sharing: the account's book, where all of its seats are handed in, in the order of
    /// their numbers, and each one's list is what its entries in the history are. It takes no
    /// memory.
    pub fn close(self, seats: Vec<Seat>) -> Result<Book, CloseFault>
        requires { All (λ seat. seat.account ≡ self.number) seats.items }
        ensures book { IfOk result (λ book.
            IsBookOf self (map (λ seat. seat.mine) seats.items) book) }
        ensures seats { (result ≡ Err close.Seats)
            ↔ (are_all self.seats (map (λ seat. seat.number) seats.items) ≡ false) }
    {
        let SharedAccount {
            number,
            opening,
            until,
            limit,
            seats: count,
            locked,
        } = self;
        let start = Start {
            opening,
            until,
            limit,
            seats: count,
        };
        close_book(number, start, locked.into_inner(), seats.as_slice())
    }
}

/// The seats of an account, numbered from 0.
fn make_seats(alloc: Global, account: u32, count: u32) -> Result<Vec<Seat>, AllocError>
    ensures { IfOk result (λ made. made.items ≡ fresh_seats account count) }
{
    let mut made = Vec::new(alloc);
    for number in 0..count {
        made.push(Seat::new(alloc, account, number))?;
    }
    Ok(made)
}

impl Shared for SharedAccount {
    ghost use Rattle.locked_account.specs.Seats.{seat_reads};
    ghost use Rattle.std.specs.Coded.{coded_ℕ};
    ghost use Rattle.std.specs.Prelude.{ℕ};

    type Seat = Seat;

    ghost Key = { ℕ };

    ghost key_code = { coded_ℕ };

    ghost key = { λ account. account.number };

    ghost terms = { λ account. account };

    ghost reads = { seat_reads };

    ghost was = { λ _ _ _. Unit {0} };

    ghost calls = { λ _ _ _ _. Unit {0} };

    ghost stood = { λ _ _ _ _. Unit {0} };

    fn new(
        alloc: Global,
        number: u32,
        opening: u64,
        until: Option<u64>,
        limit: u32,
        seats: u32,
    ) -> Result<(SharedAccount, Vec<Seat>), AccountFault> {
        SharedAccount::new(alloc, number, opening, until, limit, seats)
    }

    fn call<R: Wait, G: Gate>(
        &self,
        rt: &R,
        seat: &mut Seat,
        op: Op,
        gate: &G,
    ) -> Result<Reply, AccountFault> {
        self.call(rt, seat, op, gate)
    }

    fn close(self, seats: Vec<Seat>) -> Result<Book, CloseFault>
        requires { All (λ seat. seat.account ≡ self.number) seats.items }
        ensures book { IfOk result (λ book.
            IsBookOf self (map (λ seat. seat.mine) seats.items) book) }
        ensures was { IfOk result (λ book. All (λ seat. (mine : List EntryData)
            (refusal : Refusal) → Unit {0} → Unit {0}) seats.items) }
        ensures seats { (result ≡ Err close.Seats)
            ↔ (are_all self.seats (map (λ seat. seat.number) seats.items) ≡ false) }
    {
        self.close(seats)
    }
}
