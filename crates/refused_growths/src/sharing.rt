//! An account under its lock.

ghost use Rattle.std.specs.Prelude.{◌≡◌, IfOk};

use crate::asks::{LIMIT, OPENING, Seen, Watched, are_all, ask_all, counted};
use crate::closing;
use crate::outcome::{Course, Outcome, expect};
use account_core::{AccountFault, Book, Op, OpenGate, Reply};
use locked_account::{Seat, SharedAccount};
use one_call::Port;
use std::alloc::Global;
use std::sync::Wait;

/// The number of each account.
const NUMBER: u32 = 7;

/// An account with two seats.
fn two_seats<R>(rt: &R, alloc: Global) -> Result<(SharedAccount, Seat, Seat), Outcome>
    ensures first { IfOk result (λ made. made.1.account ≡ made.0.number) }
    ensures second { IfOk result (λ made. made.2.account ≡ made.0.number) }
{
    let (account, mut seats) = SharedAccount::new(alloc, NUMBER, OPENING, None, LIMIT, 2)?;
    match (seats.pop(), seats.pop()) {
        (Some(second), Some(first)) => Ok((account, first, second)),
        _ => Err(Outcome::Wrong),
    }
}

/// A shared account with its two seats. It is asked from the first one.
#[derive(Drop)]
struct Desk<'a, R: Wait> {
    rt: &'a R,
    account: SharedAccount,
    first: Seat,
    second: Seat,
    ghost has_first: { first.account ≡ account.number },
    ghost has_second: { second.account ≡ account.number },
}

impl<'a, R: Wait> Desk<'a, R> {
    /// A new account.
    fn open(rt: &'a R, alloc: Global) -> Result<Desk<'a, R>, Outcome> {
        let (account, first, second) = two_seats(rt, alloc)?;
        Ok(Desk {
            rt,
            account,
            first,
            second,
        })
    }

    /// The account's book.
    fn close(self, alloc: Global) -> Result<Book, Outcome> {
        let Desk {
            account,
            first,
            second,
            ..
        } = self;
        let mut seats = Vec::with_capacity(alloc, 2)?;
        seats.push_reserved(first);
        seats.push_reserved(second);
        Ok(account.close(seats)?)
    }
}

impl<R: Wait> Port for Desk<'_, R> {
    fn ask(&mut self, op: Op) -> Result<Reply, AccountFault> {
        self.account.call(self.rt, &mut self.first, op, &OpenGate)
    }
}

impl<R: Wait> Watched for Desk<'_, R> {
    fn seen(&self) -> Seen {
        Seen {
            account: None,
            mine: Some(counted(self.first.mine())),
        }
    }

    /// The other seat hears that a call isn't open, which takes no memory.
    fn is_free(&mut self) -> bool {
        let op = Op::Return { call: u64::MAX };
        let answer = self.account.call(self.rt, &mut self.second, op, &OpenGate);
        answer == Err(AccountFault::NotOpen)
    }
}

/// Asks an account from a seat, and closes it. The book has what was answered, and nothing else.
pub(crate) fn asks<R: Wait>(rt: &R, alloc: Global) -> Course {
    let mut desk = Desk::open(rt, alloc)?;
    let outcome = ask_all(&mut desk)?;
    expect(has_all(&desk.close(alloc)?))?;
    Ok(outcome)
}

/// Whether a book has all that was asked from the first seat.
fn has_all(book: &Book) -> bool {
    book.account() == NUMBER && book.opening() == OPENING && are_all(book.history(), 0)
}

/// Closes a call that was granted, while no memory is left.
pub(crate) fn closes_a_call<R: Wait>(rt: &R, alloc: Global) -> Course {
    closing::closes(&mut Desk::open(rt, alloc)?)
}
