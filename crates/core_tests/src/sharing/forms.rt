//! What the tests do with an account of either form.

ghost use Rattle.std.specs.Prelude.{◌≡◌, ◌≤◌};

use crate::answers::{Answer, Want, answer_of};
use crate::looking::gives;
use crate::plans::CHEAPER;
use account_core::{Book, CloseFault, Op, Shared};
use price_core::{MAX_MONEY, TimeInfo};
use std::alloc::Global;
use std::process::Abort;

/// An account with two seats, and room for 100 entries.
pub(crate) fn two_seats<S: Shared, R: Abort>(
    rt: &R,
    alloc: Global,
    number: u32,
    opening: u64,
    until: Option<u64>,
) -> (S, S::Seat, S::Seat)
    requires { opening ≤ MAX_MONEY }
    ensures first { S.reads.key result.1 ≡ S.key result.0 }
    ensures second { S.reads.key result.2 ≡ S.key result.0 }
{
    two_seats_within(rt, alloc, number, opening, until, 100)
}

/// An account with two seats, and room for so many entries.
pub(crate) fn two_seats_within<S: Shared, R: Abort>(
    rt: &R,
    alloc: Global,
    number: u32,
    opening: u64,
    until: Option<u64>,
    limit: u32,
) -> (S, S::Seat, S::Seat)
    requires { opening ≤ MAX_MONEY }
    ensures first { S.reads.key result.1 ≡ S.key result.0 }
    ensures second { S.reads.key result.2 ≡ S.key result.0 }
{
    let made = S::new(alloc, number, opening, until, limit, 2);
    let (account, mut seats) = made.expect(rt, "memory");
    let second = seats.pop().expect(rt, "two seats");
    let first = seats.pop().expect(rt, "two seats");
    (account, first, second)
}

/// Closes an account whose two seats are handed in, in this order.
pub(crate) fn close<S: Shared, R: Abort>(
    rt: &R,
    alloc: Global,
    account: S,
    first: S::Seat,
    second: S::Seat,
) -> Result<Book, CloseFault>
    requires first { S.reads.key first ≡ S.key account }
    requires second { S.reads.key second ≡ S.key account }
{
    let mut seats = Vec::with_capacity(alloc, 2).expect(rt, "memory");
    seats.push_reserved(first);
    seats.push_reserved(second);
    account.close(seats)
}

/// How many entries of a book each of the two seats has made.
pub(crate) fn entries_of_each(book: &Book) -> (usize, usize) {
    (entries_of(book, 0), entries_of(book, 1))
}

/// How many entries of a book a seat has made.
fn entries_of(book: &Book, seat: u32) -> usize {
    let mut count = 0usize;
    for entry in book.history() {
        if entry.seat == seat {
            count = count.saturating_add(1);
        }
    }
    count
}

/// What is asked, in short.
#[derive(Clone, Copy)]
pub(crate) enum Ask {
    /// A call wants 600 units and takes 50, at a moment.
    Reserve(u64, u64),
    /// A call wants a unit more than a day.
    PastDay(u64),
    /// A call reports the time that was talked, in 100 ms.
    Settle(u64, u32),
    Return(u64),
    /// An amount, and the last moment from then on.
    Credit(u64, Option<u64>),
}

/// The operation that asks it.
pub(crate) fn op_of(ask: Ask) -> Op {
    match ask {
        Ask::Reserve(call, at) => reserve(call, 600, at),
        Ask::PastDay(call) => reserve(call, 864_001, 0),
        Ask::Settle(call, t) => Op::Settle {
            call,
            number: 7,
            info: TimeInfo::NoSwitch { t },
        },
        Ask::Return(call) => Op::Return { call },
        Ask::Credit(amount, until) => Op::Credit { amount, until },
    }
}

fn reserve(call: u64, wanted: u32, at: u64) -> Op {
    Op::Reserve {
        call,
        plan: CHEAPER,
        wanted,
        least: 50,
        at,
    }
}

/// Compares an answer with the one that is wanted.
pub(crate) fn says(rt: &impl Abort, op: Op, answer: Answer, want: Want) {
    gives(rt, &op, &answer, &answer_of(want));
}
