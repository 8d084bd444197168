//! Accounts that are asked in turn, and the books that they are closed with.

ghost use Rattle.std.specs.Prelude.{◌≡◌, ◌≤◌};

use super::forms::{Ask, close, entries_of_each, op_of, says, two_seats, two_seats_within};
use super::histories::{RUNS, Row, Run};
use crate::answers::{Answer, Want};
use crate::looking::{gives, prints};
use account_core::{Book, CloseFault, Gate, Op, OpenGate, Shared};
use locked_account::SharedAccount;
use one_call::{Port, SharedPort};
use price_core::MAX_MONEY;
use std::alloc::Global;
use std::process::Abort;
use std::sync::Wait;
use turn_account::TurnAccount;

/// A gate of accounts, which is open or shut.
#[derive(Clone, Copy)]
struct Door {
    open: bool,
}

impl Gate for Door {
    ghost may_shut = { Unit {0} };

    fn before(&self, _worker: u32, _call: u64) -> bool {
        true
    }

    fn inside(&self, _account: u32) -> bool {
        self.open
    }

    fn after(&self, _worker: u32, _call: u64) {}
}

/// Asks from one of two seats.
fn ask_one<S: Shared, R: Wait>(
    rt: &R,
    account: &S,
    first: &mut S::Seat,
    second: &mut S::Seat,
    seat: u32,
    op: Op,
    gate: Door,
) -> Answer
    requires first { S.reads.key first.old ≡ S.key account.now }
    requires second { S.reads.key second.old ≡ S.key account.now }
    ensures first { S.reads.key first.new ≡ S.key account.now }
    ensures second { S.reads.key second.new ≡ S.key account.now }
{
    if seat == 0 {
        return account.call(rt, first, op, &gate);
    }
    account.call(rt, second, op, &gate)
}

/// The book of account 1, whose two seats asked in turn.
fn book_of<S: Shared, R: Abort + Wait>(
    rt: &R,
    alloc: Global,
    terms: (u64, Option<u64>, u32),
    rows: &[Row],
) -> Book
    requires { terms.0 ≤ MAX_MONEY }
{
    let (opening, until, limit) = terms;
    let (account, mut first, mut second) = two_seats_within::<S, R>(
        rt, alloc, 1, opening, until, limit,
    );
    for (seat, open, ask, want) in rows {
        let (op, gate) = (op_of(*ask), Door { open: *open });
        let answer = ask_one(rt, &account, &mut first, &mut second, *seat, op, gate);
        says(rt, op, answer, *want);
    }
    close(rt, alloc, account, first, second).expect(rt, "a book")
}

/// Compares a book with what its account was opened with.
fn expect_terms(rt: &impl Abort, book: &Book, run: &Run) {
    let (opening, until, limit, _, made, _, _) = run;
    let found = (book.account(), book.opening(), book.until(), book.limit());
    gives(rt, made, &found, &(1, *opening, *until, *limit));
    let entries = made.0.saturating_add(made.1);
    let found = (entries_of_each(book), book.history().len());
    gives(rt, made, &found, &(*made, entries));
}

/// Compares what a book sums up to.
fn expect_summary(rt: &impl Abort, alloc: Global, book: &Book, run: &Run) {
    let (opening, _, _, _, made, available, calls) = run;
    let summary = book.summary(alloc).expect(rt, "memory");
    let found = (summary.account, summary.opening, summary.available);
    gives(rt, made, &found, &(1, *opening, *available));
    gives(rt, made, &summary.entries, &made.0.saturating_add(made.1));
    gives(rt, made, &summary.calls.as_slice(), calls);
}

/// Compares the book of an account of a form, and what it sums up to.
fn sums_up<S: Shared, R: Abort + Wait>(rt: &R, alloc: Global, run: &Run) {
    let (opening, until, limit, rows, _, _, _) = run;
    assert!(rt; *opening <= MAX_MONEY);
    let book = book_of::<S, R>(rt, alloc, (*opening, *until, *limit), rows);
    expect_terms(rt, &book, run);
    expect_summary(rt, alloc, &book, run);
}

#[test]
fn sums_up_its_calls(rt: HostRuntime) {
    for run in &RUNS {
        sums_up::<SharedAccount, _>(&rt, rt.alloc(), run);
        sums_up::<TurnAccount, _>(&rt, rt.alloc(), run);
    }
}

/// A port asks from its seat, and another seat is answered after it.
fn asks_by_port<S: Shared, R: Abort + Wait>(rt: &R, alloc: Global) {
    let (account, mut first, mut second) = two_seats::<S, R>(rt, alloc, 1, 1500, None);
    let mut port = SharedPort::new(&account, &mut second, rt, &OpenGate);
    let op = op_of(Ask::Reserve(1, 0));
    says(rt, op, port.ask(op), Want::Granted(600, false, 450));
    let op = op_of(Ask::Credit(10, None));
    let answer = account.call(rt, &mut first, op, &OpenGate);
    says(rt, op, answer, Want::Credited(460));
}

#[test]
fn ports_ask_from_a_seat(rt: HostRuntime) {
    asks_by_port::<SharedAccount, _>(&rt, rt.alloc());
    asks_by_port::<TurnAccount, _>(&rt, rt.alloc());
}

const FAULTS: [(CloseFault, u8, &str); 2] = [
    (CloseFault::Seats, 1, "the seats aren't all there in order"),
    (
        CloseFault::Mismatch,
        2,
        "the history isn't what the seats have entered",
    ),
];

#[test]
fn names_its_faults(rt: HostRuntime) {
    for &(fault, number, want) in &FAULTS {
        prints(&rt, rt.alloc(), &fault, &fault, want);
        gives(&rt, &fault, &fault.code(), &number);
    }
    assert!(rt; OpenGate.before(0, 1) && OpenGate.inside(1));
}
