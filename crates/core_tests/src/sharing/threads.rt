//! Seats in threads of their own.

ghost use Rattle.std.specs.Prelude.{◌≡◌};

use super::forms::{Ask, close, op_of, two_seats};
use crate::answers::{Answer, Want, answer_of};
use crate::looking::gives;
use account_core::{AccountFault, Gate, Op, Shared};
use locked_account::SharedAccount;
use std::alloc::Global;
use std::process::Abort;
use std::sync::Wait;
use std::sync::atomic::{AtomicBool, AtomicU64, Ordering};
use std::thread;
use std::thread::Threads;
use turn_account::TurnAccount;

/// Holds what it is asked before a call, or inside an account, until another call was answered.
#[derive(Drop)]
struct Holds {
    before: u64,
    inside: u32,
    until: u64,
    answered: AtomicBool,
}

impl Holds {
    fn new(before: u64, inside: u32, until: u64) -> Holds {
        Holds {
            before,
            inside,
            until,
            answered: AtomicBool::new(false),
        }
    }

    fn waits(&self) -> bool {
        for _ in 0..1_000_000_000u32 {
            if self.answered.load(Ordering::SeqCst) {
                return true;
            }
            thread::yield_now();
        }
        false
    }
}

impl Gate for Holds {
    ghost may_shut = { Unit {0} };

    fn before(&self, _worker: u32, call: u64) -> bool {
        call != self.before || self.waits()
    }

    fn inside(&self, account: u32) -> bool {
        account != self.inside || self.waits()
    }

    fn after(&self, _worker: u32, call: u64) {
        if call == self.until {
            self.answered.store(true, Ordering::SeqCst);
        }
    }
}

/// Holds a call inside until both threads ask, and a little longer. It is shut for a call that
/// comes inside meanwhile.
#[derive(Drop)]
struct OneInside {
    asking: AtomicU64,
    busy: AtomicBool,
}

impl OneInside {
    fn new() -> OneInside {
        OneInside {
            asking: AtomicU64::new(0),
            busy: AtomicBool::new(false),
        }
    }

    fn waits(&self) {
        wait_for_two(&self.asking);
        for _ in 0..2000u32 {
            thread::yield_now();
        }
    }
}

/// Waits until two threads were counted, for at most 1,000,000,000 turns.
pub(crate) fn wait_for_two(count: &AtomicU64) {
    for _ in 0..1_000_000_000u32 {
        if count.load(Ordering::SeqCst) == 2 {
            return;
        }
        thread::yield_now();
    }
}

impl Gate for OneInside {
    ghost may_shut = { Unit {0} };

    fn before(&self, _worker: u32, _call: u64) -> bool {
        self.asking.fetch_add(1, Ordering::SeqCst);
        true
    }

    fn inside(&self, _account: u32) -> bool {
        let is_alone = !self.busy.swap(true, Ordering::SeqCst);
        self.waits();
        self.busy.store(false, Ordering::SeqCst);
        is_alone
    }

    fn after(&self, _worker: u32, _call: u64) {}
}

/// What one asks, and what it gets.
type Ops = (Op, Option<Op>);

type Answers = (Answer, Option<Answer>);

/// Asks once more, if there is something to ask.
fn ask_more<S: Shared, R: Wait, G: Gate>(
    rt: &R,
    account: &S,
    seat: &mut S::Seat,
    op: Option<Op>,
    gate: &G,
) -> Option<Answer>
    requires { S.reads.key seat.old ≡ S.key account.now }
    ensures { S.reads.key seat.new ≡ S.key account.now }
{
    let op = op?;
    Some(account.call(rt, seat, op, gate))
}

/// Asks from a seat once or twice, past the gate, and gives the seat back with the answers.
fn ask<S: Shared, R: Wait, G: Gate>(
    rt: &R,
    account: &S,
    mut seat: S::Seat,
    ops: Ops,
    gate: &G,
) -> (S::Seat, Answers)
    requires { S.reads.key seat ≡ S.key account.now }
    ensures { S.reads.key result.0 ≡ S.key account.now }
{
    let (op, later) = ops;
    if !gate.before(0, op.call()) {
        return (seat, (Err(AccountFault::GateClosed), None));
    }
    let answer = account.call(rt, &mut seat, op, gate);
    let more = ask_more(rt, account, &mut seat, later, gate);
    gate.after(0, op.call());
    (seat, (answer, more))
}

/// Asks two accounts, or one from two seats, in two threads at the same time.
fn ask_both<S: Shared, R: Threads + Wait + Sync, G: Gate + Sync>(
    rt: &R,
    accounts: (&S, &S),
    seats: (S::Seat, S::Seat),
    ops: (Ops, Ops),
    gate: &G,
) -> ((S::Seat, Answers), (S::Seat, Answers))
    requires first { S.reads.key seats.0 ≡ S.key accounts.0.now }
    requires second { S.reads.key seats.1 ≡ S.key accounts.1.now }
    ensures first { S.reads.key result.0.0 ≡ S.reads.key seats.0 }
    ensures second { S.reads.key result.1.0 ≡ S.reads.key seats.1 }
{
    let (one, other) = accounts;
    let (first, second) = seats;
    let (first_ops, second_ops) = ops;
    thread::join(
        rt,
        move || -> (S::Seat, Answers)
            requires { S.reads.key first ≡ S.key one.now }
            ensures { S.reads.key result.0 ≡ S.reads.key first }
        { ask(rt, one, first, first_ops, gate) },
        move || -> (S::Seat, Answers)
            requires { S.reads.key second ≡ S.key other.now }
            ensures { S.reads.key result.0 ≡ S.reads.key second }
        { ask(rt, other, second, second_ops, gate) },
    )
}

/// Asks account 1, which opened with 1500, from two seats at the same time, closes it, and gives
/// the answers and how many entries its book has.
fn ask_one_account<S: Shared, R: Abort + Threads + Wait + Sync, G: Gate + Sync>(
    rt: &R,
    alloc: Global,
    ops: (Ops, Ops),
    gate: &G,
) -> (Answers, Answers, usize) {
    let (account, first, second) = two_seats::<S, R>(rt, alloc, 1, 1500, None);
    let ((first, one), (second, other)) = ask_both(
        rt,
        (&account, &account),
        (first, second),
        ops,
        gate,
    );
    let book = close(rt, alloc, account, first, second).expect(rt, "a book");
    (one, other, book.history().len())
}

/// Two threads are granted what there is, one after the other, whoever comes first.
fn grants_what_there_is<S: Shared, R: Abort + Threads + Wait + Sync>(rt: &R, alloc: Global) {
    let ops = (
        (op_of(Ask::Reserve(1, 0)), None),
        (op_of(Ask::Reserve(2, 0)), None),
    );
    let gate = OneInside::new();
    let ((one, _), (other, _), entries) = ask_one_account::<S, R, _>(rt, alloc, ops, &gate);
    let whole = answer_of(Want::Granted(600, false, 450));
    let rest = answer_of(Want::Granted(240, true, 0));
    assert!(rt; (one == whole && other == rest) || (one == rest && other == whole));
    gives(rt, &"what there is", &entries, &2);
}

/// A thread that waits for a credit in another is granted more.
fn grants_more_later<S: Shared, R: Abort + Threads + Wait + Sync>(rt: &R, alloc: Global) {
    let ops = (
        (
            op_of(Ask::Reserve(1, 0)),
            Some(op_of(Ask::Credit(600, None))),
        ),
        (op_of(Ask::Reserve(2, 0)), None),
    );
    let gate = Holds::new(2, 0, 1);
    let (one, other, entries) = ask_one_account::<S, R, _>(rt, alloc, ops, &gate);
    let granted = answer_of(Want::Granted(600, false, 450));
    let credited = answer_of(Want::Credited(1050));
    gives(rt, &"more later", &one, &(granted, Some(credited)));
    let granted_more = answer_of(Want::Granted(600, false, 0));
    gives(rt, &"more later", &other, &(granted_more, None));
    gives(rt, &"more later", &entries, &3);
}

/// Asks accounts 1 and 2, which opened with 1500, from a seat each at the same time, and gives the
/// answers.
fn ask_two_accounts<S: Shared, R: Abort + Threads + Wait + Sync, G: Gate + Sync>(
    rt: &R,
    alloc: Global,
    ops: (Ops, Ops),
    gate: &G,
) -> (Answers, Answers) {
    let (account, first, _) = two_seats::<S, R>(rt, alloc, 1, 1500, None);
    let (other_account, second, _) = two_seats::<S, R>(rt, alloc, 2, 1500, None);
    let ((_, one), (_, other)) = ask_both(
        rt,
        (&account, &other_account),
        (first, second),
        ops,
        gate,
    );
    (one, other)
}

/// A call that is held inside an account keeps none from another account.
fn holds_one_alone<S: Shared, R: Abort + Threads + Wait + Sync>(rt: &R, alloc: Global) {
    let ops = (
        (op_of(Ask::Reserve(1, 0)), None),
        (op_of(Ask::Reserve(2, 0)), None),
    );
    let gate = Holds::new(0, 1, 2);
    let (one, other) = ask_two_accounts::<S, R, _>(rt, alloc, ops, &gate);
    let granted = (answer_of(Want::Granted(600, false, 450)), None);
    gives(rt, &"one alone", &one, &granted);
    gives(rt, &"one alone", &other, &granted);
}

/// Asks accounts of a form in two threads at the same time.
fn asks_in_two_threads<S: Shared, R: Abort + Threads + Wait + Sync>(rt: &R, alloc: Global) {
    grants_what_there_is::<S, R>(rt, alloc);
    grants_more_later::<S, R>(rt, alloc);
    holds_one_alone::<S, R>(rt, alloc);
}

#[test]
fn threads_share_accounts(rt: HostRuntime) {
    asks_in_two_threads::<SharedAccount, _>(&rt, rt.alloc());
    asks_in_two_threads::<TurnAccount, _>(&rt, rt.alloc());
}
