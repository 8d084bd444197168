//! Runs of a few posts by two workers, over two accounts of 1500 that have one of the two forms.

use super::meeting::{Meeting, Of};
use super::messages::{Round, Say, bodies_of, recharge};
use super::rounds::Rounds;
use super::setups::set_up;
use super::shutting::{ALWAYS, Holding, Shutting};
use crate::looking::gives;
use crate::making::number;
use account_core::{AccountFault, Book, Gate, MIN_LIMIT, Shared};
use cap_values::Instructions;
use locked_account::SharedAccount;
use run_values::{Answer, Body, OpeningCredit, RunFault, RunSetup};
use runs_core::{refusals, serve_over};
use std::alloc::Global;
use std::process::Abort;
use std::sync::Wait;
use std::thread::Threads;
use turn_account::TurnAccount;

const ONE: &str = "491700001";

const TWO: &str = "491700002";

const OPENING: OpeningCredit = OpeningCredit {
    amount: 1500,
    until: None,
};

/// Accounts 7 and 8 with histories of this limit, a subscriber of account 7, and another one of the
/// account `second`.
fn set_up_two(rt: &impl Abort, alloc: Global, second: u32, limit: u32) -> RunSetup {
    let subscribers = [(number(rt, ONE), 7), (number(rt, TWO), second)];
    let accounts = [(7, OPENING), (8, OPENING)];
    set_up(rt, alloc, &accounts, &subscribers, limit).expect(rt, "the setup")
}

/// A run that is to be played: its setup, and the bodies of its rounds.
#[derive(Drop)]
struct Staged {
    setup: RunSetup,
    bodies: Vec<(Body, Option<Body>)>,
}

/// Stages rounds over those accounts.
fn stage(rt: &impl Abort, alloc: Global, second: u32, limit: u32, rounds: &[Round]) -> Staged {
    let setup = set_up_two(rt, alloc, second, limit);
    let bodies = bodies_of(rt, alloc, rounds);
    Staged { setup, bodies }
}

/// What comes of a run: how many entries each of its two accounts has, and for each post the last
/// fault that an ask got.
type Played = ((usize, usize), Vec<Option<AccountFault>>);

/// How many entries each of two books has; what no book can have where there aren't two.
fn counts_of(books: &[Book]) -> (usize, usize) {
    match books {
        [one, other] => (one.history().len(), other.history().len()),
        _ => (usize::MAX, usize::MAX),
    }
}

/// Plays what is staged over accounts of a form, past a gate.
fn play<S: Shared, R: Wait + Threads + Sync, G: Gate + Sync>(
    rt: &R,
    alloc: Global,
    staged: &Staged,
    gate: &G,
) -> Result<Played, RunFault> {
    let mut driver = Rounds::new(alloc, staged.bodies.as_slice());
    let books = serve_over::<_, S, _, _>(rt, alloc, &staged.setup, &mut driver, 2, gate)?;
    Ok((counts_of(books.as_slice()), driver.into_refused()))
}

/// The limit of the histories, what a gate lets pass before messages and inside accounts, the
/// rounds, how many entries account 7 has and what was refused of each post, or the fault of the
/// run; and how many messages the gate was asked for and heard of.
type Row = (
    u32,
    (u32, u32),
    &'static [Round],
    Result<(usize, &'static [Option<AccountFault>]), RunFault>,
    (u32, u32),
);

const OPEN: (u32, u32) = (ALWAYS, ALWAYS);

const CLOSED: Result<(usize, &[Option<AccountFault>]), RunFault> = Err(RunFault::GateClosed);

const RANGE: Option<AccountFault> = Some(AccountFault::OutOfRange);

const FULL: Option<AccountFault> = Some(AccountFault::HistoryFull);

const CALL: Say = Say::Begins(1, ONE);

const REPORTED: Round = (CALL, Some(Say::Reports(1, false, 300)));

const RECHARGED: Round = (Say::Recharges(7, 5), None);

const NOT_RECHARGED: Round = (Say::Recharges(7, 0), None);

const TWO_CALLS: [Round; 3] = [
    (Say::Begins(3, ONE), None),
    (CALL, None),
    (Say::Ends(1), None),
];

/// A call that asks for more.
const MORE: [Round; 4] = [
    (CALL, None),
    (Say::Reports(1, true, 600), None),
    (Say::Reports(1, false, 870), None),
    (Say::Ends(1), None),
];

static ROWS: [Row; 18] = [
    (1000, OPEN, &[REPORTED], Ok((3, &[None, None])), (2, 2)),
    (
        1000,
        OPEN,
        &[(Say::Ends(1), None)],
        Ok((0, &[None])),
        (1, 1),
    ),
    (1000, OPEN, &[RECHARGED], Ok((1, &[None])), (0, 0)),
    (1000, OPEN, &[NOT_RECHARGED], Ok((0, &[RANGE])), (0, 0)),
    (1000, (0, ALWAYS), &[(CALL, None)], CLOSED, (1, 0)),
    (1000, (0, ALWAYS), &[RECHARGED], Ok((1, &[None])), (0, 0)),
    (1000, (1, ALWAYS), &[REPORTED], CLOSED, (2, 1)),
    (1000, (ALWAYS, 0), &[(CALL, None)], CLOSED, (1, 0)),
    (1000, (ALWAYS, 0), &[RECHARGED], CLOSED, (0, 0)),
    (1000, (ALWAYS, 0), &[NOT_RECHARGED], CLOSED, (0, 0)),
    (1000, (ALWAYS, 1), &[REPORTED], CLOSED, (2, 1)),
    (
        1000,
        (ALWAYS, 1),
        &[RECHARGED, NOT_RECHARGED],
        CLOSED,
        (0, 0),
    ),
    (1000, (0, 0), &[(CALL, None)], CLOSED, (1, 0)),
    (
        MIN_LIMIT,
        OPEN,
        &TWO_CALLS,
        Ok((1, &[None, FULL, None])),
        (3, 3),
    ),
    (4, OPEN, &MORE, Ok((3, &[None, FULL, None, None])), (4, 4)),
    (5, OPEN, &MORE, Ok((5, &[None, None, None, None])), (4, 4)),
    (
        1000,
        OPEN,
        &MORE,
        Ok((5, &[None, None, None, None])),
        (4, 4),
    ),
    (
        1000,
        OPEN,
        &[(Say::Recharges(8, 0), Some(Say::Recharges(7, 5)))],
        Ok((1, &[RANGE, None])),
        (0, 0),
    ),
];

/// Compares what comes of a run with a row.
fn expect_played(rt: &impl Abort, row: &Row, played: &Result<Played, RunFault>) {
    let found = match played {
        Ok((counts, refused)) => Ok((counts.0, refused.as_slice())),
        Err(fault) => Err(*fault),
    };
    gives(rt, &(row.0, row.1), &found, &row.3);
}

/// Plays the rounds of a row over accounts of a form, and compares what comes of them.
fn expect_row<S: Shared, R: Abort + Wait + Threads + Sync>(rt: &R, alloc: Global, row: &Row) {
    let &(limit, (before, inside), rounds, _, counts) = row;
    let staged = stage(rt, alloc, 7, limit, rounds);
    let gate = Shutting::new(before, inside);
    let played = play::<S, _, _>(rt, alloc, &staged, &gate);
    expect_played(rt, row, &played);
    gives(rt, &(before, inside), &gate.counts(), &counts);
}

#[test]
fn posts_are_served_within_limits_and_past_gates(rt: HostRuntime) {
    for row in &ROWS {
        expect_row::<TurnAccount, _>(&rt, rt.alloc(), row);
        expect_row::<SharedAccount, _>(&rt, rt.alloc(), row);
    }
}

/// An answer of which this was refused.
fn answer(number: u64, refused: Option<AccountFault>) -> Answer {
    Answer {
        number,
        instructions: Instructions::Nothing,
        stray: false,
        refused,
    }
}

#[test]
fn refusals_stand_beside_the_posts(rt: HostRuntime) {
    let given = [
        (0, recharge(7, 5)),
        (0, recharge(8, 0)),
        (0, recharge(7, 0)),
    ];
    let answers = [answer(0, None), answer(1, RANGE), answer(2, FULL)];
    let lists = refusals(rt.alloc(), 2, &given, &answers).expect(&rt, "room");
    assert!(&rt; lists.len() == 2);
    gives(&rt, &0, &lists[0].as_slice(), &[RANGE].as_slice());
    gives(&rt, &1, &lists[1].as_slice(), &[None, FULL].as_slice());
}

const AT_ONCE: [Round; 1] = [(CALL, Some(Say::Begins(2, TWO)))];

/// Calls that meet at a gate, or whose accounts do: how many entries each account has then.
fn expect_met<R: Abort + Wait + Threads + Sync>(
    rt: &R,
    alloc: Global,
    second: u32,
    gate: &Meeting,
    entries: (usize, usize),
) {
    let staged = stage(rt, alloc, second, 1000, &AT_ONCE);
    let played = play::<TurnAccount, _, _>(rt, alloc, &staged, gate);
    let (counts, _) = played.expect(rt, "the run");
    gives(rt, &second, &counts, &entries);
    gives(rt, &"another worker", &gate.is_mistaken(), &false);
}

const REFUSED_FIRST: [Round; 1] = [(Say::Begins(2, TWO), Some(CALL))];

/// Where a worker has failed, the other one is waited for, though it is held.
fn waits_for_all<R: Abort + Threads + Wait + Sync>(rt: &R, alloc: Global) {
    let gate = Holding::new(2);
    let staged = stage(rt, alloc, 7, 1000, &REFUSED_FIRST);
    let fault = play::<TurnAccount, _, _>(rt, alloc, &staged, &gate).err();
    gives(rt, &"said", &gate.was_said(), &true);
    gives(rt, &"the run", &fault, &Some(RunFault::GateClosed));
}

#[test]
fn calls_and_accounts_meet(rt: HostRuntime) {
    let calls = Meeting::new(Of::Calls, 1, 2);
    expect_met(&rt, rt.alloc(), 7, &calls, (2, 0));
    let accounts = Meeting::new(Of::Accounts, 7, 8);
    expect_met(&rt, rt.alloc(), 8, &accounts, (1, 1));
    waits_for_all(&rt, rt.alloc());
}
