//! What an account is asked in turn, and asked again where it found no memory.

use crate::outcome::{Course, Outcome, worse_of};
use account_core::{AccountFault, Entry, Op, Reply};
use one_call::Port;
use price_core::{Plan, TimeInfo};

/// The credit that each account is opened with.
pub(crate) const OPENING: u64 = 1500;

/// How many entries each account may have.
pub(crate) const LIMIT: u32 = 100;

/// How many operations are asked.
const ASKS: u64 = 30;

/// The second rate is cheaper.
const TWO_RATES: Plan = Plan {
    fee: 50,
    before: 1000,
    after: Some(400),
    free: 0,
    first: 0,
    step: 1,
};

/// A call asks for a minute.
pub(crate) fn reserve(call: u64) -> Op {
    Op::Reserve {
        call,
        plan: TWO_RATES,
        wanted: 600,
        least: 50,
        at: 0,
    }
}

/// A call reports that minute.
pub(crate) fn settle(call: u64) -> Op {
    Op::Settle {
        call,
        number: call,
        info: TimeInfo::NoSwitch { t: 600 },
    }
}

/// What is asked.
#[derive(Clone, Copy)]
enum Ask {
    /// So much is credited.
    Credit(u64),
    /// A call asks for a minute.
    Reserve(u64),
    /// It reports that minute.
    Settle(u64),
    /// It ends.
    Return(u64),
}

impl Ask {
    fn op(self) -> Op {
        match self {
            Ask::Credit(amount) => Op::Credit {
                amount,
                until: None,
            },
            Ask::Reserve(call) => reserve(call),
            Ask::Settle(call) => settle(call),
            Ask::Return(call) => Op::Return { call },
        }
    }
}

/// What is asked for two calls that share an account, and the replies to it.
const TWO_CALLS: [(Ask, Reply); 10] = [
    (
        Ask::Reserve(1),
        Reply::Granted {
            units: 600,
            last: false,
            available: 450,
        },
    ),
    (Ask::Credit(600), Reply::Credited { available: 1050 }),
    (
        Ask::Reserve(2),
        Reply::Granted {
            units: 600,
            last: false,
            available: 0,
        },
    ),
    (
        Ask::Settle(1),
        Reply::Settled {
            paid: 1050,
            available: 0,
        },
    ),
    (
        Ask::Return(1),
        Reply::Returned {
            paid: 1050,
            available: 0,
        },
    ),
    (
        Ask::Settle(2),
        Reply::Settled {
            paid: 1050,
            available: 0,
        },
    ),
    (
        Ask::Return(2),
        Reply::Returned {
            paid: 1050,
            available: 0,
        },
    ),
    (Ask::Credit(1), Reply::Credited { available: 1 }),
    (Ask::Credit(1), Reply::Credited { available: 2 }),
    (Ask::Credit(1), Reply::Credited { available: 3 }),
];

/// What is asked at a place, and replied: two calls, and then calls that are denied.
fn ask_at(place: u64) -> (Op, Reply) {
    match TWO_CALLS.get(place as usize) {
        Some((ask, reply)) => (ask.op(), *reply),
        None => (reserve(place), Reply::Denied { available: 3 }),
    }
}

/// Whether entries are all that was asked, in order, by one seat.
pub(crate) fn are_all(entries: &[Entry], seat: u32) -> bool {
    entries.len() as u64 == ASKS && are_first(entries, seat)
}

/// Whether entries are the first that were asked, in order, by one seat.
fn are_first(entries: &[Entry], seat: u32) -> bool {
    for (place, entry) in entries.iter().enumerate() {
        let (op, reply) = ask_at(place as u64);
        if *entry != (Entry { seat, op, reply }) {
            return false;
        }
    }
    true
}

/// What is seen of an account: how many entries it has, the last one, the credit that is left, and
/// what calls 1 and 2 have paid.
#[derive(Clone, Copy, PartialEq, Eq)]
pub(crate) struct Account {
    pub entries: (usize, Option<Entry>),
    pub available: u64,
    pub paid: (Option<u64>, Option<u64>),
}

/// What is seen from outside: the account, where nobody shares it, and the entries of the seat that
/// asks, where it has a list of its own: how many there are, and the last one.
#[derive(Clone, Copy, PartialEq, Eq)]
pub(crate) struct Seen {
    pub account: Option<Account>,
    pub mine: Option<(usize, Option<Entry>)>,
}

/// How many entries there are, and the last one.
pub(crate) fn counted(entries: &[Entry]) -> (usize, Option<Entry>) {
    (entries.len(), entries.last().copied())
}

/// A port that is looked at.
pub(crate) trait Watched: Port {
    /// What is seen of it.
    fn seen(&self) -> Seen;

    /// Whether another one that asks the same account gets its answer, if any other one may ask it.
    fn is_free(&mut self) -> bool {
        true
    }
}

/// Asks all in turn.
pub(crate) fn ask_all<P: Watched>(port: &mut P) -> Course {
    let mut outcome = Outcome::Answered;
    for place in 0..ASKS {
        let (op, reply) = ask_at(place);
        outcome = worse_of(outcome, ask_twice(port, op, reply)?);
    }
    Ok(outcome)
}

/// Asks once; and where memory ran out, which has to leave all as it was, once more.
fn ask_twice<P: Watched>(port: &mut P, op: Op, reply: Reply) -> Course {
    let before = port.seen();
    match port.ask(op) {
        Ok(got) if got == reply => return Ok(Outcome::Answered),
        Err(AccountFault::OutOfMemory) => {}
        _ => return Err(Outcome::Wrong),
    }
    if port.seen() != before || !port.is_free() {
        return Err(Outcome::Wrong);
    }
    match port.ask(op) {
        Ok(got) if got == reply => Ok(Outcome::Refused),
        Err(AccountFault::OutOfMemory) if port.seen() == before => Err(Outcome::RefusedAgain),
        _ => Err(Outcome::Wrong),
    }
}
