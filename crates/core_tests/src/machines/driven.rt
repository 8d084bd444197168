//! Calls driven over an account, with `tssf` 100, `tccd` 50 and the default handling Release; 600
//! are wanted, and 50 at least. The call is charged 50 once and 1000 a minute.

use crate::looking::gives;
use crate::making::number;
use account_core::{Account, AccountFault, Op, Reply};
use dialogue_core::ServiceConfig;
use one_call::{AccountPort, CallEnd, DriveFault, Port, drive_call};
use price_core::{MAX_MONEY, Plan, Route, TimeInfo};
use ssf_core::{BcsmEvent, DefaultHandling, Moment, SsfConfig, State};
use std::process::Abort;

/// What a port does in place of asking its account.
#[derive(Clone, Copy)]
enum Habit {
    /// It asks.
    Asks,
    /// It refuses each Settle.
    Refuses,
    /// It refuses everything.
    Closed,
    /// It answers each Settle by a forfeit.
    Forfeits,
}

/// A port to an account, with a habit. It states nothing of what it keeps.
#[derive(Drop)]
struct Till {
    port: AccountPort,
    habit: Habit,
}

impl Port for Till {
    fn ask(&mut self, op: Op) -> Result<Reply, AccountFault> {
        match (self.habit, op) {
            (Habit::Closed, _) => Err(AccountFault::GateClosed),
            (Habit::Refuses, Op::Settle { .. }) => Err(AccountFault::HistoryFull),
            (Habit::Forfeits, Op::Settle { .. }) => Ok(Reply::Forfeit {
                paid: 0,
                available: 0,
            }),
            _ => self.port.ask(op),
        }
    }
}

/// What is left of an account: its entries, the number of its last Settle, what call 1 paid, and
/// the credit.
type Left = (usize, Option<u64>, Option<u64>, u64);

/// How a call ends Idle: its reports, the last of them, the forfeits, and what the gsmSSF refused.
type End = Result<(u64, Option<u32>, u64, u64), DriveFault>;

type Script = &'static [(Moment, BcsmEvent)];

const ANSWER: Script = &[(100, BcsmEvent::Answer)];

const BUSY: Script = &[(10, BcsmEvent::Busy)];

/// It is answered before the service has been heard, and so wasn't to say so.
const EARLY: Script = &[(1, BcsmEvent::Answer), (10, BcsmEvent::Busy)];

const BACKWARDS: Script = &[(100, BcsmEvent::Answer), (50, BcsmEvent::Busy)];

const UNASKED: Left = (0, None, None, 1500);

/// A habit, the opening credit with its last moment, the delay and the script of a call, how it
/// ends, and what is left.
static CALLS: [(Habit, (u64, Option<u64>), u32, Script, End, Left); 16] = [
    (
        Habit::Asks,
        (1500, None),
        2,
        ANSWER,
        Ok((2, Some(870), 0, 0)),
        (5, Some(2), Some(1500), 0),
    ),
    (
        Habit::Asks,
        (1050, None),
        2,
        ANSWER,
        Ok((1, Some(600), 0, 0)),
        (4, Some(1), Some(1050), 0),
    ),
    (
        Habit::Asks,
        (1500, None),
        2,
        BUSY,
        Ok((0, None, 0, 0)),
        (2, None, Some(0), 1500),
    ),
    (
        Habit::Asks,
        (10_000, None),
        2,
        ANSWER,
        Ok((10, Some(5970), 0, 0)),
        (21, Some(10), Some(10_000), 0),
    ),
    (
        Habit::Asks,
        (1500, None),
        2,
        EARLY,
        Ok((0, None, 0, 1)),
        (2, None, Some(0), 1500),
    ),
    // A further period comes too late.
    (
        Habit::Asks,
        (1500, None),
        50,
        ANSWER,
        Ok((1, Some(600), 0, 1)),
        (4, Some(1), Some(1050), 450),
    ),
    (
        Habit::Asks,
        (1500, None),
        0,
        ANSWER,
        Err(DriveFault::Delay),
        UNASKED,
    ),
    (
        Habit::Asks,
        (1500, None),
        51,
        ANSWER,
        Err(DriveFault::Delay),
        UNASKED,
    ),
    (
        Habit::Asks,
        (1500, None),
        2,
        BACKWARDS,
        Err(DriveFault::Backwards),
        UNASKED,
    ),
    (
        Habit::Asks,
        (1500, None),
        0,
        BACKWARDS,
        Err(DriveFault::Backwards),
        UNASKED,
    ),
    // The second period is asked for at 700.
    (
        Habit::Asks,
        (1500, Some(700)),
        2,
        ANSWER,
        Ok((2, Some(870), 0, 0)),
        (5, Some(2), Some(1500), 0),
    ),
    (
        Habit::Asks,
        (1500, Some(699)),
        2,
        ANSWER,
        Ok((1, Some(600), 0, 0)),
        (4, Some(1), Some(1050), 450),
    ),
    (
        Habit::Closed,
        (1500, None),
        2,
        &[],
        Ok((0, None, 0, 0)),
        UNASKED,
    ),
    // Its call is cleared by the time that it would be answered.
    (
        Habit::Closed,
        (1500, None),
        2,
        ANSWER,
        Ok((0, None, 0, 1)),
        UNASKED,
    ),
    (
        Habit::Refuses,
        (1500, None),
        2,
        ANSWER,
        Ok((1, Some(600), 0, 0)),
        (2, None, Some(0), 1500),
    ),
    (
        Habit::Forfeits,
        (1500, None),
        2,
        ANSWER,
        Ok((1, Some(600), 1, 0)),
        (2, None, Some(0), 1500),
    ),
];

const SERVICE: ServiceConfig = ServiceConfig {
    wanted: 600,
    least: 50,
    tccd: 50,
};

const SWITCH: SsfConfig = SsfConfig {
    tssf: 100,
    tccd: 50,
    default_handling: DefaultHandling::Release,
};

const ROUTE: Route = Route {
    plan: Plan {
        fee: 50,
        before: 1000,
        after: None,
        free: 0,
        first: 0,
        step: 1,
    },
    switch_at: None,
};

/// Drives call 1 from 0.
fn driven<R: Abort + AllocGlobal>(
    rt: &R,
    till: &mut Till,
    delay: u32,
    script: Script,
) -> Result<CallEnd, DriveFault> {
    assert!(rt; script.iter().all(|next| next.0 <= 1_000_000_000_000));
    let calling = number(rt, "491700001");
    let called = number(rt, "4930123456");
    let call = (1, calling, called);
    let alloc = rt.alloc();
    drive_call(
        alloc,
        SWITCH,
        &SERVICE,
        delay,
        0,
        call,
        Some(ROUTE),
        script,
        till,
    )
}

fn end_of(end: End) -> Result<CallEnd, DriveFault> {
    let (reports, last, forfeits, refused) = end?;
    Ok(CallEnd {
        state: State::Idle,
        reports,
        forfeits,
        last: last.map(|t| TimeInfo::NoSwitch { t }),
        refused,
    })
}

/// The number of the last Settle: how many messages were heard before it.
fn last_settle(account: &Account) -> Option<u64> {
    let mut last = None;
    for entry in account.history() {
        if let Op::Settle { number, .. } = entry.op {
            last = Some(number);
        }
    }
    last
}

fn left(account: &Account) -> Left {
    (
        account.history().len(),
        last_settle(account),
        account.paid(1),
        account.available(),
    )
}

/// Opens an account, drives a call over it by a port with a habit, and looks at how it ends and
/// what is left.
fn drives<R: Abort + AllocGlobal>(
    rt: &R,
    habit: Habit,
    (opening, until): (u64, Option<u64>),
    delay: u32,
    script: Script,
    want: &(Result<CallEnd, DriveFault>, Left),
) {
    assert!(rt; opening <= MAX_MONEY);
    let port = AccountPort::new(Account::new(rt.alloc(), opening, until, 1000), 0);
    let mut till = Till { port, habit };
    let met = driven(rt, &mut till, delay, script);
    let found = (met, left(&till.port.account));
    gives(rt, &(until, delay, script), &found, want);
}

#[test]
fn calls_are_paid_or_not_driven(rt: HostRuntime) {
    for &(habit, opened, delay, script, end, account) in &CALLS {
        drives(&rt, habit, opened, delay, script, &(end_of(end), account));
    }
}
