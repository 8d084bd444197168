//! Every rule of the service.

use crate::looking::gives;
use crate::making::{arms, charge, number};
use crate::plans::CHEAPER;
use account_core::{AccountFault, Op, Reply};
use cap_values::{Cause, Event, Instructions, Leg, Mode, SsfMsg};
use dialogue_core::{Dialogue, DialogueFault, ServiceConfig, Turn};
use price_core::{Route, TimeInfo};
use std::process::Abort;

/// What a dialogue is handed.
enum Input {
    Initial,
    /// A report of 300 units, and whether the call goes on.
    Report(bool),
    Event(Event, Option<Leg>, Mode),
    Ended,
    Answer(Reply),
    Refusal,
}

/// What it is to do then.
enum Want {
    /// 600 units are reserved.
    Reserve,
    /// The report is settled.
    Settle,
    Return,
    Nothing,
    Continue,
    /// The call is cleared with this cause.
    Release(u8),
    /// A further period: its length.
    Charge(u32),
    /// The call is watched, charged for a period and continued: its length, and whether it is the
    /// last.
    Start(u32, bool),
    Done,
    Fault(DialogueFault),
}

const CONFIG: ServiceConfig = ServiceConfig {
    wanted: 600,
    least: 50,
    tccd: 50,
};

/// The tariff switches after 600 units.
const ROUTE: Route = Route {
    plan: CHEAPER,
    switch_at: Some(600),
};

/// More time is asked for at a moment.
fn reserve(at: u64) -> Op {
    Op::Reserve {
        call: 1,
        plan: CHEAPER,
        wanted: 600,
        least: 50,
        at,
    }
}

const SETTLE: Op = Op::Settle {
    call: 1,
    number: 7,
    info: TimeInfo::NoSwitch { t: 300 },
};

const UNALLOCATED_NUMBER: u8 = 1;

const NORMAL_CLEARING: u8 = 16;

const CALL_REJECTED: u8 = 21;

const TEMPORARY_FAILURE: u8 = 41;

const ASK_PENDING: Want = Want::Fault(DialogueFault::AskPending);

const NO_ASK: Want = Want::Fault(DialogueFault::NoAskPending);

const UNEXPECTED: Want = Want::Fault(DialogueFault::Unexpected);

const ANSWER: Input = Input::Event(Event::Answer, None, Mode::NotifyAndContinue);

const BUSY: Input = Input::Event(Event::CalledPartyBusy, None, Mode::NotifyAndContinue);

const HUNG_UP: Input = Input::Event(Event::Disconnect, Some(Leg::One), Mode::Interrupted);

const GRANTED: Input = Input::Answer(Reply::Granted {
    units: 240,
    last: true,
    available: 0,
});

const GRANTED_MORE: Input = Input::Answer(Reply::Granted {
    units: 270,
    last: true,
    available: 0,
});

const GRANTED_A_DAY: Input = Input::Answer(Reply::Granted {
    units: 864_000,
    last: false,
    available: 0,
});

const GRANTED_PAST_A_DAY: Input = Input::Answer(Reply::Granted {
    units: 864_001,
    last: false,
    available: 0,
});

const GRANTED_NOTHING: Input = Input::Answer(Reply::Granted {
    units: 0,
    last: false,
    available: 0,
});

const GRANTED_NOTHING_AT_LAST: Input = Input::Answer(Reply::Granted {
    units: 0,
    last: true,
    available: 0,
});

const DENIED: Input = Input::Answer(Reply::Denied { available: 0 });

const SETTLED: Input = Input::Answer(Reply::Settled {
    paid: 0,
    available: 0,
});

const FORFEIT: Input = Input::Answer(Reply::Forfeit {
    paid: 0,
    available: 0,
});

const RETURNED: Input = Input::Answer(Reply::Returned {
    paid: 0,
    available: 0,
});

/// Dialogues: what each is handed in turn, and what it is to do.
static DIALOGUES: [(&str, &[(Input, Want)]); 14] = [
    (
        "the first ask",
        &[
            (Input::Initial, ASK_PENDING),
            (BUSY, ASK_PENDING),
            (Input::Ended, ASK_PENDING),
            (SETTLED, UNEXPECTED),
            (RETURNED, UNEXPECTED),
            (GRANTED_NOTHING_AT_LAST, UNEXPECTED),
            (GRANTED_PAST_A_DAY, UNEXPECTED),
            (GRANTED, Want::Start(240, true)),
            (GRANTED, NO_ASK),
            (Input::Refusal, NO_ASK),
            (Input::Initial, UNEXPECTED),
        ],
    ),
    (
        "a grant of a day",
        &[(GRANTED_A_DAY, Want::Start(864_000, false))],
    ),
    (
        "a denial",
        &[(DENIED, Want::Release(CALL_REJECTED)), (DENIED, NO_ASK)],
    ),
    (
        "a refusal",
        &[
            (Input::Refusal, Want::Release(TEMPORARY_FAILURE)),
            (Input::Ended, Want::Done),
        ],
    ),
    (
        "a running call",
        &[
            (GRANTED, Want::Start(240, true)),
            (ANSWER, Want::Nothing),
            (Input::Initial, UNEXPECTED),
            (SETTLED, NO_ASK),
            (BUSY, Want::Return),
            (BUSY, ASK_PENDING),
            (SETTLED, UNEXPECTED),
            (RETURNED, Want::Nothing),
            (Input::Report(true), UNEXPECTED),
            (Input::Initial, UNEXPECTED),
            (BUSY, Want::Nothing),
            (HUNG_UP, Want::Continue),
            (RETURNED, NO_ASK),
            (Input::Refusal, NO_ASK),
            (Input::Ended, Want::Done),
            (Input::Ended, UNEXPECTED),
            (BUSY, UNEXPECTED),
            (RETURNED, NO_ASK),
            (Input::Refusal, NO_ASK),
        ],
    ),
    (
        "a party that hangs up",
        &[
            (GRANTED, Want::Start(240, true)),
            (HUNG_UP, Want::Return),
            (RETURNED, Want::Continue),
        ],
    ),
    (
        "an end, and a refusal",
        &[
            (GRANTED, Want::Start(240, true)),
            (Input::Ended, Want::Return),
            (Input::Refusal, Want::Done),
        ],
    ),
    (
        "an active report, and the last one",
        &[
            (GRANTED, Want::Start(240, true)),
            (Input::Report(true), Want::Settle),
            (Input::Ended, ASK_PENDING),
            (RETURNED, UNEXPECTED),
            (SETTLED, Want::Reserve),
            (Input::Ended, ASK_PENDING),
            (SETTLED, UNEXPECTED),
            (GRANTED_NOTHING, UNEXPECTED),
            (GRANTED_MORE, Want::Charge(270)),
            (Input::Report(false), Want::Settle),
            (SETTLED, Want::Return),
            (RETURNED, Want::Nothing),
        ],
    ),
    (
        "an active report that is forfeit",
        &[
            (GRANTED, Want::Start(240, true)),
            (Input::Report(true), Want::Settle),
            (FORFEIT, Want::Return),
            (RETURNED, Want::Release(TEMPORARY_FAILURE)),
        ],
    ),
    (
        "an active report that is refused",
        &[
            (GRANTED, Want::Start(240, true)),
            (Input::Report(true), Want::Settle),
            (Input::Refusal, Want::Return),
            (Input::Refusal, Want::Release(TEMPORARY_FAILURE)),
        ],
    ),
    (
        "a last report that is forfeit",
        &[
            (GRANTED, Want::Start(240, true)),
            (Input::Report(false), Want::Settle),
            (FORFEIT, Want::Return),
            (RETURNED, Want::Nothing),
        ],
    ),
    (
        "a last report that is refused",
        &[
            (GRANTED, Want::Start(240, true)),
            (Input::Report(false), Want::Settle),
            (Input::Refusal, Want::Return),
            (RETURNED, Want::Nothing),
        ],
    ),
    (
        "a further grant that is denied",
        &[
            (GRANTED, Want::Start(240, true)),
            (Input::Report(true), Want::Settle),
            (SETTLED, Want::Reserve),
            (DENIED, Want::Return),
            (RETURNED, Want::Release(NORMAL_CLEARING)),
        ],
    ),
    (
        "a further grant that is refused",
        &[
            (GRANTED, Want::Start(240, true)),
            (Input::Report(true), Want::Settle),
            (SETTLED, Want::Reserve),
            (Input::Refusal, Want::Return),
            (RETURNED, Want::Release(TEMPORARY_FAILURE)),
        ],
    ),
];

fn initial(rt: &impl Abort) -> SsfMsg {
    SsfMsg::InitialDp {
        call: 1,
        calling: number(rt, "491700001"),
        called: number(rt, "4930"),
    }
}

fn report(active: bool) -> SsfMsg {
    SsfMsg::ChargingReport {
        active,
        info: TimeInfo::NoSwitch { t: 300 },
    }
}

/// The turn that is wanted, where the last report was of this moment.
fn wanted(rt: &impl Abort, want: &Want, reported: u64) -> Result<Turn, DialogueFault> {
    Ok(match *want {
        Want::Reserve => Turn::Ask(reserve(reported)),
        Want::Settle => Turn::Ask(SETTLE),
        Want::Return => Turn::Ask(Op::Return { call: 1 }),
        Want::Nothing => Turn::Send(Instructions::Nothing),
        Want::Continue => Turn::Send(Instructions::GoOn),
        Want::Release(cause) => released(rt, cause),
        Want::Charge(period) => {
            let charge = charge(rt, period, None, true);
            Turn::Send(Instructions::FurtherPeriod(charge))
        }
        Want::Start(period, last) => {
            let arms = arms(rt, Mode::NotifyAndContinue);
            let charge = charge(rt, period, Some(60), last);
            Turn::Send(Instructions::FirstPeriod(arms, charge))
        }
        Want::Done => Turn::Done,
        Want::Fault(fault) => return Err(fault),
    })
}

/// The turn that clears the call with this cause.
fn released(rt: &impl Abort, cause: u8) -> Turn {
    Turn::Send(Instructions::Release(Cause::new(cause).expect(rt, "a cause")))
}

/// Hands a dialogue an input at a moment.
fn handed(
    rt: &impl Abort,
    dialogue: &mut Dialogue,
    at: u64,
    input: &Input,
) -> Result<Turn, DialogueFault> {
    match *input {
        Input::Initial => dialogue.take(7, at, initial(rt)),
        Input::Report(active) => dialogue.take(7, at, report(active)),
        Input::Event(event, leg, mode) => {
            dialogue.take(7, at, SsfMsg::EventReport { event, leg, mode })
        }
        Input::Ended => dialogue.take(7, at, SsfMsg::Ended),
        Input::Answer(reply) => dialogue.answer(reply),
        Input::Refusal => dialogue.refused(AccountFault::OutOfMemory),
    }
}

/// Hands a dialogue one input after the other, each at a later moment, and looks at each turn.
fn plays(rt: &impl Abort, name: &str, rows: &[(Input, Want)]) {
    let (mut dialogue, first) = Dialogue::begin(1, 0, Some(ROUTE), &CONFIG);
    gives(rt, &name, &first, &Turn::Ask(reserve(0)));
    let mut reported = 0;
    for (row, (input, want)) in rows.iter().enumerate() {
        let before = dialogue;
        let at = (row as u64).saturating_add(1);
        if let Input::Report(_) = input {
            reported = at;
        }
        let turn = handed(rt, &mut dialogue, at, input);
        let kept = turn.is_ok() || dialogue == before;
        let wanted = wanted(rt, want, reported);
        gives(rt, &(name, row), &(turn, kept), &(wanted, true));
    }
}

#[test]
fn dialogues_play_every_row(rt: HostRuntime) {
    for &(name, rows) in &DIALOGUES {
        plays(&rt, name, rows);
    }
    let (_, turn) = Dialogue::begin(1, 0, None, &CONFIG);
    let released = released(&rt, UNALLOCATED_NUMBER);
    gives(&rt, &"with no route", &turn, &released);
}
