//! A call that is driven over an account.

use crate::accounts::account;
use crate::outcome::{Course, Outcome, expect};
use account_core::Account;
use cap_values::Number;
use dialogue_core::ServiceConfig;
use one_call::{AccountPort, CallEnd, drive_call};
use price_core::{Plan, Route, TimeInfo};
use ssf_core::{BcsmEvent, DefaultHandling, SsfConfig, State};
use std::alloc::Global;

/// What the service asks the account for.
const SERVICE: ServiceConfig = ServiceConfig {
    wanted: 600,
    least: 50,
    tccd: 50,
};

/// What the gsmSSF waits for.
const SWITCH: SsfConfig = SsfConfig {
    tssf: 100,
    tccd: 50,
    default_handling: DefaultHandling::Release,
};

/// What the call is charged by.
const ROUTE: Route = Route {
    plan: Plan {
        fee: 50,
        before: 1000,
        after: None,
        free: 0,
        first: 0,
        step: 1,
    },
    switch_at: None,
};

/// What is left of an account: its entries, what call 1 has paid, and the credit.
type Left = (usize, Option<u64>, u64);

/// The reports of a call, the times of the last one, and how many inputs its gsmSSF has refused.
type Reports = (u64, Option<u32>, u64);

/// A call that talks until its account has no more credit.
const WHOLE: (Reports, Left) = ((2, Some(870), 0), (5, Some(1500), 0));

/// One for whose first grant there is no memory: it is cleared, and its answer comes too late.
const NOT_GRANTED: (Reports, Left) = ((0, None, 1), (0, None, 1500));

/// One for whose second grant there is no memory.
const GRANTED_ONCE: (Reports, Left) = ((1, Some(600), 0), (3, Some(1050), 450));

/// What a call has ended with, where it has ended as it has to, without a forfeit.
fn reports_of(end: &CallEnd) -> Option<Reports> {
    let last = match end.last {
        Some(TimeInfo::NoSwitch { t }) => Some(t),
        Some(TimeInfo::Switch { .. }) => return None,
        None => None,
    };
    if end.state != State::Idle || end.forfeits != 0 {
        return None;
    }
    Some((end.reports, last, end.refused))
}

/// Drives a call that is answered after ten seconds.
pub(crate) fn drives(alloc: Global) -> Course {
    let mut port = AccountPort::new(account(alloc), 0);
    let end = drive(alloc, &mut port)?;
    outcome_of(&end, &port.account)
}

/// Drives it over an account.
fn drive(alloc: Global, port: &mut AccountPort) -> Result<CallEnd, Outcome> {
    let call = (1, Number::new("491700001")?, Number::new("4930")?);
    let script = [(100, BcsmEvent::Answer)];
    Ok(drive_call(
        alloc,
        SWITCH,
        &SERVICE,
        2,
        0,
        call,
        Some(ROUTE),
        &script,
        port,
    )?)
}

/// How that went, by how the call has ended and what is left of the account.
fn outcome_of(end: &CallEnd, account: &Account) -> Course {
    let left = (
        account.history().len(),
        account.paid(1),
        account.available(),
    );
    let Some(reports) = reports_of(end) else {
        return Err(Outcome::Wrong);
    };
    let found = (reports, left);
    if found == WHOLE {
        return Ok(Outcome::Answered);
    }
    expect(found == NOT_GRANTED || found == GRANTED_ONCE)?;
    Ok(Outcome::Refused)
}
