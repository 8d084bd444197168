//! Setups that are made, and setups that aren't.

use crate::looking::gives;
use crate::making::number;
use cap_values::Number;
use dialogue_core::ServiceConfig;
use run_values::{OpeningCredit, RunSetup, SetupFault};
use std::alloc::Global;
use std::process::Abort;
use tariff_core::Tariff;

/// One band for called numbers that begin with 49.
const BAND: &[u8] = b"prefix,from,fee,rate\n49,00:00,50,1000\n";

/// A setup over that band, with one service.
pub(crate) fn set_up(
    rt: &impl Abort,
    alloc: Global,
    accounts: &[(u32, OpeningCredit)],
    subscribers: &[(Number, u32)],
    limit: u32,
) -> Result<RunSetup, SetupFault> {
    let service = ServiceConfig::new(600, 50, 50).expect(rt, "the service");
    let tariff = Tariff::read(alloc, BAND).expect(rt, "the tariff");
    RunSetup::new(alloc, accounts, subscribers, tariff, service, limit)
}

/// Accounts with their credit, the accounts of one subscriber, the limit, and the fault.
type Row = (
    &'static [(u32, OpeningCredit)],
    &'static [u32],
    u32,
    Option<SetupFault>,
);

const REPEATED: Option<SetupFault> = Some(SetupFault::Repeated);

const UNKNOWN: Option<SetupFault> = Some(SetupFault::Unknown);

const OUT_OF_RANGE: Option<SetupFault> = Some(SetupFault::OutOfRange);

const FIVE: OpeningCredit = OpeningCredit {
    amount: 5,
    until: None,
};

const MOST: OpeningCredit = OpeningCredit {
    amount: 1_000_000_000_000_000,
    until: Some(1_000_000_000_000),
};

const TOO_MUCH: OpeningCredit = OpeningCredit {
    amount: 1_000_000_000_000_001,
    until: None,
};

const TOO_LATE: OpeningCredit = OpeningCredit {
    amount: 5,
    until: Some(1_000_000_000_001),
};

static ROWS: [Row; 16] = [
    (&[], &[], 3, None),
    (&[], &[], 1_000_000, None),
    (&[], &[], 2, OUT_OF_RANGE),
    (&[], &[], 1_000_001, OUT_OF_RANGE),
    (&[(7, MOST)], &[], 3, None),
    (&[(7, TOO_MUCH)], &[], 3, OUT_OF_RANGE),
    (&[(7, TOO_LATE)], &[], 3, OUT_OF_RANGE),
    (&[(7, FIVE), (7, FIVE)], &[], 3, REPEATED),
    (&[(7, FIVE), (8, FIVE), (7, MOST)], &[], 3, REPEATED),
    (&[(7, FIVE), (7, TOO_MUCH)], &[], 3, OUT_OF_RANGE),
    (&[(7, FIVE), (7, TOO_LATE)], &[], 3, OUT_OF_RANGE),
    (&[(7, FIVE)], &[7], 3, None),
    (&[(7, FIVE)], &[8], 3, UNKNOWN),
    (&[(7, FIVE)], &[7, 8], 3, REPEATED),
    (&[(7, FIVE), (7, FIVE)], &[8], 3, REPEATED),
    (&[(7, FIVE), (7, FIVE)], &[], 2, OUT_OF_RANGE),
];

/// One subscriber of each of these accounts.
fn subscribers_of(rt: &impl Abort, alloc: Global, payers: &[u32]) -> Vec<(Number, u32)> {
    let one = number(rt, "491700001");
    let mut subscribers = Vec::new(alloc);
    for account in payers {
        subscribers.push((one, *account)).expect(rt, "room");
    }
    subscribers
}

/// Why a setup isn't made, if it isn't.
fn fault_of(rt: &impl Abort, alloc: Global, row: &Row) -> Option<SetupFault> {
    let &(accounts, payers, limit, _) = row;
    let subscribers = subscribers_of(rt, alloc, payers);
    set_up(rt, alloc, accounts, subscribers.as_slice(), limit).err()
}

#[test]
fn faults_are_wanted(rt: HostRuntime) {
    for row in &ROWS {
        let fault = fault_of(&rt, rt.alloc(), row);
        gives(&rt, row, &fault, &row.3);
    }
}
