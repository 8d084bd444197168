//! What accounts are asked in turn, and what is answered.

use super::forms::Ask;
use crate::answers::Want;
use account_core::{AccountFault, CallSum, Fate};
use price_core::MAX_MONEY;

/// What is asked: from which seat, whether the gate is open, and the answer.
pub(crate) type Row = (u32, bool, Ask, Want);

const HOLDING: [Row; 2] = [
    (1, true, Ask::Reserve(1, 0), Want::Granted(600, false, 450)),
    (0, true, Ask::Reserve(2, 0), Want::Granted(240, true, 0)),
];

const ENDED: [Row; 7] = [
    (1, true, Ask::Reserve(7, 0), Want::Granted(600, false, 450)),
    (1, true, Ask::Settle(7, 300), Want::Settled(550, 450)),
    (1, true, Ask::Return(7), Want::Returned(550, 950)),
    (0, true, Ask::Reserve(5, 0), Want::Granted(540, true, 0)),
    (0, true, Ask::Settle(5, 600), Want::Forfeit(950, 0)),
    (0, true, Ask::Reserve(6, 0), Want::Denied(0)),
    (0, true, Ask::Return(5), Want::Returned(950, 0)),
];

const REFUSED: [Row; 11] = [
    (
        0,
        false,
        Ask::Credit(5, None),
        Want::Fault(AccountFault::GateClosed),
    ),
    (
        0,
        false,
        Ask::Credit(0, None),
        Want::Fault(AccountFault::GateClosed),
    ),
    (
        0,
        false,
        Ask::Settle(1, 600),
        Want::Fault(AccountFault::GateClosed),
    ),
    (
        0,
        false,
        Ask::Return(1),
        Want::Fault(AccountFault::GateClosed),
    ),
    (1, true, Ask::Return(1), Want::Fault(AccountFault::NotOpen)),
    (
        1,
        true,
        Ask::Credit(0, None),
        Want::Fault(AccountFault::OutOfRange),
    ),
    (
        1,
        true,
        Ask::Credit(MAX_MONEY + 1, None),
        Want::Fault(AccountFault::OutOfRange),
    ),
    (
        1,
        true,
        Ask::PastDay(1),
        Want::Fault(AccountFault::OutOfRange),
    ),
    (1, true, Ask::Credit(1, None), Want::Credited(101)),
    (1, true, Ask::Credit(MAX_MONEY, None), Want::CreditOver(101)),
    (0, true, Ask::Credit(1, None), Want::Credited(102)),
];

const FILLED: [Row; 12] = [
    (0, true, Ask::Reserve(1, 0), Want::Granted(600, false, 450)),
    (
        1,
        true,
        Ask::Settle(2, 300),
        Want::Fault(AccountFault::NotOpen),
    ),
    (
        1,
        true,
        Ask::Reserve(2, 0),
        Want::Fault(AccountFault::HistoryFull),
    ),
    (1, true, Ask::Credit(1, None), Want::Credited(451)),
    (0, true, Ask::Settle(1, 300), Want::Settled(550, 451)),
    (1, true, Ask::Credit(1, None), Want::Credited(452)),
    (
        1,
        true,
        Ask::Credit(1, None),
        Want::Fault(AccountFault::HistoryFull),
    ),
    (1, true, Ask::Return(1), Want::Returned(550, 952)),
    (
        0,
        true,
        Ask::Reserve(1, 0),
        Want::Fault(AccountFault::CallUsed),
    ),
    (0, true, Ask::Return(1), Want::Fault(AccountFault::NotOpen)),
    (
        0,
        true,
        Ask::Credit(0, None),
        Want::Fault(AccountFault::OutOfRange),
    ),
    (
        0,
        true,
        Ask::Reserve(3, 0),
        Want::Fault(AccountFault::HistoryFull),
    ),
];

const EXPIRED: [Row; 6] = [
    (
        0,
        true,
        Ask::Reserve(1, 1000),
        Want::Granted(600, false, 450),
    ),
    (1, true, Ask::Reserve(2, 1001), Want::Denied(450)),
    (0, true, Ask::Settle(1, 300), Want::Settled(550, 450)),
    (1, true, Ask::Credit(1, Some(2000)), Want::Credited(451)),
    (1, true, Ask::Reserve(2, 1001), Want::Granted(240, true, 1)),
    (0, true, Ask::Return(1), Want::Returned(550, 501)),
];

/// An opening, a last moment and a limit; what is asked, how many entries each seat makes, the
/// credit that is left, and what the calls come to.
pub(crate) type Run = (
    u64,
    Option<u64>,
    u32,
    &'static [Row],
    (usize, usize),
    u64,
    &'static [CallSum],
);

pub(crate) static RUNS: [Run; 6] = [
    (1500, None, 100, &[], (0, 0), 1500, &[]),
    (
        1500,
        None,
        100,
        &HOLDING,
        (1, 1),
        0,
        &[
            CallSum {
                call: 1,
                paid: 0,
                fate: Fate::Holding,
            },
            CallSum {
                call: 2,
                paid: 0,
                fate: Fate::Holding,
            },
        ],
    ),
    (
        1500,
        None,
        100,
        &ENDED,
        (4, 3),
        0,
        &[
            CallSum {
                call: 5,
                paid: 950,
                fate: Fate::Forfeit,
            },
            CallSum {
                call: 7,
                paid: 550,
                fate: Fate::Returned,
            },
        ],
    ),
    (100, None, 100, &REFUSED, (1, 2), 102, &[]),
    (
        1500,
        None,
        5,
        &FILLED,
        (2, 3),
        952,
        &[CallSum {
            call: 1,
            paid: 550,
            fate: Fate::Returned,
        }],
    ),
    (
        1500,
        Some(1000),
        100,
        &EXPIRED,
        (3, 3),
        501,
        &[
            CallSum {
                call: 1,
                paid: 550,
                fate: Fate::Returned,
            },
            CallSum {
                call: 2,
                paid: 0,
                fate: Fate::Holding,
            },
        ],
    ),
];
