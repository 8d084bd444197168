//! The texts and the numbers of faults.

use crate::looking::{gives, prints};
use cap_values::ValueFault;
use price_core::{PlanRange, TimeRange};
use table_core::{RowFault, RowKind, TableFault};
use tariff_core::{TariffFault, TariffKind};

const KINDS: [(TariffKind, u8, &str); 14] = [
    (TariffKind::Csv, 1, "row 7: Csv"),
    (TariffKind::Header, 2, "row 7: Header"),
    (TariffKind::Digits, 3, "row 7: Digits"),
    (TariffKind::From, 4, "row 7: From"),
    (TariffKind::Money, 5, "row 7: Money"),
    (TariffKind::Repeated, 6, "row 7: Repeated"),
    (TariffKind::NoMidnightBand, 7, "row 7: NoMidnightBand"),
    (TariffKind::OutOfMemory, 8, "row 7: OutOfMemory"),
    (TariffKind::Device, 9, "row 7: Device"),
    (TariffKind::TooManyRows, 10, "row 7: TooManyRows"),
    (TariffKind::Free, 11, "row 7: Free"),
    (TariffKind::First, 12, "row 7: First"),
    (TariffKind::Step, 13, "row 7: Step"),
    (TariffKind::Days, 14, "row 7: Days"),
];

const PLAN_RANGE: &str =
    "a fee or a rate is above 1000000000, free units or a step are above 864000, or a step is 0";

const TIME_RANGE: &str = "a time of a report is out of its range";

const VALUE_FAULTS: [(ValueFault, u8, &str); 2] = [
    (
        ValueFault::ParameterOutOfRange,
        1,
        "a parameter is out of range",
    ),
    (ValueFault::MissingParameter, 2, "a parameter is missing"),
];

const TABLE_FAULTS: [(TableFault, &str); 3] = [
    (
        TableFault::Row(RowFault {
            row: 3,
            kind: RowKind::Order,
        }),
        "row 3: Order",
    ),
    (TableFault::Device, "the reader failed"),
    (TableFault::OutOfMemory, "out of memory"),
];

#[test]
fn faults_without_a_number_have_texts(rt: HostRuntime) {
    for &(fault, want) in &TABLE_FAULTS {
        prints(&rt, rt.alloc(), &fault, &fault, want);
    }
    prints(&rt, rt.alloc(), &PlanRange, &PlanRange, PLAN_RANGE);
    prints(&rt, rt.alloc(), &TimeRange, &TimeRange, TIME_RANGE);
}

#[test]
fn tariff_faults_have_texts_and_numbers(rt: HostRuntime) {
    for &(kind, code, want) in &KINDS {
        let fault = TariffFault { row: 7, kind };
        prints(&rt, rt.alloc(), &fault, &fault, want);
        gives(&rt, &kind, &kind.code(), &code);
    }
}

#[test]
fn value_faults_have_texts_and_numbers(rt: HostRuntime) {
    for &(fault, number, want) in &VALUE_FAULTS {
        prints(&rt, rt.alloc(), &fault, &fault, want);
        gives(&rt, &fault, &(fault as u8), &number);
    }
}
