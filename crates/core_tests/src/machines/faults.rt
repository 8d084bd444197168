//! The texts and the numbers of faults.

use crate::looking::{gives, prints};
use account_core::AccountFault;
use dialogue_core::DialogueFault;
use one_call::DriveFault;
use ssf_core::SsfFault;

const ACCOUNT_FAULTS: [(AccountFault, u8, &str); 6] = [
    (AccountFault::OutOfMemory, 1, "OutOfMemory"),
    (AccountFault::HistoryFull, 2, "HistoryFull"),
    (AccountFault::NotOpen, 3, "NotOpen"),
    (AccountFault::CallUsed, 4, "CallUsed"),
    (AccountFault::OutOfRange, 5, "OutOfRange"),
    (AccountFault::GateClosed, 6, "GateClosed"),
];

const SSF_FAULTS: [(SsfFault, u8, &str); 4] = [
    (
        SsfFault::UnexpectedComponentSequence,
        1,
        "an unexpected component sequence",
    ),
    (
        SsfFault::ParameterOutOfRange,
        2,
        "a parameter is out of range",
    ),
    (SsfFault::TimeBackwards, 3, "a moment before the last one"),
    (SsfFault::NoSuchEvent, 4, "no such event"),
];

const DIALOGUE_FAULTS: [(DialogueFault, u8, &str); 3] = [
    (DialogueFault::Unexpected, 1, "unexpected"),
    (DialogueFault::NoAskPending, 2, "no ask is pending"),
    (DialogueFault::AskPending, 3, "an ask is pending"),
];

const DRIVE_FAULTS: [(DriveFault, u8, &str); 3] = [
    (DriveFault::Backwards, 1, "an event before the last one"),
    (DriveFault::Delay, 2, "a delay out of its range"),
    (DriveFault::OutOfMemory, 3, "memory ran out"),
];

#[test]
fn account_faults_have_texts_and_numbers(rt: HostRuntime) {
    for &(fault, number, want) in &ACCOUNT_FAULTS {
        prints(&rt, rt.alloc(), &fault, &fault, want);
        gives(&rt, &fault, &(fault as u8), &number);
    }
}

#[test]
fn ssf_faults_have_texts_and_numbers(rt: HostRuntime) {
    for &(fault, number, want) in &SSF_FAULTS {
        prints(&rt, rt.alloc(), &fault, &fault, want);
        gives(&rt, &fault, &(fault as u8), &number);
    }
}

#[test]
fn dialogue_faults_have_texts_and_numbers(rt: HostRuntime) {
    for &(fault, number, want) in &DIALOGUE_FAULTS {
        prints(&rt, rt.alloc(), &fault, &fault, want);
        gives(&rt, &fault, &fault.code(), &number);
    }
}

#[test]
fn drive_faults_have_texts_and_numbers(rt: HostRuntime) {
    for &(fault, number, want) in &DRIVE_FAULTS {
        prints(&rt, rt.alloc(), &fault, &fault, want);
        gives(&rt, &fault, &(fault as u8), &number);
    }
}
