//! The names and the numbers of faults.

use crate::looking::gives;
use run_values::{RunFault, SetupFault};
use std::alloc::Global;
use std::fmt::Display;
use std::process::Abort;

const SETUP_FAULTS: [(SetupFault, u8, &str); 4] = [
    (SetupFault::Repeated, 1, "Repeated"),
    (SetupFault::Unknown, 2, "Unknown"),
    (SetupFault::OutOfRange, 3, "OutOfRange"),
    (SetupFault::OutOfMemory, 4, "OutOfMemory"),
];

const RUN_FAULTS: [(RunFault, u8, &str); 6] = [
    (RunFault::OutOfMemory, 1, "OutOfMemory"),
    (RunFault::Workers, 2, "Workers"),
    (RunFault::GateClosed, 3, "GateClosed"),
    (RunFault::Mismatch, 4, "Mismatch"),
    (RunFault::Channel, 5, "Channel"),
    (RunFault::Thread, 6, "Thread"),
];

/// Compares the number and the name of a fault.
fn expect<T: Display>(
    rt: &impl Abort,
    alloc: Global,
    fault: &T,
    found: u8,
    number: u8,
    name: &str,
) {
    let text = format!(in alloc; "{fault}").expect(rt, "the name");
    gives(rt, &name, &(found, text.as_str()), &(number, name));
}

#[test]
fn faults_have_names_and_numbers(rt: HostRuntime) {
    for &(fault, number, name) in &SETUP_FAULTS {
        expect(&rt, rt.alloc(), &fault, fault as u8, number, name);
    }
    for &(fault, number, name) in &RUN_FAULTS {
        expect(&rt, rt.alloc(), &fault, fault as u8, number, name);
    }
}
