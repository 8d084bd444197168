//! Readers that fail: the tables of a setup and of a script keep that fault, unless a row in front
//! of it has one. Each fault of their rows is tried in tests/program.

use crate::failing::Failing;
use crate::looking::gives;
use run_texts::{read_script, read_setup};
use run_values::Directory;
use std::alloc::Global;
use std::process::Abort;
use table_core::{RowFault, RowKind, TableFault};

/// Setups whose last row has a fault, its number, and the fault.
const SETUPS: [(&[u8], u32, RowKind); 7] = [
    (b"kind,key\n", 1, RowKind::Header),
    (b"kind,key,value\naccount,7\n", 2, RowKind::Csv),
    (b"kind,key,value\naccounts,7,1\n", 2, RowKind::What),
    (b"kind,key,value\naccount,7,x\n", 2, RowKind::Number),
    (
        b"kind,key,value,until\naccount,7,1,\nsubscriber,49,7,1\n",
        3,
        RowKind::Empty,
    ),
    (
        b"kind,key,value\naccount,7,1\naccount,7,1\n",
        3,
        RowKind::Repeated,
    ),
    (
        b"kind,key,value\naccount,7,1\nsubscriber,49,8\n",
        3,
        RowKind::Unknown,
    ),
];

/// The setup of the scripts.
const ACCOUNT: &[u8] = b"kind,key,value\naccount,7,1500\n";

/// The same of scripts.
const SCRIPTS: [(&[u8], u32, RowKind); 8] = [
    (b"moment,call,what,x\n", 1, RowKind::Header),
    (b"moment,call,what,x,y\n0,1,start,1\n", 2, RowKind::Csv),
    (b"moment,call,what,x,y\n0,1,begin,1,2\n", 2, RowKind::What),
    (b"moment,call,what,x,y\nx,1,start,1,2\n", 2, RowKind::Number),
    (
        b"moment,call,what,x,y\n0,1,recharge,7,1\n",
        2,
        RowKind::Empty,
    ),
    (
        b"moment,call,what,x,y\n5,1,start,1,2\n4,2,start,1,2\n",
        3,
        RowKind::Order,
    ),
    (
        b"moment,call,what,x,y\n5,1,start,1,2\n5,1,start,3,4\n",
        3,
        RowKind::Repeated,
    ),
    (
        b"moment,call,what,x,y\n0,,recharge,7,1\n0,,recharge,8,1\n",
        3,
        RowKind::Unknown,
    ),
];

/// The fault of such a table whose reader fails once it has given so many bytes.
fn fault_at(length: usize, text: &[u8], row: u32, kind: RowKind) -> Option<TableFault> {
    if length < text.len() {
        return Some(TableFault::Device);
    }
    Some(TableFault::Row(RowFault { row, kind }))
}

/// Compares the fault of a setup whose reader fails behind each of its bytes.
fn expect_of_setup(rt: &impl Abort, alloc: Global, text: &[u8], row: u32, kind: RowKind) {
    for length in 0..=text.len() {
        let bytes = &text[..length];
        let fault = read_setup(alloc, Failing { bytes }).err();
        let want = fault_at(length, text, row, kind);
        gives(rt, &(kind, length), &fault, &want);
    }
}

/// The same of a script.
fn expect_of_script(
    rt: &impl Abort,
    alloc: Global,
    directory: &Directory,
    text: &[u8],
    row: u32,
    kind: RowKind,
) {
    for length in 0..=text.len() {
        let bytes = &text[..length];
        let fault = read_script(alloc, directory, Failing { bytes }).err();
        let want = fault_at(length, text, row, kind);
        gives(rt, &(kind, length), &fault, &want);
    }
}

#[test]
fn names_a_reader_that_fails(rt: HostRuntime) {
    for &(text, row, kind) in &SETUPS {
        expect_of_setup(&rt, rt.alloc(), text, row, kind);
    }
    let directory = read_setup(rt.alloc(), ACCOUNT).expect(&rt, "the setup");
    for &(text, row, kind) in &SCRIPTS {
        expect_of_script(&rt, rt.alloc(), &directory, text, row, kind);
    }
}
