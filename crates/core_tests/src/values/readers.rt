//! Tables whose reader fails, or has no end.

use crate::failing::Failing;
use crate::looking::gives;
use std::alloc::Global;
use std::io::{self, Read};
use std::process::Abort;
use table_core::{RowFault, RowKind, Table, TableFault};
use tariff_core::{Tariff, TariffFault, TariffKind};

/// Two bands for 49, and one for 4930.
const TABLE: &[u8] = b"prefix,from,fee,rate\n49,00:00,50,1000\n49,08:00,0,400\n4930,00:00,10,600\n";

/// Tables with a fault of their own, and the row and the kind of the one that is named where the
/// reader fails behind them: their own if its row was read whole. A prefix without a row from
/// midnight on shows only at the end.
const REFUSED: [(&str, u32, TariffKind); 13] = [
    ("prefix,from,fee\n", 1, TariffKind::Header),
    ("prefix,from,fee", 1, TariffKind::Device),
    ("prefix,from,fee,rate\n44,00:00,1,1,1\n", 2, TariffKind::Csv),
    (
        "prefix,from,fee,rate\n44,00:00,1,1,1",
        2,
        TariffKind::Device,
    ),
    (
        "prefix,from,fee,rate\n4x,00:00,1,1\n",
        2,
        TariffKind::Digits,
    ),
    ("prefix,from,fee,rate\n44,24:00,1,1\n", 2, TariffKind::From),
    (
        "prefix,from,fee,rate\n44,00:00,1,1\n44,00:00,x,1\n",
        3,
        TariffKind::Money,
    ),
    (
        "prefix,from,fee,rate,free\n44,00:00,1,1,\n",
        2,
        TariffKind::Free,
    ),
    (
        "prefix,from,fee,rate,free,first,step\n44,00:00,1,1,0,,1\n",
        2,
        TariffKind::First,
    ),
    (
        "prefix,from,fee,rate,free,first,step\n44,00:00,1,1,0,0,0\n",
        2,
        TariffKind::Step,
    ),
    (
        "prefix,from,fee,rate,free,first,step,days\n44,00:00,1,1,0,0,1,8\n",
        2,
        TariffKind::Days,
    ),
    (
        "prefix,from,fee,rate\n44,08:00,1,1\n44,08:00,2,2\n",
        3,
        TariffKind::Repeated,
    ),
    (
        "prefix,from,fee,rate\n\n44,08:00,50,1000\n",
        3,
        TariffKind::Device,
    ),
];

/// Looks at the fault of a tariff whose reader fails behind these bytes.
fn fails(rt: &impl Abort, alloc: Global, bytes: &[u8], row: u32, kind: TariffKind) {
    let fault = Tariff::read(alloc, Failing { bytes }).err();
    gives(rt, &bytes, &fault, &Some(TariffFault { row, kind }));
}

#[test]
fn a_failed_reader_names_the_row(rt: HostRuntime) {
    let mut row = 1u32;
    for length in 0..=TABLE.len() {
        if length > 0 && TABLE[length - 1] == b'\n' {
            row = row.saturating_add(1);
        }
        fails(&rt, rt.alloc(), &TABLE[..length], row, TariffKind::Device);
    }
    for &(text, row, kind) in &REFUSED {
        fails(&rt, rt.alloc(), text.as_bytes(), row, kind);
    }
}

/// A table without an end, which counts the lines that were begun to be taken of it.
#[derive(Drop)]
struct Endless<'a> {
    rest: &'a [u8],
    lines: &'a mut u32,
}

impl Read for Endless<'_> {
    fn read(&mut self, buf: &mut [u8]) -> io::Result<usize> {
        if self.rest.is_empty() {
            self.rest = b"a,b\n";
            *self.lines = self.lines.saturating_add(1);
        }
        self.rest.read(buf)
    }
}

/// Reads a table on, past every row that it may have.
fn read_on(
    rt: &impl Abort,
    alloc: Global,
    reader: Endless,
    limit: u16,
) -> Result<bool, TableFault> {
    let opened = Table::open(alloc, reader, &[&["a", "b"]], u32::from(limit));
    let mut table = opened.expect(rt, "the header");
    for _ in 0..20_000 {
        match table.next_row() {
            Ok(true) => {}
            end => return end,
        }
    }
    Ok(true)
}

#[test]
fn no_more_is_read_than_a_table_may_have(rt: HostRuntime) {
    for &limit in &[0u16, 1, 10_000] {
        let mut lines = 0;
        let reader = Endless {
            rest: b"",
            lines: &mut lines,
        };
        let read = read_on(&rt, rt.alloc(), reader, limit);
        let row = u32::from(limit) + 2;
        let kind = RowKind::TooManyRows;
        let fault = TableFault::Row(RowFault { row, kind });
        gives(&rt, &limit, &(lines, read), &(row, Err(fault)));
    }
}
