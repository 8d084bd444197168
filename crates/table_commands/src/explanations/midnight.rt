//! Rows of a tariff that don't go with its other rows.

use crate::explanations::found_rows::{Sought, find_above, shown_at, take_row};
use crate::explanations::reasons::Faulty;
use crate::explanations::row_line::Shown;
use crate::explanations::said::Said;
use csv::ByteRecord;
use std::alloc::{AllocError, Global};
use std::fmt;
use table_core::{Rows, field};

/// Adds the row above that has the prefix and the start of a row, and a day in common with it.
pub(crate) fn push_repeated_band(
    said: &mut Said,
    alloc: Global,
    table: Faulty<'_>,
    row: &ByteRecord,
) {
    if let Some(number) = find_above(said, alloc, table, Sought::Band(row)) {
        let prefix = Prefix(field(row, 0));
        let start = shown_at(row, 1);
        writeln!(said, "{prefix} from {start} is in row {number} already");
    }
}

/// Whether two rows have a prefix, a start and a day in common.
pub(crate) fn is_repeated(one: &ByteRecord, other: &ByteRecord) -> bool {
    let (days, others) = (field(one, 7), field(other, 7));
    field(one, 0) == field(other, 0)
        && field(one, 1) == field(other, 1)
        && (days.is_empty() || others.is_empty() || have_one_in_common(days, others))
}

/// Whether two texts have a byte in common.
fn have_one_in_common(one: &[u8], other: &[u8]) -> bool {
    for byte in one {
        for found in other {
            if byte == found {
                return true;
            }
        }
    }
    false
}

/// Adds when the prefix of a row counts, and what is to be added to its rows.
pub(crate) fn push_no_midnight(
    said: &mut Said,
    alloc: Global,
    table: Faulty<'_>,
    row: &ByteRecord,
) {
    let prefix = Prefix(field(row, 0));
    let mut latest = String::new(alloc);
    write!(said, "{prefix} counts from ");
    let mut rows = Rows::new(alloc, table.text);
    push_starts(said, &mut latest, &mut rows, prefix);
    push_missing(said, latest.as_str(), row);
}

/// Adds what is missing of a prefix, whose latest start is known.
fn push_missing(said: &mut Said, latest: &str, row: &ByteRecord) {
    if latest.is_empty() {
        said.push("\n");
    } else if row.len() > 7 {
        said.push(", and not from 00:00 on each day of the week\n");
    } else {
        let prefix = shown_at(row, 0);
        writeln!(
            said,
            ", and nothing from 00:00: add {prefix},00:00,.. with what counts at midnight, \
             mostly the row of {latest}"
        );
    }
}

/// Adds the starts of a prefix, and finds the latest.
fn push_starts(said: &mut Said, latest: &mut String, rows: &mut Rows<&[u8]>, prefix: Prefix<'_>) {
    for _turn in 0..u64::MAX {
        if !take_row(said, rows) {
            return;
        }
        push_start(said, latest, rows.row(), prefix);
    }
}

/// Adds the start of a row if it has the prefix, and keeps it if no later one is found yet.
fn push_start(said: &mut Said, latest: &mut String, row: &ByteRecord, prefix: Prefix<'_>) {
    if field(row, 0) != prefix.0 {
        return;
    }
    let and = if latest.is_empty() { "" } else { " and " };
    let start = shown_at(row, 1);
    write!(said, "{and}{start}");
    if keep_later(latest, field(row, 1)).is_err() {
        said.cut();
    }
}

/// Keeps a start in place of the latest one, unless it is earlier.
fn keep_later(latest: &mut String, start: &[u8]) -> Result<(), AllocError> {
    if start < latest.as_bytes() {
        return Ok(());
    }
    let start = Shown(start);
    latest.clear();
    write!(latest, "{start}")
}

/// The prefix of a row, as it is named.
#[derive(Clone, Copy)]
struct Prefix<'a>(&'a [u8]);

impl fmt::Display for Prefix<'_> {
    fn fmt<W: fmt::Write>(&self, f: &mut fmt::Formatter<W>) -> fmt::Result {
        if self.0.is_empty() {
            return f.write_str("the empty prefix");
        }
        let prefix = Shown(self.0);
        write!(f, "prefix {prefix}")
    }
}
