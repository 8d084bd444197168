//! Rows that don't go with the rows above them.

use crate::explanations::Slip;
use crate::explanations::found_rows::{Sought, find_above, shown_at, take_rows};
use crate::explanations::reasons::{Faulty, push_fields};
use crate::explanations::row_line::Shown;
use crate::explanations::said::Said;
use csv::ByteRecord;
use std::alloc::Global;
use table_core::{Rows, decimal, field, has_word, is_word};

/// Adds why a row may not come behind the one above it.
pub(crate) fn push_order(said: &mut Said, alloc: Global, table: Faulty<'_>, row: &ByteRecord) {
    let number = table.row.saturating_sub(1);
    let mut rows = Rows::new(alloc, table.text);
    if take_rows(said, &mut rows, number) {
        match table.slip {
            Slip::Script(_) => push_moments(said, row, rows.row(), number),
            _ => push_times(said, row, rows.row(), number),
        }
    }
}

/// Adds which moment lies below that of the row above it.
fn push_moments(said: &mut Said, row: &ByteRecord, above: &ByteRecord, number: u32) {
    let moment = shown_at(row, 0);
    let earlier = shown_at(above, 0);
    writeln!(said, "moment {moment} lies below {earlier} in row {number}");
}

/// Adds which times, the fields of a row, may not follow those of the row above it.
fn push_times(said: &mut Said, row: &ByteRecord, above: &ByteRecord, number: u32) {
    said.push("times ");
    push_fields(said, row);
    if number < 2 {
        said.push(" may not come first");
    } else {
        said.push(" may not follow ");
        push_fields(said, above);
        write!(said, " in row {number}");
    }
    if is_switched(row) && !is_switched(above) {
        said.push("; without --after no time is after the switch");
    }
    said.push("\n");
}

/// Whether a row of reports has time after the tariff switch.
fn is_switched(row: &ByteRecord) -> bool {
    match decimal(field(row, 1), u64::MAX) {
        Some(after) => after > 0,
        None => false,
    }
}

/// Adds what a row names, and the row above that names it already.
pub(crate) fn push_repeated(said: &mut Said, alloc: Global, table: Faulty<'_>, row: &ByteRecord) {
    let (word, key, name) = match table.slip {
        Slip::Script(_) => (2, 1, "call".as_bytes()),
        Slip::Setup(_) => (0, 1, field(row, 0)),
        _ => (2, 0, "account".as_bytes()),
    };
    let sought = Sought::Named {
        row,
        word,
        key,
        is_number: !is_word(name, "subscriber"),
    };
    if let Some(number) = find_above(said, alloc, table, sought) {
        let name = Shown(name);
        let key = shown_at(row, key);
        writeln!(said, "{name} {key} is in row {number} already");
    }
}

/// Adds what a row names that no earlier row does.
pub(crate) fn push_unknown(said: &mut Said, slip: Slip, row: &ByteRecord) {
    let (name, place, why) = match slip {
        Slip::Script(_) if has_word(row, 2, "recharge") => ("account", 3, "isn't in the setup"),
        Slip::Script(_) => ("call", 1, "isn't started in an earlier row"),
        Slip::Setup(_) => ("account", 2, "isn't above this row"),
        _ => ("account", 0, "isn't opened in an earlier row"),
    };
    let field = shown_at(row, place);
    writeln!(said, "{name} {field} {why}");
}
