//! The rows of a table that has a fault.

use crate::explanations::midnight::is_repeated;
use crate::explanations::reasons::Faulty;
use crate::explanations::row_line::Shown;
use crate::explanations::said::Said;
use csv::ByteRecord;
use std::alloc::Global;
use table_core::{Rows, decimal, field};

/// Takes the next row of a table. Whether there is one, for which memory is there too.
pub(crate) fn take_row(said: &mut Said, rows: &mut Rows<&[u8]>) -> bool {
    match rows.next_row() {
        Ok(is_there) => is_there,
        Err(_) => {
            said.cut();
            false
        }
    }
}

/// Takes the rows of a table up to that of this number. Whether there are so many.
pub(crate) fn take_rows(said: &mut Said, rows: &mut Rows<&[u8]>, row: u32) -> bool {
    for _row in 0..row {
        if !take_row(said, rows) {
            return false;
        }
    }
    true
}

/// The field of a row at a place, as it is shown.
pub(crate) fn shown_at(row: &ByteRecord, place: usize) -> Shown<'_> {
    Shown(field(row, place))
}

/// Adds the name of a column, and the field that a row has in it.
pub(crate) fn push_column(said: &mut Said, names: &ByteRecord, row: &ByteRecord, place: usize) {
    let column = shown_at(names, place);
    let field = shown_at(row, place);
    write!(said, "column {column}: {field}");
}

/// What is looked for in the rows above a row.
#[derive(Clone, Copy)]
pub(crate) enum Sought<'a> {
    /// A row that names what this one does.
    Named {
        /// The row.
        row: &'a ByteRecord,
        /// The column in which both have a word.
        word: usize,
        /// The column in which both have a text.
        key: usize,
        /// Whether that is a number, so that zeros in front of it make no difference.
        is_number: bool,
    },
    /// A row that has the prefix and the start of this one, and a day in common with it.
    Band(&'a ByteRecord),
}

/// The first row of a table, below its header and above the row with the fault, that has what is
/// looked for.
pub(crate) fn find_above(
    said: &mut Said,
    alloc: Global,
    table: Faulty<'_>,
    sought: Sought<'_>,
) -> Option<u32> {
    let mut rows = Rows::new(alloc, table.text);
    for number in 1..table.row {
        if !take_row(said, &mut rows) {
            return None;
        }
        if number > 1 && has(rows.row(), sought) {
            return Some(number);
        }
    }
    None
}

/// Whether a row has what is looked for.
fn has(row: &ByteRecord, sought: Sought<'_>) -> bool {
    match sought {
        Sought::Named {
            row: named,
            word,
            key,
            is_number,
        } => {
            let (one, other) = (field(row, key), field(named, key));
            field(row, word) == field(named, word)
                && (one == other || is_number && are_same_number(one, other))
        }
        Sought::Band(band) => is_repeated(row, band),
    }
}

/// Whether two fields are the same number.
fn are_same_number(one: &[u8], other: &[u8]) -> bool {
    match (decimal(one, u64::MAX), decimal(other, u64::MAX)) {
        (Some(one), Some(other)) => one == other,
        _ => false,
    }
}
