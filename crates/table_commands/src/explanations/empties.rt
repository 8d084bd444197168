//! Fields that must be empty and aren't.

use crate::explanations::Slip;
use crate::explanations::forms::{Part, parts_of};
use crate::explanations::found_rows::{push_column, shown_at};
use crate::explanations::said::Said;
use csv::ByteRecord;
use table_core::is_blank;

/// Adds which field of a row must be empty, and for what.
pub(crate) fn push_not_empty(said: &mut Said, slip: Slip, names: &ByteRecord, row: &ByteRecord) {
    let [first, second, third] = parts_of(slip, row);
    let found = not_empty(row, first)
        .or(not_empty(row, second))
        .or(not_empty(row, third));
    if let Some((place, word)) = found {
        push_column(said, names, row, place);
        let word = shown_at(row, word);
        writeln!(said, ", where {word} takes nothing");
    }
}

/// The first column of a part of a row that takes nothing and isn't empty, and that of the word
/// because of which it takes nothing.
fn not_empty(row: &ByteRecord, part: Part) -> Option<(usize, usize)> {
    for place in part.start..part.end {
        if !is_blank(row, place) && !takes_any(part, place - part.start) {
            return Some((place, part.word));
        }
    }
    None
}

/// Whether a column of a part, counted from its first one on, takes something.
fn takes_any(part: Part, column: usize) -> bool {
    for &(taking, _) in part.columns {
        if taking == column {
            return true;
        }
    }
    false
}
