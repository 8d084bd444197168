//! What a column of a row takes.

use crate::explanations::forms::Part;
use crate::explanations::found_rows::push_column;
use crate::explanations::said::Said;
use csv::ByteRecord;
use table_core::{are_digits, decimal, field, is_decimal};
use tariff_core::{moment, time_of_day};

/// What a column of a row takes.
#[derive(Clone, Copy)]
pub(crate) enum Wants {
    /// A word that says what the row is, which isn't judged here.
    Word,
    /// A decimal from the first to the second of these.
    Number(u64, u64),
    /// Such a decimal, or nothing.
    Optional(u64, u64),
    /// A moment up to this one.
    Moment(u64),
    /// Such a moment, or nothing.
    OptionalMoment(u64),
    /// Digits: as many as the first to the second of these.
    Digits(usize, usize),
    /// A time of day.
    TimeOfDay,
    /// Days of the week.
    Days,
}

/// A column of a row, and what it takes.
#[derive(Clone, Copy)]
pub(crate) struct Column {
    /// Its place, from 0.
    pub place: usize,
    /// What it takes.
    pub wants: Wants,
}

/// The first column of a row whose field isn't what it takes, in the order of its parts.
pub(crate) fn first_refused(row: &ByteRecord, parts: [Part; 3]) -> Option<Column> {
    let [first, second, third] = parts;
    refused_in(row, first)
        .or(refused_in(row, second))
        .or(refused_in(row, third))
}

/// The first column of a part of a row whose field isn't what it takes.
fn refused_in(row: &ByteRecord, part: Part) -> Option<Column> {
    for &(column, wants) in part.columns {
        let place = part.start.saturating_add(column);
        if place < part.end && !takes(wants, field(row, place)) {
            return Some(Column { place, wants });
        }
    }
    None
}

/// Whether a field is what a column takes.
fn takes(wants: Wants, field: &[u8]) -> bool {
    match wants {
        Wants::Word => true,
        Wants::Number(least, most) => is_within(field, least, most),
        Wants::Optional(least, most) => field.is_empty() || is_within(field, least, most),
        Wants::Moment(most) => moment(field, most).is_some(),
        Wants::OptionalMoment(most) => field.is_empty() || moment(field, most).is_some(),
        Wants::Digits(least, most) => {
            least <= field.len() && field.len() <= most && are_digits(field)
        }
        Wants::TimeOfDay => time_of_day(field).is_some(),
        Wants::Days => false,
    }
}

/// Whether a field is a decimal from `least` to `most`.
fn is_within(field: &[u8], least: u64, most: u64) -> bool {
    match decimal(field, most) {
        Some(number) => least <= number,
        None => false,
    }
}

/// Adds what is wrong with a field of a row that isn't what its column takes.
pub(crate) fn push_refusal(said: &mut Said, names: &ByteRecord, row: &ByteRecord, column: Column) {
    let field = field(row, column.place);
    let is = if field.is_empty() {
        "it is empty, and "
    } else {
        " is "
    };
    push_column(said, names, row, column.place);
    said.push(is);
    push_wanted(said, field, column.wants);
    said.push("\n");
}

/// Adds what is wanted in place of a field.
fn push_wanted(said: &mut Said, field: &[u8], wants: Wants) {
    match wants {
        Wants::Word => {}
        Wants::Number(least, most) | Wants::Optional(least, most) => {
            push_range(said, field, least, most);
        }
        Wants::Moment(most) | Wants::OptionalMoment(most) => {
            if is_decimal(field) {
                push_range(said, field, 0, most);
            } else {
                said.push("no moment: a decimal, or a date and a time like 1970-01-01T18:00:08");
            }
        }
        Wants::Digits(least, most) => {
            write!(said, "no {least} to {most} digits");
        }
        Wants::TimeOfDay => said.push("no time of day from 00:00 to 23:59"),
        Wants::Days => said.push("no days: digits from 1 to 7 in their order, each once"),
    }
}

/// Adds what is wrong with a number.
fn push_range(said: &mut Said, field: &[u8], least: u64, most: u64) {
    if !is_decimal(field) {
        said.push("no decimal of 1 to 20 digits");
    } else if decimal(field, most).is_some() {
        write!(said, "below {least}");
    } else {
        write!(said, "above {most}");
    }
}
