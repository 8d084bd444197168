//! Words that a table doesn't know.

use crate::explanations::Slip;
use crate::explanations::forms::SCRIPT_WORDS;
use crate::explanations::found_rows::push_column;
use crate::explanations::said::Said;
use csv::ByteRecord;
use table_core::{field, has_word, is_word};

const OPERATIONS: &[&str] = &["credit", "reserve", "settle", "return"];

const BOOK_OPERATIONS: &[&str] = &["opening", "credit", "reserve", "settle", "return"];

const REPLIES: &[&str] = &[
    "credited", "over", "denied", "granted", "settled", "forfeit", "returned",
];

/// Adds which word of a row isn't known, the words that are, and the nearest of them.
pub(crate) fn push_unknown_word(said: &mut Said, slip: Slip, names: &ByteRecord, row: &ByteRecord) {
    match slip {
        Slip::Script(_) => push_word(said, names, row, 2, SCRIPT_WORDS),
        Slip::Setup(_) => push_word(said, names, row, 0, &["account", "subscriber"]),
        Slip::Ops(_) => push_operation_word(said, names, row, 1, OPERATIONS),
        Slip::Book(_) => push_book_word(said, names, row),
        _ => {}
    }
}

/// Adds it of an operation whose columns begin at a place.
fn push_operation_word(
    said: &mut Said,
    names: &ByteRecord,
    row: &ByteRecord,
    op: usize,
    words: &[&str],
) {
    if has_word(row, op, "settle") {
        push_word(said, names, row, op.saturating_add(3), &["n", "s"]);
    } else {
        push_word(said, names, row, op, words);
    }
}

/// Adds it of a row of a table of books.
fn push_book_word(said: &mut Said, names: &ByteRecord, row: &ByteRecord) {
    let reply = row.len().saturating_sub(4);
    let is_settle = has_word(row, 2, "settle");
    let is_report = is_one_of(field(row, 5), &["n", "s"]);
    if !is_one_of(field(row, 2), BOOK_OPERATIONS) || is_settle && !is_report {
        push_operation_word(said, names, row, 2, BOOK_OPERATIONS);
    } else if is_one_of(field(row, reply), REPLIES) {
        push_word(said, names, row, reply.saturating_add(2), &["more", "last"]);
    } else {
        push_word(said, names, row, reply, REPLIES);
    }
}

/// Whether a field is one of these words.
fn is_one_of(field: &[u8], words: &[&str]) -> bool {
    for word in words {
        if is_word(field, word) {
            return true;
        }
    }
    false
}

/// Adds the word in a column, the words that may be there, and the nearest of them.
fn push_word(said: &mut Said, names: &ByteRecord, row: &ByteRecord, place: usize, words: &[&str]) {
    push_column(said, names, row, place);
    push_words(said, words);
    if let Some(word) = nearest(field(row, place), words) {
        write!(said, "\nthe nearest is {word}");
    }
    said.push("\n");
}

/// Adds the words that may be there: `; one of` in front of the first, commas between them.
fn push_words(said: &mut Said, words: &[&str]) {
    let mut start = "; one of ";
    for word in words {
        write!(said, "{start}{word}");
        start = ", ";
    }
}

/// The word that begins with the most letters of a field, at least two, in whatever case.
fn nearest<'a>(field: &[u8], words: &[&'a str]) -> Option<&'a str> {
    let mut best = None;
    let mut most = 1;
    for word in words {
        let alike = alike(field, word.as_bytes());
        if alike > most {
            most = alike;
            best = Some(*word);
        }
    }
    best
}

/// How many letters two texts have alike at their start, blanks in front of the first passed over.
fn alike(field: &[u8], word: &[u8]) -> usize {
    let mut count = 0;
    for byte in field {
        if count >= word.len() {
            return count;
        }
        if byte.to_ascii_lowercase() == word[count] {
            count += 1;
        } else if count > 0 || *byte != b' ' {
            return count;
        }
    }
    count
}
