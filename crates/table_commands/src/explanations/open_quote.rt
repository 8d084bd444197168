//! A quote that never ends.

use crate::explanations::row_line::lines_ended;
use crate::explanations::walk::Place;

/// The line in which a quote is opened that is open at the end of a table, in a row that begins at
/// a byte of it: counted by LF from 1 on, where the table has this text in front of it.
pub(crate) fn open_quote(before: &[u8], table: &[u8], start: usize) -> Option<usize> {
    let mut place = Place::Between;
    let mut opened = 0;
    for at in start..table.len() {
        let next = place.step(table[at]);
        if next == Place::InQuoted && place != Place::InQuoted && place != Place::AfterQuote {
            opened = at;
        }
        if next == Place::Between && place != Place::Between {
            return None;
        }
        place = next;
    }
    match place {
        Place::InQuoted => {
            let end = opened.min(table.len());
            Some(lines_ended(before) + lines_ended(&table[..end]) + 1)
        }
        _ => None,
    }
}
