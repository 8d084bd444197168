//! Where a row of a table begins.

ghost use Rattle.std.specs.Prelude.{◌≡◌, ◌≤◌, ◌+◌, length, IfNone, IfSome};
ghost use Rattle.csv.specs.Reading.{is_bom};
ghost use Rattle.table_commands.specs.RowStarts.{BeginsRow, HasFewer, is_line_end};
ghost use Rattle.table_commands.specs.Walks.{BeginsRowBehind, HasFewerBehind, IsMark, begins_row};

use crate::explanations::walk::{Place, Walk};

/// Where the first byte is of the row of this number in a table, the header being row 1; none where
/// the table has fewer rows.
pub(crate) fn row_start(text: &[u8], row: u32) -> Option<usize>
    ensures begins { IfSome result (λ at. BeginsRow text.now row at) }
    ensures none { IfNone result (HasFewer text.now row) }
    ensures within { IfSome result (λ at. at ≤ length text.now) }
{
    let mark = mark_length(text);
    match start_behind(&text[mark..], row) {
        Some(at) => Some(mark + at),
        None => None,
    }
}

/// How many bytes the byte order mark at the start of a text has, if there is one.
fn mark_length(text: &[u8]) -> usize
    ensures marks { IsMark result text.now }
    ensures few { result ≤ length text.now }
{
    if text.len() >= 3 && is_mark(text[0], text[1], text[2]) {
        3
    } else {
        0
    }
}

/// Whether three bytes are a byte order mark.
fn is_mark(first: u8, second: u8, third: u8) -> bool
    ensures { result ≡ is_bom first second third }
{
    first == 0xEF && second == 0xBB && third == 0xBF
}

/// The same in a table without such a mark.
fn start_behind(text: &[u8], row: u32) -> Option<usize>
    ensures begins { IfSome result (λ at. BeginsRowBehind text.now row at) }
    ensures none { IfNone result (HasFewerBehind text.now row) }
    ensures within { IfSome result (λ at. at ≤ length text.now) }
{
    let mut walk = Walk::START;
    for at in 0..text.len() {
        let place = walk.place.step(text[at]);
        if begins_row(walk.place, place) && walk.above + 1 == row as usize {
            return Some(at);
        }
        walk.pass(place);
    }
    None
}

/// Whether a row begins between two places that follow one another.
fn begins_row(from: Place, to: Place) -> bool
    ensures { result ≡ begins_row from to }
{
    match (from, to) {
        (Place::Between, Place::Between) => false,
        (Place::Between, _) => true,
        _ => false,
    }
}

/// Whether a byte ends a line.
pub(crate) fn is_line_end(byte: u8) -> bool
    ensures { result ≡ is_line_end byte }
{
    byte == b'\r' || byte == b'\n'
}
