//! The message of a line.

ghost use Rattle.std.specs.Prelude.{◌≡◌, ◌≤◌, ◌∷◌, [], IfErr, IfOk, IfSome, length, option_map};
ghost use Rattle.std.specs.List.{list_all};
ghost use Rattle.std.specs.Result.{result_map_both};
ghost use Rattle.run_texts.specs.Lines.{is_plain, line_message, nine};
ghost use Rattle.run_texts.specs.Messages.{message_in};
ghost use Rattle.run_texts.specs.MessageViews.{view_of};
ghost use Rattle.csv.specs.Records.{fields_of};
ghost use Rattle.table_core.specs.Faults.{IsOfReading};
ghost use Rattle.table_core.specs.Judging.{and_then};
ghost use Rattle.table_core.specs.Rows.{rows_of};

use crate::message::{Message, read_message};
use csv::ByteRecord;
use price_core::HORIZON;
use std::alloc::{AllocError, Global};
use table_core::{RowKind, Rows, TableFault};

/// How many columns a message row has.
const COLUMNS: usize = 9;

/// The message of a line, or none where it is empty: a line is read by itself, so that a bad one
/// spoils no other.
///
/// `Csv` where it hasn't just one row of nine fields, before the faults of `read_message`. The
/// error is `OutOfMemory` where there is no memory for the fields of the line.
pub fn read_message_line(
    alloc: Global,
    line: &[u8],
) -> Result<Option<Result<Message, RowKind>>, TableFault>
    ensures says { IfOk result (λ found. option_map (λ read.
        result_map_both view_of (λ kind. kind) read) found ≡ line_message line.now) }
    ensures in_range { IfOk result (λ found. IfSome found
        (λ read. IfOk read (λ message. message.at ≤ HORIZON))) }
    ensures fault { IfErr result IsOfReading }
{
    match plain_row(alloc, line)? {
        Some(row) => Ok(Some(read_message(&row))),
        None => read_by_parser(alloc, line),
    }
}

/// What `read_message_line` gives, of any line. It is apart, so that a plain line needs no room on
/// the stack for the tables of a parser.
#[cold]
#[inline(never)]
fn read_by_parser(
    alloc: Global,
    line: &[u8],
) -> Result<Option<Result<Message, RowKind>>, TableFault>
    ensures says { IfOk result (λ found. option_map (λ read.
        result_map_both view_of (λ kind. kind) read) found ≡ line_message line.now) }
    ensures in_range { IfOk result (λ found. IfSome found
        (λ read. IfOk read (λ message. message.at ≤ HORIZON))) }
    ensures fault { IfErr result IsOfReading }
{
    let mut rows = Rows::new(alloc, line);
    if !rows.next_row()? {
        return Ok(None);
    }
    let read = read_row(rows.row());
    if rows.next_row()? {
        return Ok(Some(Err(RowKind::Csv)));
    }
    Ok(Some(read))
}

/// The message of a row of nine fields; else `Csv`.
fn read_row(row: &ByteRecord) -> Result<Message, RowKind>
    ensures says { result_map_both view_of (λ kind. kind) result
        ≡ and_then (nine (fields_of row.now)) message_in }
    ensures in_range { IfOk result (λ message. message.at ≤ HORIZON) }
{
    if row.len() != COLUMNS {
        return Err(RowKind::Csv);
    }
    read_message(row)
}

/// The row of a line that is cut at its commas, since it has nothing but plain bytes, and nine
/// fields. None of any other line: that one takes a reader of CSV, which costs more than all else
/// that is done with a line.
fn plain_row(alloc: Global, line: &[u8]) -> Result<Option<ByteRecord>, AllocError>
    ensures row { IfOk result (λ found. IfSome found (λ row.
        rows_of line.now ≡ fields_of row ∷ [])) }
    ensures columns { IfOk result (λ found. IfSome found (λ row. length (fields_of row) ≡ 9)) }
{
    let Some((b'\n', text)) = line.split_last() else {
        return Ok(None);
    };
    if !are_plain(text) {
        return Ok(None);
    }
    let mut row = ByteRecord::with_capacity(alloc, text.len(), COLUMNS)?;
    for field in text.split(|byte| *byte == b',') {
        row.push_field(field)?;
    }
    if row.len() != COLUMNS {
        return Ok(None);
    }
    Ok(Some(row))
}

/// Whether each byte of a text is a comma, or stands for itself in a field: it is printable ASCII,
/// and no quote.
fn are_plain(text: &[u8]) -> bool
    ensures { result ≡ list_all is_plain text.now }
{
    text.iter()
        .all(|byte| matches!(*byte, b' '..=b'~') && *byte != b'"')
}
