//! What is said of a fault in a table of an input.

ghost use Rattle.std.specs.Prelude.{◌≡◌, [], IfSome, OnOk, string_bytes};
ghost use Rattle.table_commands.specs.Slips.{Explains, ExplainsRow, IsLineOf, slip_row};

use crate::explanations::Slip;
use crate::explanations::open_quote::open_quote;
use crate::explanations::reasons::{Faulty, push_reason};
use crate::explanations::row_line::push_row_line;
use crate::explanations::said::Said;
use crate::explanations::sections::find_section;
use crate::explanations::starts::row_start;
use std::alloc::{AllocError, Global};

/// The lines that explain a fault of the input, each with LF at its end: the line of the input in
/// which the row begins, and what is wrong there. None where memory runs out, or where the input
/// has no such section.
#[tactic(auto, using(crate::proofs::SectionLemmas::begins_within))]
pub(crate) fn explain(alloc: Global, input: &[u8], slip: Slip) -> Option<String>
    ensures { IfSome result (λ text. Explains input.now slip (string_bytes text)) }
{
    let (start, table) = find_section(input, slip.section())?;
    let mut text = String::new(alloc);
    push_explanation(&mut text, alloc, &input[..start], table, slip).ok()?;
    Some(text)
}

/// Adds the lines that explain a fault in a table that has this text in front of it.
fn push_explanation(
    text: &mut String,
    alloc: Global,
    before: &[u8],
    table: &[u8],
    slip: Slip,
) -> Result<(), AllocError>
    requires { string_bytes text.old ≡ [] }
    ensures { OnOk result
        (ExplainsRow before.now table.now (slip_row slip) (string_bytes text.new)) }
{
    push_line(text, before, table, slip.row())?;
    let more = more_of(alloc, before, table, slip)?;
    text.push_str(more.as_str())
}

/// Adds the line in which a row of a table begins that has this text in front of it; nothing where
/// the table has fewer rows.
fn push_line(text: &mut String, before: &[u8], table: &[u8], row: u32) -> Result<(), AllocError>
    requires { string_bytes text.old ≡ [] }
    ensures { OnOk result (IsLineOf before.now table.now row (string_bytes text.new)) }
{
    match row_start(table, row) {
        Some(at) => push_row_line(text, before, table, at),
        None => Ok(()),
    }
}

/// What is wrong with a row of a table, and where a quote is open in it.
fn more_of(alloc: Global, before: &[u8], table: &[u8], slip: Slip) -> Result<String, AllocError> {
    let row = slip.row();
    let faulty = Faulty {
        text: table,
        slip,
        row,
    };
    let mut said = Said::new(alloc);
    push_reason(&mut said, alloc, faulty);
    if let Some(start) = row_start(table, row) {
        if let Some(line) = open_quote(before, table, start) {
            writeln!(said, "a quote is open since line {line}");
        }
    }
    said.into_text()
}
