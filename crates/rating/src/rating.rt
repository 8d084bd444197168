//! Records that are rated as they come.

ghost use Rattle.std.specs.Prelude.{◌≡◌, ◌<◌, ◌+◌, ◌-◌, ◌^◌, length, map, IfErr, IfOk, IfSome, OnOk, Ok, List};
ghost use Rattle.std.specs.Io.KnownBytes.{Appends};
ghost use Rattle.csv.specs.Records.{fields_of};
ghost use Rattle.table_core.specs.Rows.{Fields, HasRowsLeft, rows_of};
ghost use Rattle.rating.specs.Ends.{AddsRatedRow, EndsRating, IsRatingCutOff, IsRatingSilent, MayStop, SendsFront};
ghost use Rattle.rating.specs.Lines.{header_line, shown};
ghost use Rattle.rating.specs.SaidOf.{wished_names};
ghost use Rattle.rating.specs.Scores.{IsBoundedScore};
ghost use Rattle.rating.specs.Texts.{headed, rate_input_of};

use crate::call::MAX_SHOWN;
use crate::columns::Columns;
use crate::cut_rows::CutRows;
use crate::line::{push_fields, push_names, push_rated};
use crate::rated::{Rated, rate_row};
use crate::{HeaderFault, RateAsk, RateFault, Score};
use csv::ByteRecord;
use run_texts::{InputFault, read_section, read_tariff};
use std::alloc::{AllocError, Global};
use std::io::{BufReader, Read, Write};
use table_core::{Rows, write_text};
use tariff_core::Tariff;

/// How many bytes are gathered before they are written.
const ENOUGH: usize = 65_536;

/// Rates the records of an input, which is a tariff, a line `%%` and a CSV table with a header, and
/// prints the header and each row again as they come, with the columns `prefix`, `before`, `after`,
/// `price`, `difference` and `fault` behind them. No row is kept. The answer is what was counted.
///
/// `Input` is a fault of the tariff or its divider, and then `Header` that of the first row;
/// nothing is printed then. Where the input fails in the middle of the rows, memory runs out, or
/// the output fails, a front of the text has been printed. A row may have any length: of one that
/// is too long its first `MAX_SHOWN` bytes are printed.
pub fn rate<I: Read + Drop, O: Write>(
    alloc: Global,
    ask: &RateAsk<'_>,
    input: I,
    output: &mut O,
) -> Result<Score, RateFault>
    ensures ends { IfSome (I.remaining input) (λ text.
        EndsRating ask.now.differing (rate_input_of (wished_names ask.now.names) text)
        (O.contents output.old) (O.contents output.new) result) }
    ensures silent { IfErr result
        (IsRatingSilent (O.contents output.old) (O.contents output.new)) }
    ensures bounded { IfOk result IsBoundedScore }
{
    let Ok(mut input) = BufReader::new(alloc, input) else {
        return Err(RateFault::Input(InputFault::OutOfMemory));
    };
    let text = read_section(alloc, &mut input)?;
    let tariff = read_tariff(alloc, text.as_slice())?;
    rate_records(alloc, &tariff, ask, input, output)
}

/// Rates the records of a table by a tariff.
fn rate_records<I: Read + Drop, O: Write>(
    alloc: Global,
    tariff: &Tariff,
    ask: &RateAsk<'_>,
    records: I,
    output: &mut O,
) -> Result<Score, RateFault>
    ensures ends { IfSome (I.remaining records) (λ text.
        EndsRating ask.now.differing (headed (wished_names ask.now.names) tariff.now (rows_of text))
        (O.contents output.old) (O.contents output.new) result) }
    ensures silent { IfErr result
        (IsRatingSilent (O.contents output.old) (O.contents output.new)) }
    ensures bounded { IfOk result IsBoundedScore }
{
    let mut rows = Rows::new(alloc, CutRows::new(records));
    if !rows.next_row()? {
        return Err(RateFault::Header(HeaderFault::Absent));
    }
    let mut text = Vec::new(alloc);
    push_fields(&mut text, rows.row())?;
    if text.len() > MAX_SHOWN {
        return Err(RateFault::Header(HeaderFault::TooLong));
    }
    let columns = Columns::find(rows.row(), &ask.names)?;
    push_names(&mut text)?;
    let rater = Rater {
        tariff,
        columns,
        width: rows.row().len(),
        differing: ask.differing,
    };
    rate_rows(&rater, &mut rows, &mut text, output)
}

/// What a row is rated by.
#[derive(Clone, Copy)]
struct Rater<'a> {
    tariff: &'a Tariff,
    columns: Columns,
    width: usize,
    differing: bool,
}

impl Rater<'_> {
    /// Adds the line of a row to a text, and counts it. The record is what is printed of the row.
    fn add_row(
        &self,
        row: &ByteRecord,
        text: &mut Vec<u8>,
        score: &mut Score,
    ) -> Result<(), AllocError>
        requires bounded { IsBoundedScore score.old }
        requires room { score.old.rows < 2 ^ 64 - 1 }
        ensures adds { OnOk result ((whole : Fields) → fields_of row.now ≡ shown whole
            → AddsRatedRow self.now.tariff.now self.now.width self.now.columns self.now.differing
            whole text.old.items text.new.items score.old score.new) }
        ensures one { OnOk result (score.new.rows ≡ score.old.rows + 1) }
        ensures bounded { IsBoundedScore score.new }
    {
        let start = text.len();
        push_fields(text, row)?;
        let size = text.len() - start;
        let rated = rate_row(self.tariff, &self.columns, self.width, row, size);
        score.count(&rated);
        if self.differing && rated.is_right() {
            text.truncate(start);
            return Ok(());
        }
        push_rated(text, &rated)
    }
}

/// Rates rows as they come, of each of which the reader gives what is printed. The text is what was
/// printed of the header.
fn rate_rows<I: Read + Drop, O: Write>(
    rater: &Rater<'_>,
    rows: &mut Rows<I>,
    text: &mut Vec<u8>,
    output: &mut O,
) -> Result<Score, RateFault>
    ensures ends { (header : Fields) → (left : List Fields)
        → HasRowsLeft I.remaining rows.old (map shown left)
        → text.old.items ≡ header_line header
        → length header ≡ rater.now.width
        → EndsRating rater.now.differing (Ok (record {
          bands = rater.now.tariff.now;
          header = header;
          columns = rater.now.columns;
          rows = left;
        }))
        (O.contents output.old) (O.contents output.new) result }
    ensures stopped { IfErr result MayStop }
    ensures bounded { IfOk result IsBoundedScore }
{
    let mut score = Score::new();
    for _turn in 0..u64::MAX {
        let found = match rows.next_row() {
            Ok(found) => found,
            Err(fault) => {
                write_rest(output, text.as_slice())?;
                return Err(RateFault::from(fault));
            }
        };
        if !found {
            write_rest(output, text.as_slice())?;
            return Ok(score);
        }
        rater.add_row(rows.row(), text, &mut score)?;
        send(output, text)?;
    }
    Err(RateFault::Input(InputFault::OutOfMemory))
}

/// Writes a text where it has `ENOUGH` bytes, and leaves the rest of it.
fn send<O: Write>(output: &mut O, text: &mut Vec<u8>) -> Result<(), RateFault>
    ensures sends { OnOk result (SendsFront (O.contents output.old) (O.contents output.new)
        text.old.items text.new.items) }
    ensures fault { IfErr result
        (IsRatingCutOff (O.contents output.old) (O.contents output.new) text.old.items) }
{
    if text.len() >= ENOUGH {
        write_all(output, text.as_slice())?;
        text.clear();
    }
    Ok(())
}

/// Writes the rest of a text, and what the output still holds back.
fn write_rest<O: Write>(output: &mut O, text: &[u8]) -> Result<(), RateFault>
    ensures wrote { OnOk result
        (Appends (O.contents output.old) (O.contents output.new) text.now) }
    ensures fault { IfErr result
        (IsRatingCutOff (O.contents output.old) (O.contents output.new) text.now) }
{
    write_all(output, text)?;
    match output.flush() {
        Ok(()) => Ok(()),
        Err(_) => Err(RateFault::Output),
    }
}

/// Writes a text.
fn write_all<O: Write>(output: &mut O, text: &[u8]) -> Result<(), RateFault>
    ensures wrote { OnOk result
        (Appends (O.contents output.old) (O.contents output.new) text.now) }
    ensures fault { IfErr result
        (IsRatingCutOff (O.contents output.old) (O.contents output.new) text.now) }
{
    if write_text(output, text) {
        Ok(())
    } else {
        Err(RateFault::Output)
    }
}
