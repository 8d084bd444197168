//! The command `rate`.

ghost use Rattle.std.specs.Prelude.{◌≡◌, ◌++◌, [], IfOk, IfSome, OnOk, if◌then◌else◌};
ghost use Rattle.std.specs.Io.KnownBytes.{Keeps};
ghost use Rattle.table_commands.specs.Ratings.{IsRatedByWish, IsSaidOfRating};
ghost use Rattle.table_commands.specs.Summaries.{counts_text, status_of_rating, sums_text, summary_line};
ghost use Rattle.table_core.specs.Fronts.{AppendsFront};
ghost use Rattle.rating.specs.SaidOf.{rate_wish_of};
ghost use Rattle.rating.specs.Scores.{IsBoundedScore};

use crate::error_lines::{report_end, report_with};
use crate::explanations::explain_header;
use crate::fault::{Fault, TableName};
use crate::noting::Noting;
use arrayvec::ArrayString;
use rating::{Names, RateAsk, RateFault, Score, rate};
use std::alloc::Global;
use std::fmt::{self, Write as WriteText};
use std::io::{self, Read, Write};
use table_core::write_text;

/// The most bytes of a summary: more than any has.
const MOST_BYTES: usize = 384;

/// Rates the records in the input as they come, and gives the status: 0 where no row differs or has
/// a fault, else 3; 1 for a fault of the tariff or the header, and then nothing is printed; 2 where
/// the input, memory or the output failed, and then the output has a front of the text.
pub fn rate_input<I: Read + Drop, O: Write, E: Write>(
    alloc: Global,
    ask: &RateAsk<'_>,
    input: I,
    output: &mut Noting<O>,
    faults: &mut E,
    explains: bool,
) -> u8
    ensures rated { IfSome (I.remaining input) (λ text.
        IsRatedByWish explains (rate_wish_of ask.now) text result
        (record { output = O.contents output.old.inner; faults = E.contents faults.old })
        (record { output = O.contents output.new.inner; faults = E.contents faults.new })) }
    ensures silent { result ≡ 1
        → Keeps (O.contents output.old.inner) (O.contents output.new.inner) }
{
    match rate(alloc, ask, input, output) {
        Ok(score) => report_rated(faults, ask.summary, &score),
        Err(why) => report_unrated(alloc, faults, explains, &ask.names, why, output.failed),
    }
}

/// Reports why records weren't rated to their end, and gives the status. What is wrong with a
/// header is said behind its line where that is asked for, unless memory runs out for it.
fn report_unrated<E: Write>(
    alloc: Global,
    faults: &mut E,
    explains: bool,
    names: &Names<'_>,
    why: RateFault,
    failed: Option<io::Error>,
) -> u8
    ensures { IsSaidOfRating explains why result (E.contents faults.old) (E.contents faults.new) }
{
    match why {
        RateFault::Header(wrong) if explains => {
            let more = explain_header(alloc, names, wrong);
            report_with(
                faults,
                Fault::no_header(TableName::Records),
                more.as_bytes(),
            )
        }
        _ => report_end(faults, explains, Fault::of_rate(why), failed),
    }
}

/// Writes the summary, where it is wanted, and gives the status of rows that were all printed.
fn report_rated<E: Write>(faults: &mut E, summary: bool, score: &Score) -> u8
    requires { IsBoundedScore score.now }
    ensures status { result ≡ status_of_rating score.now }
    ensures line { AppendsFront (E.contents faults.old) (E.contents faults.new)
        (if summary then summary_line score.now else []) }
{
    if summary {
        write_summary(faults, score);
    }
    if score.passes() { 0 } else { 3 }
}

/// Writes the summary.
fn write_summary<E: Write>(faults: &mut E, score: &Score)
    ensures { AppendsFront (E.contents faults.old) (E.contents faults.new)
        (summary_line score.now) }
{
    if let Ok(line) = summary_line(score) {
        write_text(faults, line.as_str().as_bytes());
    }
}

/// The line of the summary. It takes no memory.
fn summary_line(score: &Score) -> Result<ArrayString<MOST_BYTES>, fmt::Error>
    ensures { IfOk result (λ line. line.bytes ≡ summary_line score.now) }
{
    let mut line = ArrayString::new();
    add_counts(&mut line, score)?;
    add_sums(&mut line, score)?;
    Ok(line)
}

/// Adds how many rows there were.
fn add_counts(line: &mut ArrayString<MOST_BYTES>, score: &Score) -> fmt::Result
    ensures { OnOk result (line.new.bytes ≡ line.old.bytes ++ counts_text score.now) }
{
    let (rows, differing, faults) = (score.rows, score.differing, score.faults);
    write!(
        line,
        "prepaid: rated: {rows} rows, {differing} differ, {faults} faults, "
    )
}

/// Adds what they come to, and the end of the line.
fn add_sums(line: &mut ArrayString<MOST_BYTES>, score: &Score) -> fmt::Result
    ensures { OnOk result (line.new.bytes ≡ line.old.bytes ++ sums_text score.now) }
{
    let (paid, price) = (score.paid, score.price);
    let (over, under) = (score.over, score.under);
    writeln!(
        line,
        "charged {paid}, by the tariff {price}, over {over}, under {under}"
    )
}
