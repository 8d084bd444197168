//! What is printed and logged in a round.

ghost use Rattle.std.specs.Prelude.{◌≡◌, ◌<◌, ◌≤◌, ◌^◌, ◌++◌, ℕ, List, All, IfErr, IfOk, OnOk, flat_map, map, option_copied, string_bytes};
ghost use Rattle.std.specs.Io.KnownBytes.{Appends};
ghost use Rattle.live_answers.specs.Cuts.{CutsLog, CutsOutput, WhereFailed};
ghost use Rattle.live_answers.specs.Groups.{group_rows, line_behind};
ghost use Rattle.live_answers.specs.Live.{given_by, item_view};
ghost use Rattle.live_answers.specs.Rows.{rows_of_line};
ghost use Rattle.live_answers.specs.Said.{IsInRange, line_view_of};
ghost use Rattle.table_core.specs.Fronts.{Writes};
ghost use Rattle.run_values.specs.declared.post.Body.{Body};

use crate::fault::Stop;
use crate::judging::Said;
use crate::{LiveFault, Replay};
use price_core::HORIZON;
use run_texts::write_rows;
use run_values::{Answer, Body};
use std::alloc::{AllocError, Global};
use std::io::Write;
use table_core::write_text;
use tariff_core::Clock;

/// Prints what lines said that are behind the line of a number: of each the rows of its message,
/// with those of its answer, or the row of what is wrong with it. So many messages were accepted
/// before them, and these are the answers to theirs. The quiet messages are not printed. All is
/// written at once and flushed. The result is the number of the last line.
pub(crate) fn say<O: Write>(
    alloc: Global,
    output: &mut O,
    said: &[Said],
    replay: Replay,
    before: u64,
    first: usize,
    answers: &[Answer],
) -> Result<u64, Stop>
    requires room { first < 2 ^ 63 }
    ensures printed { OnOk result (Appends (O.contents output.old) (O.contents output.new)
        (group_rows replay first answers.now before first (map line_view_of said.now))) }
    ensures line { IfOk result (λ line. line
        ≡ line_behind replay before first (map line_view_of said.now)) }
    ensures cut { IfErr result (WhereFailed (CutsOutput (O.contents output.old)
        (O.contents output.new)
        (group_rows replay first answers.now before first (map line_view_of said.now)))) }
{
    let mut text = String::new(alloc);
    let mut line = before;
    let mut place = first;
    for one in said {
        line = replay.next_line(place, line);
        let answer = answers.get(place - first);
        write_line_rows(&mut text, one, replay.quiet, line, place, answer)?;
        place = one.next_place(place);
    }
    if send(output, text.as_bytes()) {
        Ok(line)
    } else {
        Err(Stop::Failed(LiveFault::Output))
    }
}

/// Adds the rows of a line.
fn write_line_rows(
    text: &mut String,
    said: &Said,
    quiet: usize,
    line: u64,
    place: usize,
    answer: Option<&Answer>,
) -> Result<(), AllocError>
    ensures { OnOk result (string_bytes text.new ≡ string_bytes text.old
        ++ rows_of_line quiet line place (option_copied answer.entry) (line_view_of said.now)) }
{
    match *said {
        Said::Nothing => Ok(()),
        Said::Message(_) if place < quiet => Ok(()),
        Said::Message(message) => {
            write_rows(
                text,
                Clock::Digits,
                place,
                &(message.at, message.body),
                answer,
            )
        }
        Said::Fault(kind) => writeln!(text, ",,,service,fault,{kind},{line},,"),
    }
}

/// Logs a text: all is written at once and flushed.
pub(crate) fn put_down<L: Write>(log: &mut L, text: &[u8]) -> Result<(), Stop>
    ensures logs { OnOk result (Appends (L.contents log.old) (L.contents log.new) text.now) }
    ensures cut { IfErr result (WhereFailed (CutsLog (L.contents log.old) (L.contents log.new)
        text.now)) }
{
    if send(log, text) {
        Ok(())
    } else {
        Err(Stop::Failed(LiveFault::Log))
    }
}

/// Gives the messages that lines said.
pub(crate) fn give(given: &mut Vec<(u64, Body)>, said: &[Said]) -> Result<(), AllocError>
    requires moments { All (λ item. item.0 ≤ HORIZON) given.old.items }
    requires in_range { All IsInRange said.now }
    ensures moments { All (λ item. item.0 ≤ HORIZON) given.new.items }
    ensures grows { OnOk result ((added : List (ℕ × Body))
        × (given.new.items ≡ given.old.items ++ added)) }
    ensures gives { OnOk result (map item_view given.new.items
        ≡ map item_view given.old.items ++ flat_map given_by (map line_view_of said.now)) }
{
    for one in said {
        give_one(given, *one)?;
    }
    Ok(())
}

/// Gives the message that a line said.
fn give_one(given: &mut Vec<(u64, Body)>, said: Said) -> Result<(), AllocError>
    requires moments { All (λ item. item.0 ≤ HORIZON) given.old.items }
    requires in_range { IsInRange said }
    ensures moments { All (λ item. item.0 ≤ HORIZON) given.new.items }
    ensures grows { OnOk result ((added : List (ℕ × Body))
        × (given.new.items ≡ given.old.items ++ added)) }
    ensures gives { OnOk result (map item_view given.new.items
        ≡ map item_view given.old.items ++ given_by (line_view_of said)) }
{
    if let Said::Message(message) = said {
        given.push((message.at, message.body))?;
    }
    Ok(())
}

/// Writes a text, unless it is empty, and flushes it, and answers whether the writer did both.
/// Where it didn't, what it took is a front of the text.
fn send<W: Write>(writer: &mut W, text: &[u8]) -> bool
    ensures { Writes (W.contents writer.old) (W.contents writer.new) text.now result }
{
    text.is_empty() || write_text(writer, text) && writer.flush().is_ok()
}
