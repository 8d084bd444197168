//! Lines that say how many of something there are, and which are the first ten.

ghost use Rattle.std.specs.Prelude.{All, IsSome, unwrap_or, [], ◌≡◌, ◌++◌, IfOk, OnOk, string_bytes};
ghost use Rattle.std.specs.List.{flat_map};
ghost use Rattle.run_outputs.specs.Lists.{behind_comma, count_text, end_text, list_line, strangers_line, unplaced_line};

use crate::UnplacedEvent;
use std::alloc::{AllocError, Global};
use std::fmt;

/// How many the line has at most behind the first one.
const MOST_OTHERS: usize = 9;

/// The line about calls of numbers that no subscriber has; nothing where there are none.
pub fn strangers_line(alloc: Global, calls: &[u64]) -> Result<String, AllocError>
    ensures { IfOk result (λ line. string_bytes line ≡ strangers_line calls.now) }
{
    list_line(
        alloc,
        "call of a number that no subscriber has",
        "calls of numbers that no subscriber has",
        calls,
    )
}

/// The line about events that had no place; nothing where there are none.
pub fn unplaced_line(alloc: Global, events: &[UnplacedEvent]) -> Result<String, AllocError>
    ensures { IfOk result (λ line. string_bytes line ≡ unplaced_line events.now) }
{
    list_line(
        alloc,
        "event that had no place",
        "events that had no place",
        events,
    )
}

/// How many there are, of what is called `one` where there is one and else `many`, and the first
/// ten; nothing where there are none.
fn list_line<T: fmt::Display>(
    alloc: Global,
    one: &str,
    many: &str,
    items: &[T],
) -> Result<String, AllocError>
    requires { All (λ item. IsSome (T.output item)) items.now }
    ensures { IfOk result (λ line. string_bytes line
        ≡ list_line one.now many.now (λ item. unwrap_or (T.output item) []) items.now) }
{
    let mut line = String::new(alloc);
    let Some((first, others)) = items.split_first() else {
        return Ok(line);
    };
    write_count(&mut line, one, many, items.len())?;
    write!(line, "{first}")?;
    write_others(&mut line, &others[..others.len().min(MOST_OTHERS)])?;
    write_end(&mut line, others.len())?;
    Ok(line)
}

/// Adds how many there are.
fn write_count(line: &mut String, one: &str, many: &str, count: usize) -> Result<(), AllocError>
    ensures { OnOk result
        (string_bytes line.new ≡ string_bytes line.old ++ count_text one.now many.now count) }
{
    if count == 1 {
        write!(line, "1 {one}: ")
    } else {
        write!(line, "{count} {many}: ")
    }
}

/// Adds further ones, each behind a comma.
fn write_others<T: fmt::Display>(line: &mut String, others: &[T]) -> Result<(), AllocError>
    requires { All (λ item. IsSome (T.output item)) others.now }
    ensures { OnOk result (string_bytes line.new ≡ string_bytes line.old
        ++ flat_map (λ item. behind_comma (unwrap_or (T.output item) [])) others.now) }
{
    for item in others {
        write!(line, ", {item}")?;
    }
    Ok(())
}

/// Ends the line, which has this number of them behind the first one, or says that there are more.
fn write_end(line: &mut String, others: usize) -> Result<(), AllocError>
    ensures { OnOk result (string_bytes line.new ≡ string_bytes line.old ++ end_text others) }
{
    if others > MOST_OTHERS {
        line.push_str(", ..\n")
    } else {
        line.push_str("\n")
    }
}
