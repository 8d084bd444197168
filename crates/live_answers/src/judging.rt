//! What a line says, after those before it.

ghost use Rattle.std.specs.Prelude.{◌≡◌, ◌<◌, ◌≤◌, ◌-◌, ◌^◌, IfOk};
ghost use Rattle.std.specs.Result.{result_map_both};
ghost use Rattle.live_answers.specs.Live.{next_after};
ghost use Rattle.live_answers.specs.Said.{IsInRange, line_view_of};
ghost use Rattle.live_answers.specs.Standing.{last_item_moment, placed, said_after};
ghost use Rattle.run_texts.specs.MessageViews.{view_of};
ghost use Rattle.table_core.specs.Judging.{and_then};

use crate::MAX_LINE;
use price_core::HORIZON;
use run_texts::{LineKind, Message, read_message_line};
use run_values::Body;
use std::alloc::{AllocError, Global};
use table_core::RowKind;

/// What a line says.
#[derive(Clone, Copy)]
pub(crate) enum Said {
    /// Nothing: it is empty.
    Nothing,
    /// A message that may be the next.
    Message(Message),
    /// What is wrong with it.
    Fault(LineKind),
}

impl Said {
    /// How many messages are accepted, where so many were before it.
    pub(crate) fn next_place(self, place: usize) -> usize
        requires room { place < 2 ^ 64 - 1 }
        ensures { result ≡ next_after place (line_view_of self) }
    {
        match self {
            Said::Message(_) => place + 1,
            Said::Nothing | Said::Fault(_) => place,
        }
    }
}

/// What a line says where so many messages were accepted, the last of them at this moment.
pub(crate) fn judge(alloc: Global, next: u64, last: u64, line: &[u8]) -> Result<Said, AllocError>
    ensures says { IfOk result (λ said. line_view_of said ≡ said_after next last line.now) }
    ensures in_range { IfOk result IsInRange }
{
    if line.len() > MAX_LINE {
        return Ok(Said::Fault(LineKind::TooLong));
    }
    let Ok(found) = read_message_line(alloc, line) else {
        return Err(AllocError);
    };
    let Some(read) = found else {
        return Ok(Said::Nothing);
    };
    match place(next, last, read) {
        Ok(message) => Ok(Said::Message(message)),
        Err(kind) => Ok(Said::Fault(LineKind::Row(kind))),
    }
}

/// What was read, where it may be the next: a number that was accepted before is looked at before
/// the moment, which a row that is sent again may have passed.
fn place(next: u64, last: u64, read: Result<Message, RowKind>) -> Result<Message, RowKind>
    ensures says { result_map_both view_of (λ kind. kind) result
        ≡ and_then (result_map_both view_of (λ kind. kind) read) (placed next last) }
    ensures in_range { IfOk read (λ message. message.at ≤ HORIZON)
        → IfOk result (λ message. message.at ≤ HORIZON) }
{
    let message = read?;
    match message.number {
        Some(number) if number < next => Err(RowKind::Repeated),
        Some(number) if number > next => Err(RowKind::Order),
        _ if message.at < last => Err(RowKind::Order),
        _ => Ok(message),
    }
}

/// The moment of the last item, 0 before the first.
pub(crate) fn last_moment(given: &[(u64, Body)]) -> u64
    ensures { result ≡ last_item_moment given.now }
{
    match given.last() {
        Some(item) => item.0,
        None => 0,
    }
}
