//! The rows that a run hears: those of its log, and those of its input.

ghost use Rattle.std.specs.Prelude.{IfErr, IfOk};
ghost use Rattle.live_answers.specs.Heads.{IsOfLog};
ghost use Rattle.live_answers.specs.Replays.{HearsLog};

use crate::checking::check_replay;
use crate::{Replay, ServeError};
use std::alloc::Global;

/// The rows that a run hears.
#[derive(Drop)]
pub(crate) struct Rows<I, L> {
    /// Where their lines come from.
    pub input: I,
    /// Where those of accepted messages are kept.
    pub log: L,
    /// What of them was heard before.
    pub replay: Replay,
}

/// How the lines of a log are heard again: the rows of its messages are printed again from the
/// number `again` on, or in silence where there is none. The error is the first line that isn't
/// accepted.
pub(crate) fn replay_of(
    alloc: Global,
    lines: &[u8],
    again: Option<u64>,
) -> Result<Replay, ServeError>
    ensures hears { IfOk result (HearsLog again lines.now) }
    ensures fault { IfErr result IsOfLog }
{
    let messages = check_replay(alloc, lines)?;
    let quiet = match again {
        Some(first) if first < messages as u64 => first as usize,
        _ => messages,
    };
    Ok(Replay { messages, quiet })
}
