//! The lines of a log, before they are heard again.

ghost use Rattle.std.specs.Prelude.{◌≡◌};
ghost use Rattle.live_answers.specs.Checks.{IsChecked, logged_moment};
ghost use Rattle.live_answers.specs.Cuts.{replay_fault_of};
ghost use Rattle.live_answers.specs.Live.{heard_in};
ghost use Rattle.live_answers.specs.Said.{line_view_of};
ghost use Rattle.live_answers.specs.declared.checking.ReplayFault.TheVariants as faults;

use crate::fault::Stop;
use crate::judging::{Said, judge};
use crate::line::take_line;
use run_texts::LineKind;
use std::alloc::{AllocError, Global};
use table_core::RowKind;

/// Why the lines of a log can't be heard again.
#[derive(Clone, Copy)]
pub(crate) enum ReplayFault {
    /// A line isn't accepted: its row, where the header in front of the lines is row 1, and what is
    /// wrong with it.
    Line(u64, LineKind),
    /// The lines couldn't be read.
    Input,
    /// Memory ran out.
    OutOfMemory,
}

impl From<AllocError> for ReplayFault {
    ghost from_gives = { λ _ fault. fault ≡ faults.OutOfMemory };

    fn from(_error: AllocError) -> ReplayFault {
        ReplayFault::OutOfMemory
    }
}

impl From<Stop> for ReplayFault {
    ghost from_gives = { λ stop fault. fault ≡ replay_fault_of stop };

    fn from(stop: Stop) -> ReplayFault {
        match stop {
            Stop::Failed(_) => ReplayFault::Input,
            Stop::OutOfMemory => ReplayFault::OutOfMemory,
        }
    }
}

/// How many lines a log has, where a live run would accept each of them.
///
/// The error is the first line that it wouldn't accept, with its row and what is wrong with it: an
/// empty line is `Csv`.
pub(crate) fn check_replay(alloc: Global, lines: &[u8]) -> Result<usize, ReplayFault>
    ensures { IsChecked (heard_in lines.now) result }
{
    let mut input = lines;
    let mut line = Vec::new(alloc);
    let mut more = false;
    let mut last = 0;
    for next in 0..usize::MAX - 1 {
        if !take_line(&mut input, &mut line, &mut more)? {
            return Ok(next);
        }
        let said = judge(alloc, next as u64, last, line.as_slice())?;
        match moment_of(said) {
            Ok(at) => last = at,
            Err(kind) => return Err(ReplayFault::Line(next as u64 + 2, kind)),
        }
        line.clear();
    }
    Err(ReplayFault::Input)
}

/// The moment of a line that is accepted, or what is wrong with it.
fn moment_of(said: Said) -> Result<u64, LineKind>
    ensures { result ≡ logged_moment (line_view_of said) }
{
    match said {
        Said::Message(message) => Ok(message.at),
        Said::Nothing => Err(LineKind::Row(RowKind::Csv)),
        Said::Fault(kind) => Err(kind),
    }
}
