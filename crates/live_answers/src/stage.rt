//! How far a live run has come.

ghost use Rattle.std.specs.Prelude.{◌≡◌};
ghost use Rattle.live_answers.specs.Stages.{stage_fault, has_ended};

/// What ends a live run before its input ends.
#[derive(Clone, Copy, Debug, PartialEq, Eq)]
pub enum LiveFault {
    /// The input failed.
    Input,
    /// The output failed.
    Output,
    /// The log failed: how much of the last lines is in it is not known.
    Log,
}

/// What is left of an input.
#[derive(Clone, Copy)]
pub(crate) enum Left {
    /// Lines may be left.
    Lines,
    /// No line: it has ended.
    Nothing,
    /// Lines that can't be read: it has failed.
    Unread,
}

/// How far a live run has come.
#[derive(Clone, Copy)]
pub(crate) enum Stage {
    /// It goes on: what was taken in is to be answered, and then what is left is to be taken.
    Open(Left),
    /// Its input has ended.
    Ended,
    /// A fault has ended it.
    Failed(LiveFault),
}

impl Stage {
    /// Whether it goes on no more.
    pub(crate) fn has_ended(self) -> bool
        ensures { result ≡ has_ended self }
    {
        !matches!(self, Stage::Open(_))
    }

    /// The fault that has ended the run, if one has.
    pub(crate) fn fault(self) -> Option<LiveFault>
        ensures { result ≡ stage_fault self }
    {
        match self {
            Stage::Failed(fault) => Some(fault),
            Stage::Open(_) | Stage::Ended => None,
        }
    }
}
