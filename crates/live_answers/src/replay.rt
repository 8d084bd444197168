//! What of an input was heard before.

ghost use Rattle.live_answers.specs.Rows.{line_behind_log};

/// What of an input was heard before: a run that was cut off begins with the lines that it has
/// logged.
#[derive(Clone, Copy)]
pub struct Replay {
    /// How many messages were accepted before: their lines aren't counted.
    pub messages: usize,
    /// How many messages are handled in silence: their rows and those of their answers aren't
    /// printed.
    pub quiet: usize,
}

impl Replay {
    ghost use Rattle.std.specs.Prelude.{◌≡◌};

    /// Nothing was heard before.
    pub const NONE: Replay = Replay {
        messages: 0,
        quiet: 0,
    };

    /// The number of the line behind one, where so many messages were accepted.
    pub(crate) fn next_line(self, given: usize, line: u64) -> u64
        ensures { result ≡ line_behind_log self given line }
    {
        if given < self.messages {
            line
        } else {
            line.saturating_add(1)
        }
    }
}
