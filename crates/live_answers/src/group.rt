//! The lines that are taken at once.

ghost use Rattle.std.specs.Prelude.{◌≡◌, ◌<◌, ◌≤◌, ◌-◌, ◌^◌, ◌++◌, ◌∷◌, ℕ, List, [], All, IfOk, OnOk, length, map};
ghost use Rattle.live_answers.specs.Groups.{TakesOf, views_in};
ghost use Rattle.live_answers.specs.Live.{heard_after, last_after, logged_of, next_after};
ghost use Rattle.live_answers.specs.Rows.{put_down};
ghost use Rattle.live_answers.specs.Said.{IsInRange, line_view_of};
ghost use Rattle.live_answers.specs.Standing.{said_after};

use crate::fault::Stop;
use crate::judging::{Said, judge};
use crate::line::take_line;
use crate::stage::Left;
use std::alloc::{AllocError, Global};
use std::io::BufRead;

/// The most lines that are taken at once.
pub const MAX_GROUP: usize = 2048;

/// Lines that are taken at once.
#[derive(Drop)]
pub(crate) struct Group {
    /// How many messages are accepted up to the last of them.
    pub next: usize,
    /// The moment of the last message up to there.
    pub last: u64,
    /// What each of them says.
    pub said: Vec<Said>,
    /// What is logged of them.
    pub logged: Vec<u8>,
    ghost in_range: { All IsInRange said.items },
}

impl Group {
    /// No lines yet, where so many messages were accepted, the last of them at this moment.
    pub(crate) fn new(alloc: Global, next: usize, last: u64) -> Group
        ensures next { result.next ≡ next }
        ensures last { result.last ≡ last }
        ensures said { result.said.items ≡ [] }
        ensures logged { result.logged.items ≡ [] }
    {
        Group {
            next,
            last,
            said: Vec::new(alloc),
            logged: Vec::new(alloc),
        }
    }

    /// Adds a line.
    fn add(&mut self, alloc: Global, line: &[u8]) -> Result<(), AllocError>
        requires room { self.old.next < 2 ^ 64 - 1 }
        ensures said { OnOk result (map line_view_of self.new.said.items
            ≡ map line_view_of self.old.said.items
            ++ said_after self.old.next self.old.last line.now ∷ []) }
        ensures logged { OnOk result (self.new.logged.items ≡ self.old.logged.items
            ++ put_down line.now (said_after self.old.next self.old.last line.now)) }
        ensures next { OnOk result (self.new.next
            ≡ next_after self.old.next (said_after self.old.next self.old.last line.now)) }
        ensures last { OnOk result (self.new.last
            ≡ last_after self.old.last (said_after self.old.next self.old.last line.now)) }
    {
        let said = judge(alloc, self.next as u64, self.last, line)?;
        self.next = said.next_place(self.next);
        if let Said::Message(message) = said {
            self.logged.extend_from_slice(line)?;
            self.last = message.at;
        }
        self.said.push(said)?;
        Ok(())
    }
}

/// Takes the next line, waiting for it, and behind it all whole lines that the input has at hand,
/// but no more than `MAX_GROUP`.
pub(crate) fn take_group<I: BufRead>(
    alloc: Global,
    input: &mut I,
    group: &mut Group,
) -> Result<Left, AllocError>
    requires said { group.old.said.items ≡ [] }
    requires logged { group.old.logged.items ≡ [] }
    requires room { group.old.next < 2 ^ 63 }
    ensures taken { IfOk result (λ left. (lines : List (List ℕ)) × (length lines ≤ MAX_GROUP)
        × TakesOf (I.remaining input.old) (I.remaining input.new) left lines
        × (map line_view_of group.new.said.items
        ≡ views_in (heard_after group.old.next group.old.last lines))
        × (group.new.logged.items ≡ logged_of (heard_after group.old.next group.old.last lines))) }
{
    let mut line = Vec::new(alloc);
    let mut more = false;
    for _count in 0..MAX_GROUP {
        line.clear();
        match take_line(input, &mut line, &mut more) {
            Ok(true) => group.add(alloc, line.as_slice())?,
            Ok(false) => return Ok(Left::Nothing),
            Err(Stop::Failed(_)) => return Ok(Left::Unread),
            Err(Stop::OutOfMemory) => return Err(AllocError),
        }
        if !more {
            return Ok(Left::Lines);
        }
    }
    Ok(Left::Lines)
}
