//! The rounds of a live run.

ghost use Rattle.std.specs.Prelude.{◌≡◌, ◌≤◌, ◌++◌, ℕ, List, All, IfErr, IfOk, OnOk};
ghost use Rattle.live_answers.specs.Cuts.{WhereFailed};
ghost use Rattle.live_answers.specs.Takings.{CutsGroup, TakesGroup};
ghost use Rattle.price_core.specs.declared.times.TheConstants.{HORIZON};
ghost use Rattle.run_values.specs.declared.post.Body.{Body};

use crate::LiveFault;
use crate::driver::LiveDriver;
use crate::fault::Stop;
use crate::group::{Group, take_group};
use crate::judging::{Said, last_moment};
use crate::saying::{give, put_down, say};
use crate::stage::{Left, Stage};
use run_values::{Answer, Body, Driver};
use std::alloc::{AllocError, Global};
use std::io::{BufRead, Write};

impl<I: BufRead, O: Write, L: Write> LiveDriver<'_, '_, I, O, L> {
    ghost use Rattle.live_answers.specs.Rounds.{HearsLines, IsStoppedBy, WritesOn};

    /// Prints what is due, and takes the next lines; none where no line is left.
    fn hear_lines(&mut self, answers: &[Answer]) -> Result<Option<Left>, Stop>
        ensures hears { IfOk result (HearsLines I.remaining O.contents L.contents
            self.old answers.now self.new) }
        ensures stopped { IfErr result (WhereFailed (IsStoppedBy I.remaining O.contents L.contents
            self.old answers.now self.new)) }
        ensures writes { WritesOn self.old self.new }
        ensures grows { OnOk result ((added : List (ℕ × Body))
            × (self.new.given.items ≡ self.old.given.items ++ added)) }
        ensures failed { IfErr result (WhereFailed (λ _.
            self.new.given.items ≡ self.old.given.items)) }
    {
        let first = self.given.len().saturating_sub(answers.len());
        self.line = say(
            self.alloc,
            self.output,
            self.said.as_slice(),
            self.replay,
            self.line,
            first,
            answers,
        )?;
        match self.stage {
            Stage::Open(Left::Lines) => {}
            Stage::Open(Left::Unread) => return Err(Stop::Failed(LiveFault::Input)),
            Stage::Open(Left::Nothing) | Stage::Ended | Stage::Failed(_) => return Ok(None),
        }
        let (left, said) = take_lines(self.alloc, &mut self.input, self.log, &mut self.given)?;
        self.said = said;
        Ok(Some(left))
    }
}

/// Takes the next lines, logs their messages, and then gives these. The result is what is left
/// behind the lines, and what they say.
fn take_lines<I: BufRead, L: Write>(
    alloc: Global,
    input: &mut I,
    log: &mut L,
    given: &mut Vec<(u64, Body)>,
) -> Result<(Left, Vec<Said>), Stop>
    requires moments { All (λ item. item.0 ≤ HORIZON) given.old.items }
    ensures moments { All (λ item. item.0 ≤ HORIZON) given.new.items }
    ensures takes { IfOk result (λ taken. TakesGroup (I.remaining input.old)
        (I.remaining input.new) (L.contents log.old) (L.contents log.new) given.old.items
        given.new.items taken.1.items taken.0) }
    ensures stopped { IfErr result (WhereFailed (CutsGroup (I.remaining input.old)
        (L.contents log.old) (L.contents log.new) given.old.items given.new.items)) }
    ensures grows { OnOk result ((added : List (ℕ × Body))
        × (given.new.items ≡ given.old.items ++ added)) }
{
    let last = last_moment(given.as_slice());
    let mut group = Group::new(alloc, given.len(), last);
    let left = take_group(alloc, input, &mut group)?;
    given.reserve(group.said.len())?;
    put_down(log, group.logged.as_slice())?;
    give(given, group.said.as_slice())?;
    Ok((left, group.said))
}

impl<I: BufRead, O: Write, L: Write> Driver for LiveDriver<'_, '_, I, O, L> {
    ghost use Rattle.live_answers.specs.Rounds.{Hears};
    ghost use Rattle.live_answers.specs.Stages.{has_ended};

    ghost given = { λ driver. driver.given.items };

    ghost ended = { λ driver. has_ended driver.stage };

    ghost Agenda = { Unit {0} };

    ghost agenda = { λ _. tt };

    ghost hears = { Hears I.remaining O.contents L.contents };

    fn given(&self) -> &[(u64, Body)] {
        self.given.as_slice()
    }

    fn ended(&self) -> bool {
        self.stage.has_ended()
    }

    fn round(&mut self, answers: &[Answer]) -> Result<bool, AllocError> {
        match self.hear_lines(answers) {
            Ok(Some(left)) => {
                self.stage = Stage::Open(left);
                Ok(true)
            }
            Ok(None) => {
                self.stage = Stage::Ended;
                Ok(false)
            }
            Err(Stop::Failed(fault)) => {
                self.stage = Stage::Failed(fault);
                Ok(false)
            }
            Err(Stop::OutOfMemory) => Err(AllocError),
        }
    }
}
