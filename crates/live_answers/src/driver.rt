//! What a live run keeps.

ghost use Rattle.std.specs.Prelude.{◌≤◌, All};
ghost use Rattle.price_core.specs.declared.times.TheConstants.{HORIZON};

use crate::Replay;
use crate::judging::Said;
use crate::stage::{Left, Stage};
use run_values::Body;
use std::alloc::Global;

/// Drives a live run: in each round it prints what the last lines said, with the answers to their
/// messages, takes the next line and those that are at hand behind it, and gives their messages.
#[derive(Drop)]
pub(crate) struct LiveDriver<'o, 'l, I, O, L> {
    pub alloc: Global,
    /// Where the lines come from.
    pub input: I,
    /// Where the rows go.
    pub output: &'o mut O,
    /// Where the lines of accepted messages are kept.
    pub log: &'l mut L,
    /// What of the input was heard before.
    pub replay: Replay,
    /// All that was given.
    pub given: Vec<(u64, Body)>,
    /// The number of the last line that was printed.
    pub line: u64,
    /// What the lines behind it said, which is printed before more are taken: their messages are
    /// the last items.
    pub said: Vec<Said>,
    pub stage: Stage,
    ghost moments: { All (λ item. item.0 ≤ HORIZON) given.items },
}

impl<'o, 'l, I, O, L> LiveDriver<'o, 'l, I, O, L> {
    ghost use Rattle.std.specs.Prelude.{◌≡◌, []};
    ghost use Rattle.live_answers.specs.declared.stage.Left.TheVariants as left;
    ghost use Rattle.live_answers.specs.declared.stage.Stage.TheVariants as stage;

    /// A driver before its first line, behind the header of the messages, which is line 1.
    pub(crate) fn new(
        alloc: Global,
        input: I,
        output: &'o mut O,
        log: &'l mut L,
        replay: Replay,
    ) -> LiveDriver<'o, 'l, I, O, L>
        ensures input { result.input ≡ input }
        ensures output { result.output.now ≡ output.old }
        ensures same_output { result.output.ghost_name ≡ output.entry.ghost_name }
        ensures log { result.log.now ≡ log.old }
        ensures same_log { result.log.ghost_name ≡ log.entry.ghost_name }
        ensures replay { result.replay ≡ replay }
        ensures given { result.given.items ≡ [] }
        ensures line { result.line ≡ 1 }
        ensures said { result.said.items ≡ [] }
        ensures stage { result.stage ≡ stage.Open left.Lines }
    {
        LiveDriver {
            alloc,
            input,
            output,
            log,
            replay,
            given: Vec::new(alloc),
            line: 1,
            said: Vec::new(alloc),
            stage: Stage::Open(Left::Lines),
        }
    }
}
