//! What drives a run.

use crate::{Answer, Body};
use price_core::HORIZON;
use std::alloc::AllocError;

/// Gives the posts of a run, round by round.
///
/// A driver stores all that it has given, in order, each with its moment in units of 100 ms, and
/// whether it has ended. It states an agenda, which no round changes; of one that has none it is
/// `tt`. It may state what it becomes by the answers that it hears in a round; what it says of
/// that, `runs_core::serve` says of all the rounds of a run.
pub trait Driver {
    ghost use Rattle.std.specs.Prelude.{◌≡◌, ◌≤◌, ◌++◌, ℕ, List, Bool, not, false, All, IfOk, OnOk};
    ghost use Rattle.run_values.specs.declared.post.Answer.{Answer};
    ghost use Rattle.run_values.specs.declared.post.Body.{Body};

    ghost given: { Self → List (ℕ × Body) };

    ghost ended: { Self → Bool };

    ghost Agenda: { Type 0 } = { Unit {0} };

    ghost agenda: { Self → Self.Agenda };

    ghost hears: { Self → List Answer → Self → Type 0 } = { λ _ _ _. Unit {0} };

    /// All that it has given, each with its moment, 0 to `price_core::HORIZON`.
    fn given(&self) -> &[(u64, Body)]
        ensures items { result.now ≡ given self.now }
        ensures moments { All (λ item. item.0 ≤ HORIZON) result.now };

    /// Whether it has ended.
    fn ended(&self) -> bool
        ensures { result ≡ ended self.now };

    /// Takes the answers to the items of the round before, in their order, and gives more items, or
    /// none; false where it has ended, and then it gives none. Where memory ran out, it isn't used
    /// again.
    fn round(&mut self, answers: &[Answer]) -> Result<bool, AllocError>
        ensures grows { OnOk result ((added : List (ℕ × Body))
            × (given self.new ≡ given self.old ++ added)) }
        ensures ended { IfOk result (λ more. ended self.new ≡ not more) }
        ensures end { IfOk result (λ more. more ≡ false → given self.new ≡ given self.old) }
        ensures agenda { Self.agenda self.new ≡ Self.agenda self.old }
        ensures hears { OnOk result (hears self.old answers.now self.new) };
}
