//! At what stage a call is, as far as the places of a history go.

ghost use Rattle.std.specs.Prelude.{◌≡◌, ◌≤◌};
ghost use Rattle.account_core.specs.CallStages.{stage_of};
ghost use Rattle.account_core.specs.Entries.{asked_of};
ghost use Rattle.account_core.specs.Known.{CallFacts, deed_of, known_after};
ghost use Rattle.account_core.specs.Places.{needed_by, owed_to};

use crate::{Op, Reply};

/// At what stage a call is. By this alone it is owed places of a history.
#[derive(Clone, Copy)]
pub enum CallStage {
    /// It was never granted anything, and isn't over.
    Fresh,
    /// It was granted something and isn't over.
    Open {
        /// Whether no report has come since its last grant.
        awaits: bool,
    },
    /// It is over.
    Over,
}

impl CallStage {
    /// The places that the call is owed: one for its Return, and one for a Settle while it awaits
    /// it.
    #[tactic(auto, unfolding(crate::specs::Places::owed_to))]
    pub fn owed(&self) -> usize
        ensures value { (known : CallFacts) → stage_of known ≡ self.now → result ≡ owed_to known }
        ensures few { result ≤ 2 }
    {
        match self {
            CallStage::Fresh | CallStage::Over => 0,
            CallStage::Open { awaits: false } => 1,
            CallStage::Open { awaits: true } => 2,
        }
    }

    /// The places that an operation of the call needs beyond those that are owed.
    pub fn needed(&self, op: &Op) -> usize
        ensures value { (known : CallFacts) → stage_of known ≡ self.now
            → result ≡ needed_by known (asked_of op.now) }
        ensures few { result ≤ 3 }
    {
        match (op, self) {
            (Op::Reserve { .. }, CallStage::Fresh | CallStage::Over) => 3,
            (Op::Reserve { .. }, CallStage::Open { awaits: false }) => 2,
            (Op::Settle { .. }, CallStage::Open { awaits: true }) => 0,
            (Op::Return { .. }, CallStage::Open { .. }) => 0,
            _ => 1,
        }
    }

    /// The stage after an entry of the call.
    pub fn after(self, op: Op, reply: Reply) -> CallStage
        ensures { (known : CallFacts) → stage_of known ≡ self
            → result ≡ stage_of (known_after known (deed_of (asked_of op) reply)) }
    {
        match (self, op, reply) {
            (CallStage::Over, _, _) | (_, Op::Return { .. }, Reply::Returned { .. }) => {
                CallStage::Over
            }
            (_, Op::Reserve { .. }, Reply::Granted { .. }) => CallStage::Open { awaits: true },
            (
                CallStage::Open { .. },
                Op::Settle { .. },
                Reply::Settled { .. } | Reply::Forfeit { .. },
            ) => CallStage::Open { awaits: false },
            _ => self,
        }
    }
}
