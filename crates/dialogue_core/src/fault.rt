//! Why a dialogue refuses what it is handed.

ghost use Rattle.std.specs.Prelude.{◌≡◌};
ghost use Rattle.dialogue_core.specs.Faults.{dialogue_fault_code};

use thiserror::Error;

/// Why a dialogue refuses a message or a reply; it is then as before. Whether an ask is pending is
/// judged first.
#[derive(Clone, Copy, Debug, PartialEq, Eq, Error)]
pub enum DialogueFault {
    /// A message or a reply that has no place in this state.
    #[error("unexpected")]
    Unexpected = 1,
    /// A reply where the account wasn't asked.
    #[error("no ask is pending")]
    NoAskPending = 2,
    /// A message while the account's reply is awaited.
    #[error("an ask is pending")]
    AskPending = 3,
}

impl DialogueFault {
    /// The number of the fault.
    pub fn code(self) -> u8
        ensures { result ≡ dialogue_fault_code self }
    {
        self as u8
    }
}
