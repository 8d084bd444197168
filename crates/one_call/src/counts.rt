//! What is counted as a call is driven.

ghost use Rattle.std.specs.Prelude.{◌≡◌};
ghost use Rattle.one_call.specs.Counts.{asks_counted, nothing_counted, with_answer, with_fault, with_message};

use account_core::{AccountFault, Reply};
use cap_values::SsfMsg;
use price_core::TimeInfo;
use ssf_core::SsfFault;

/// What was counted of a call so far. A count that reaches the largest `u64` stays there.
#[derive(Clone, Copy)]
pub(crate) struct Counts {
    /// The messages of the gsmSSF: the next one has this number.
    pub messages: u64,
    /// The charging reports among them.
    pub reports: u64,
    /// The forfeits among the answers of the port.
    pub forfeits: u64,
    /// The times of the last charging report.
    pub last: Option<TimeInfo>,
    /// The inputs that the gsmSSF refused.
    pub refused: u64,
}

impl Counts {
    /// Nothing was counted.
    pub fn new() -> Counts
        ensures { result ≡ nothing_counted }
    {
        Counts {
            messages: 0,
            reports: 0,
            forfeits: 0,
            last: None,
            refused: 0,
        }
    }

    /// The counts with a message of the gsmSSF.
    pub fn with_message(self, message: &SsfMsg) -> Counts
        ensures { result ≡ with_message self message.now }
    {
        let messages = counted(self.messages);
        match *message {
            SsfMsg::ChargingReport { info, .. } => Counts {
                messages,
                reports: counted(self.reports),
                last: Some(info),
                ..self
            },
            _ => Counts { messages, ..self },
        }
    }

    /// The counts with an answer of the port.
    pub fn with_answer(self, answer: &Result<Reply, AccountFault>) -> Counts
        ensures { result ≡ with_answer self answer.now }
    {
        match *answer {
            Ok(Reply::Forfeit { .. }) => Counts {
                forfeits: counted(self.forfeits),
                ..self
            },
            _ => self,
        }
    }

    /// The counts with an input of the gsmSSF, and why it was refused, if it was.
    pub fn with_input(self, fault: Option<SsfFault>) -> Counts
        ensures { result ≡ with_fault self fault }
    {
        match fault {
            Some(_) => Counts {
                refused: counted(self.refused),
                ..self
            },
            None => self,
        }
    }
}

/// One more.
fn counted(count: u64) -> u64
    ensures { result ≡ asks_counted count }
{
    count.saturating_add(1)
}
