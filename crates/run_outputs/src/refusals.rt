//! How often the accounts of a run refused what they were asked.

ghost use Rattle.std.specs.Prelude.{◌≡◌, ◌++◌, List};
ghost use Rattle.run_outputs.specs.Refused.{none_refused, one_refusal_more, refusals_counted_in, with_refusals};
ghost use Rattle.run_values.specs.declared.post.Answer.{Answer};

use account_core::AccountFault;
use run_values::Answer;

/// How many answers of a run say that an account refused what it was asked, by the account's fault.
/// A count stops at `u64::MAX`.
#[derive(Clone, Copy)]
pub struct Refusals {
    /// The gate was closed.
    pub gate_closed: u64,
    /// An amount or a time was out of its range.
    pub out_of_range: u64,
    /// The call wasn't open.
    pub not_open: u64,
    /// The call was returned before.
    pub call_used: u64,
    /// The history was full.
    pub history_full: u64,
    /// Memory ran out.
    pub out_of_memory: u64,
}

impl Refusals {
    /// No refusal.
    pub fn none() -> Refusals
        ensures { result ≡ none_refused }
    {
        Refusals {
            gate_closed: 0,
            out_of_range: 0,
            not_open: 0,
            call_used: 0,
            history_full: 0,
            out_of_memory: 0,
        }
    }

    /// Counts the refusals of more answers.
    pub fn hear(&mut self, answers: &[Answer])
        ensures { (heard : List Answer) → self.old ≡ refusals_counted_in heard
            → self.new ≡ refusals_counted_in (heard ++ answers.now) }
    {
        for answer in answers {
            if let Some(fault) = answer.refused {
                self.count(fault);
            }
        }
    }

    /// Counts as many refusals more as others are.
    pub fn add(&mut self, more: &Refusals)
        ensures { self.new ≡ with_refusals self.old more.now }
    {
        self.gate_closed = self.gate_closed.saturating_add(more.gate_closed);
        self.out_of_range = self.out_of_range.saturating_add(more.out_of_range);
        self.not_open = self.not_open.saturating_add(more.not_open);
        self.call_used = self.call_used.saturating_add(more.call_used);
        self.history_full = self.history_full.saturating_add(more.history_full);
        self.out_of_memory = self.out_of_memory.saturating_add(more.out_of_memory);
    }

    /// Counts a refusal.
    fn count(&mut self, fault: AccountFault)
        ensures { self.new ≡ one_refusal_more self.old fault }
    {
        match fault {
            AccountFault::GateClosed => self.gate_closed = self.gate_closed.saturating_add(1),
            AccountFault::OutOfRange => self.out_of_range = self.out_of_range.saturating_add(1),
            AccountFault::NotOpen => self.not_open = self.not_open.saturating_add(1),
            AccountFault::CallUsed => self.call_used = self.call_used.saturating_add(1),
            AccountFault::HistoryFull => self.history_full = self.history_full.saturating_add(1),
            AccountFault::OutOfMemory => self.out_of_memory = self.out_of_memory.saturating_add(1),
        }
    }
}
