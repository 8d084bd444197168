//! What the entries of a history say of calls.

ghost use Rattle.std.specs.Prelude.{◌≡◌, ◌∷◌, List, map, reverse, IfOk, OnOk};
ghost use Rattle.account_core.specs.Asked.{call_of};
ghost use Rattle.account_core.specs.Entries.{EntryData, asked_of, entry_data};
ghost use Rattle.run_outputs.specs.KeptRecords.{HaveMarks, marks_in, marks_of};

use account_core::{Entry, Op, Reply, RisingMap};
use price_core::{Times, read_times};
use std::alloc::{AllocError, Global};

/// What entries say of a call.
#[derive(Clone, Copy)]
pub(crate) struct CallMarks {
    /// Its times, which its last accepted report states.
    pub times: Times,
    /// The time granted in all, cumulative as the reports are.
    pub total: u64,
    /// Whether it was ever granted anything.
    pub granted: bool,
    /// Whether its newest grant is less than was wanted.
    pub last: bool,
    /// Whether it has a forfeit.
    pub forfeited: bool,
    /// Whether it was denied anything.
    pub denied: bool,
    /// Whether it was denied anything after a grant.
    pub denied_later: bool,
}

impl CallMarks {
    /// Those of a call without entries.
    pub const NONE: CallMarks = CallMarks {
        times: Times::ZERO,
        total: 0,
        granted: false,
        last: false,
        forfeited: false,
        denied: false,
        denied_later: false,
    };

    /// The same after one entry more of the call.
    #[tactic(auto, unfolding(account_core::specs::Known::deed))]
    fn after(self, entry: Entry) -> CallMarks
        ensures { (h : List EntryData) → self ≡ marks_of (call_of (asked_of entry.op)) h
            → result ≡ marks_of (call_of (asked_of entry.op)) (entry_data entry ∷ h) }
    {
        match (entry.op, entry.reply) {
            (Op::Reserve { .. }, Reply::Granted { units, last, .. }) => CallMarks {
                total: u64::from(self.times.total()) + u64::from(units),
                granted: true,
                last,
                ..self
            },
            (Op::Reserve { .. }, Reply::Denied { .. }) => CallMarks {
                denied: true,
                denied_later: self.denied_later || self.granted,
                ..self
            },
            (Op::Settle { info, .. }, Reply::Settled { .. }) => CallMarks {
                times: read_times(self.times, info).unwrap_or(self.times),
                ..self
            },
            (Op::Settle { .. }, Reply::Forfeit { .. }) => CallMarks {
                forfeited: true,
                ..self
            },
            _ => self,
        }
    }
}

/// What a history says of each of its calls.
pub(crate) fn marks_in(alloc: Global, history: &[Entry]) -> Result<RisingMap<CallMarks>, AllocError>
    ensures { IfOk result (λ marks. HaveMarks marks (reverse (map entry_data history.now))) }
{
    let mut marks = RisingMap::new(alloc);
    for entry in history {
        hear(&mut marks, *entry)?;
    }
    Ok(marks)
}

/// What entries say of a call.
pub(crate) fn marks_of(marks: &RisingMap<CallMarks>, call: u64) -> CallMarks
    ensures { result ≡ marks_in marks.now call }
{
    marks.get(call).copied().unwrap_or(CallMarks::NONE)
}

/// Keeps what an entry says of its call.
fn hear(marks: &mut RisingMap<CallMarks>, entry: Entry) -> Result<(), AllocError>
    ensures { OnOk result ((h : List EntryData) → HaveMarks marks.old h
        → HaveMarks marks.new (entry_data entry ∷ h)) }
{
    if let Op::Credit { .. } = entry.op {
        return Ok(());
    }
    let call = entry.op.call();
    let after = marks_of(marks, call).after(entry);
    marks.insert(call, after)
}
