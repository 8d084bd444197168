//! What is known of the calls of a history.

ghost use Rattle.std.specs.Prelude.{◌≡◌, ◌++◌, ℕ, List, OnErr, OnOk, IfOk, option_to_list};
ghost use Rattle.std.specs.BTreeMap.{IsOrdered};
ghost use Rattle.std.specs.Ordering.{nat_cmp};
ghost use Rattle.account_core.specs.Entries.{EntryData};
ghost use Rattle.account_core.specs.Kept.{known_of};
ghost use Rattle.account_core.specs.Sums.{AreSums, sum_of, sums_known};

use crate::call_state::CallState;
use crate::{CallSum, Fate, Listing, RisingMap};
use std::alloc::{AllocError, Global};
use std::collections::BTreeMap;

/// What is known of each call.
#[derive(Drop)]
pub(crate) struct CallStates {
    calls: RisingMap<CallState>,
}

impl CallStates {
    ghost use Rattle.account_core.specs.CallStates.{AreSame, Renews, call_state_of};
    ghost use Rattle.account_core.specs.Kept.{KnowsEach};

    /// Those of no calls.
    pub fn new(alloc: Global) -> CallStates
        ensures { (call : ℕ) → call_state_of result call ≡ CallState.Fresh }
    {
        CallStates {
            calls: RisingMap::new(alloc),
        }
    }

    /// What is known of a call.
    #[inline(always)]
    pub fn state(&self, call: u64) -> CallState
        ensures { result ≡ call_state_of self.now call }
    {
        self.calls.get(call).copied().unwrap_or(CallState::Fresh)
    }

    /// Keeps what is known of a call now. Memory is taken where that was nothing; where it is
    /// nothing still, as after a Credit, nothing is kept.
    #[inline(always)]
    pub fn renew(&mut self, call: u64, state: CallState) -> Result<(), AllocError>
        ensures renewed { OnOk result (Renews self.old self.new call state) }
        ensures kept { OnErr result (AreSame self.old self.new) }
        ensures fresh { OnErr result (call_state_of self.old call ≡ CallState.Fresh) }
    {
        if state.is_fresh() && self.state(call).is_fresh() {
            return Ok(());
        }
        self.calls.insert(call, state)
    }

    /// What the calls that were granted anything come to, by rising number.
    pub fn sums(&self, alloc: Global) -> Result<Vec<CallSum>, AllocError>
        ensures { IfOk result (λ sums. (h : List EntryData) → KnowsEach self.now h →
            AreSums h sums.items) }
    {
        match self.calls.listing() {
            Listing::Rising(calls) => list_sums(alloc, calls),
            Listing::Mixed(calls) => map_sums(alloc, calls),
        }
    }
}

/// What each state of a list comes to, in its order.
fn list_sums(alloc: Global, calls: &[(u64, CallState)]) -> Result<Vec<CallSum>, AllocError>
    ensures { IfOk result (λ sums. sums.items ≡ sums_known calls.now) }
{
    let mut sums = Vec::new(alloc);
    for (call, state) in calls {
        add_sum(&mut sums, *call, state)?;
    }
    Ok(sums)
}

/// What each state of a map comes to, by rising number.
fn map_sums(alloc: Global, calls: &BTreeMap<u64, CallState>) -> Result<Vec<CallSum>, AllocError>
    ensures sums { IfOk result (λ sums. sums.items ≡ sums_known calls.now.entries) }
    ensures ordered { IsOrdered nat_cmp calls.now }
{
    let mut sums = Vec::new(alloc);
    for (call, state) in calls.iter() {
        add_sum(&mut sums, *call, state)?;
    }
    Ok(sums)
}

/// Adds what a call comes to, where it was granted anything.
fn add_sum(sums: &mut Vec<CallSum>, call: u64, state: &CallState) -> Result<(), AllocError>
    ensures { OnOk result (sums.new.items ≡
        sums.old.items ++ option_to_list (sum_of call (known_of state.now))) }
{
    let (held, fate) = match state {
        CallState::Fresh => return Ok(()),
        CallState::Granted(held) | CallState::Reported(held) => (held, Fate::Holding),
        CallState::Over(held) => (held, Fate::Returned),
    };
    sums.push(CallSum {
        call,
        paid: held.paid(),
        fate: if held.forfeited { Fate::Forfeit } else { fate },
    })?;
    Ok(())
}
