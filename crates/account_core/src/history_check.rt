//! Whether a history that is given entry by entry is legal.

ghost use Rattle.std.specs.Prelude.{◌≡◌, ◌≤◌, ◌∷◌, [], None, Ok, true, false, map, ℕ, List, Option, IfOk, IfSome, OnErr, OnOk};
ghost use Rattle.std.specs.Bool.{Decides};
ghost use Rattle.account_core.specs.Answers.{IsAnswered, IsLegal, IsLegalPast};
ghost use Rattle.account_core.specs.Entries.{entry_data, EntryData, asked_of};
ghost use Rattle.account_core.specs.Asked.{call_of};
ghost use Rattle.account_core.specs.Checked.{HasOpening, IsCheckOf, SumsUp};
ghost use Rattle.account_core.specs.Known.{known, nothing_known};
ghost use Rattle.account_core.specs.Wrong.{IsWrong};

use crate::tally::{Response, Tally};
use crate::{Account, AccountFault, AccountSum, CallSum, Entry, Reply};
use price_core::MAX_MONEY;
use std::alloc::{AllocError, Global};

impl Account {
    /// Whether a list of entries, oldest first, is a legal history of an opening credit of 0 to
    /// `MAX_MONEY` and a last moment, if there is one: each operation was admissible in its place,
    /// and its reply is the answer of an account there. The seats and the length of the list aren't
    /// judged. The only error is out of memory: some is taken for each call that is new.
    pub fn check(
        alloc: Global,
        opening: u64,
        until: Option<u64>,
        entries: &[Entry],
    ) -> Result<bool, AllocError>
        requires { opening ≤ MAX_MONEY }
        ensures legal { result ≡ Ok true → IsLegal opening until (map entry_data entries.now) }
        ensures illegal { result ≡ Ok false → IsLegal opening until (map entry_data entries.now)
            → ⊥ }
    {
        let mut check = HistoryCheck::new(alloc, opening, until);
        for entry in entries {
            check.hear(*entry)?;
        }
        Ok(check.is_legal())
    }
}

/// The check of a history that is given entry by entry, oldest first. The entries aren't kept, but
/// what they come to while they are legal.
#[derive(Drop)]
pub struct HistoryCheck {
    opening: u64,
    /// How many entries there were; `u64::MAX` where they are more.
    entries: u64,
    heard: Heard,
}

/// What a check has heard. A book may have hundreds of thousands of accounts without entries, so a
/// tally lies in memory of its own, from the first entry on.
#[derive(Drop)]
enum Heard {
    /// No entry yet, of an account with this last moment.
    Nothing { alloc: Global, until: Option<u64> },
    /// A legal history.
    Legal(Box<Tally>),
    /// A history that isn't legal, and never will be.
    Illegal,
}

impl HistoryCheck {
    /// The check of the empty history of an account with an opening credit of 0 to `MAX_MONEY` and
    /// a last moment, if it has one. It takes no memory yet.
    pub fn new(alloc: Global, opening: u64, until: Option<u64>) -> HistoryCheck
        requires { opening ≤ MAX_MONEY }
        ensures { IsCheckOf opening until [] result }
    {
        HistoryCheck {
            opening,
            entries: 0,
            heard: Heard::Nothing { alloc, until },
        }
    }

    /// Takes one entry more, from any seat. Where it is the first whose reply isn't what an account
    /// answers, this gives what one answers: `Ok` with its reply, or `Err` with the fault that
    /// refuses the operation.
    ///
    /// The only error is out of memory: some is taken for the first entry and for a call that is
    /// new; the check is then still that of the entries before.
    #[inline(always)]
    pub fn hear(&mut self, entry: Entry) -> Result<Option<Result<Reply, AccountFault>>, AllocError>
        requires { (opening : ℕ) × (until : Option ℕ) × (h : List EntryData)
            × IsCheckOf opening until h self.old }
        ensures heard { OnOk result ((opening : ℕ) (until : Option ℕ) (h : List EntryData) →
            IsCheckOf opening until h self.old
            → IsCheckOf opening until (entry_data entry ∷ h) self.new) }
        ensures right { IfOk result (λ wrong. wrong ≡ None →
            (opening : ℕ) (until : Option ℕ) (h : List EntryData) →
            IsCheckOf opening until h self.old → IsLegalPast opening until h →
            IsAnswered opening until h (entry_data entry)) }
        ensures wrong { IfOk result (λ wrong. IfSome wrong (λ response.
            (opening : ℕ) (until : Option ℕ) (h : List EntryData) →
            IsCheckOf opening until h self.old →
            IsLegalPast opening until h × IsWrong opening until h (entry_data entry) response)) }
        ensures kept { OnErr result ((opening : ℕ) (until : Option ℕ) (h : List EntryData) →
            IsCheckOf opening until h self.old → IsCheckOf opening until h self.new) }
        ensures fresh { OnErr result ((opening : ℕ) (until : Option ℕ) (h : List EntryData) →
            IsCheckOf opening until h self.old → known (call_of (asked_of entry.op)) h
            ≡ nothing_known) }
    {
        self.begin()?;
        let Heard::Legal(tally) = &mut self.heard else {
            self.entries = self.entries.saturating_add(1);
            return Ok(None);
        };
        let wrong = tally.hear(entry)?;
        self.entries = self.entries.saturating_add(1);
        if wrong.is_some() {
            self.heard = Heard::Illegal;
        }
        Ok(wrong)
    }

    /// Whether the entries so far are a legal history.
    pub fn is_legal(&self) -> bool
        ensures { (opening : ℕ) (until : Option ℕ) (h : List EntryData)
            → IsCheckOf opening until h self.now →
            Decides result (IsLegalPast opening until h) }
    {
        !matches!(self.heard, Heard::Illegal)
    }

    /// What the account has come to, where the entries so far are a legal history. The only error
    /// is out of memory.
    pub fn sum(&self, alloc: Global) -> Result<Option<AccountSum>, AllocError>
        ensures { IfOk result (λ sum. (opening : ℕ) (until : Option ℕ) (h : List EntryData)
            → IsCheckOf opening until h self.now → SumsUp opening until h sum) }
    {
        let (available, calls) = match &self.heard {
            Heard::Nothing { .. } => (self.opening, Vec::new(alloc)),
            Heard::Legal(tally) => (tally.available, tally.calls.sums(alloc)?),
            Heard::Illegal => return Ok(None),
        };
        Ok(Some(AccountSum {
            opening: self.opening,
            available,
            entries: self.entries,
            calls,
        }))
    }

    /// Makes the tally where there is none yet.
    fn begin(&mut self) -> Result<(), AllocError>
        requires { (opening : ℕ) × (until : Option ℕ) × (h : List EntryData)
            × IsCheckOf opening until h self.old }
        ensures same { (opening : ℕ) (until : Option ℕ) (h : List EntryData) →
            IsCheckOf opening until h self.old → IsCheckOf opening until h self.new }
        ensures begun { OnOk result (HasOpening self.new) }
        ensures empty { OnErr result ((opening : ℕ) (until : Option ℕ) (h : List EntryData) →
            IsCheckOf opening until h self.old → h ≡ []) }
    {
        if let Heard::Nothing { alloc, until } = self.heard {
            let tally = Tally::new(alloc, self.opening, until);
            self.heard = Heard::Legal(Box::new(alloc, tally)?);
        }
        Ok(())
    }
}
