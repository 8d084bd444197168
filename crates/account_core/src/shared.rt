//! What every form of a shared account promises.

use crate::{AccountFault, Book, CloseFault, Gate, Op, Reply};
use price_core::MAX_MONEY;
use std::alloc::Global;
use std::sync::Wait;

/// An account that is asked from several seats, each in a thread of its own.
///
/// A form of it promises what each call comes to for the seat that makes it: a reply of a kind that
/// the operation has, which is entered as the last of the seat's own entries, or a fault and no
/// entry.
/// When it is closed with a book, the history is legal, that is each reply was the one right answer
/// in its place, and it has each seat's own entries, in order, and nothing else.
///
/// It can't promise, before it is closed, where in the history an entry is, nor, where others
/// are asking too, that `NotOpen`, `CallUsed` or `HistoryFull` was right; and nothing of who comes
/// first, nor that a call returns.
///
/// It also says which refusals a seat knows of (`was`), and which a book shows later (`stood`). A
/// refusal is the account as it was, what was asked of it, and the fault; it comes with what the
/// seat's own entries were then. A fault but `GateClosed` comes with such a refusal.
///
/// And it says that a call led from one state of a seat to the next (`calls`). Nothing but a call
/// shows this, or a refusal: code that is generic over the form can't claim an ask that wasn't put,
/// not even that memory ran out there, nor leave one out.
///
/// What a form says of a seat is `reads`: the key of its account, its number and its own entries.
/// A seat is of the account whose key it has: the account's number, or whatever else a form says
/// its seats by.
pub trait Shared: Sync + Drop {
    ghost use Rattle.std.specs.Prelude.{◌≡◌, ◌≤◌, ◌↔◌, ◌⊎◌, ◌++◌, ◌∷◌, ℕ, List, [], true, false, Result, map, reverse, All, MatchResult, IfOk, IfErr};
    ghost use Rattle.std.specs.Coded.{Coded};
    ghost use Rattle.account_core.specs.Asked.{Asked, call_of};
    ghost use Rattle.account_core.specs.Entries.{EntryData, asked_of};
    ghost use Rattle.account_core.specs.Ledger.{entry_by};
    ghost use Rattle.account_core.specs.Places.{IsOwed};
    ghost use Rattle.account_core.specs.declared.entry.Reply.{Reply};
    ghost use Rattle.account_core.specs.declared.fault.AccountFault.{AccountFault};
    ghost use Rattle.account_core.specs.declared.fault.AccountFault.TheVariants as out;
    ghost use Rattle.account_core.specs.Closed.{Closed, IsBookOf};
    ghost use Rattle.account_core.specs.Kinds.{IsReplyTo, IsReturn};
    ghost use Rattle.account_core.specs.Refusals.{IsAlone, IsRefusedAt, Refusal};
    ghost use Rattle.account_core.specs.Seats.{Reads, are_all};
    ghost use Rattle.account_core.specs.Terms.{Terms};
    ghost use Rattle.account_core.specs.declared.close_fault.CloseFault.TheVariants as close;

    /// A seat of the account.
    type Seat: Send + Drop;

    ghost Key: { Type 0 };

    ghost key_code: { Coded Key };

    ghost key: { Self → Key };

    ghost terms: { Self → Terms };

    ghost reads: { Reads Key Self.Seat };

    ghost was: { Self.Seat → List EntryData → Refusal → Type 0 };

    ghost calls: { Self.Seat → Asked → Result Reply AccountFault → Self.Seat → Type 0 };

    ghost stood: { Closed → ℕ → List EntryData → Refusal → Type 0 };

    /// An account with this number, an opening credit of 0 to `MAX_MONEY`, a last moment, if it has
    /// one, an empty history and the number of entries that this may grow to; and its seats, 1 to
    /// 16 of them, numbered from 0, without entries. A fault is `OutOfMemory`.
    fn new(
        alloc: Global,
        number: u32,
        opening: u64,
        until: Option<u64>,
        limit: u32,
        seats: u32,
    ) -> Result<(Self, Vec<Self::Seat>), AccountFault>
        requires opening { opening ≤ MAX_MONEY }
        requires some_seats { 1 ≤ seats }
        requires few_seats { seats ≤ 16 }
        ensures terms { IfOk result (λ made. terms made.0 ≡ record {
          number = number;
          opening = opening;
          until = until;
          limit = limit;
          seats = seats;
        }) }
        ensures keys { IfOk result (λ made.
            All (λ seat. reads.key seat ≡ key made.0) made.1.items) }
        ensures numbers { IfOk result (λ made.
            are_all seats (map reads.number made.1.items) ≡ true) }
        ensures empty { IfOk result (λ made. All (λ seat. reads.mine seat ≡ []) made.1.items) }
        ensures refused { IfErr result (λ fault. fault ≡ out.OutOfMemory) };

    /// Asks the account from one of its seats, once it is this call's turn. A fault makes no entry.
    /// `GateClosed` comes first, where the gate, asked while the account is held, answers false;
    /// then the faults of `Account::apply`, for an account that the seat then knows. What the seat
    /// knew it still knows.
    ///
    /// Where a call is the seat's alone, the gate alone refuses what the call is owed by the seat's
    /// own entries: its Return, and its first Settle since its last grant. A Return of a call that
    /// these show granted and not returned is refused by nothing but `NotOpen` and `GateClosed`.
    fn call<R: Wait, G: Gate>(
        &self,
        rt: &R,
        seat: &mut Self::Seat,
        op: Op,
        gate: &G,
    ) -> Result<Reply, AccountFault>
        requires { reads.key seat.old ≡ key self.now }
        ensures same_key { reads.key seat.new ≡ reads.key seat.old }
        ensures same_number { reads.number seat.new ≡ reads.number seat.old }
        ensures mine { MatchResult result
            (λ reply. reads.mine seat.new
            ≡ reads.mine seat.old ++ entry_by (reads.number seat.old) (asked_of op) reply ∷ [])
            (λ _. reads.mine seat.new ≡ reads.mine seat.old) }
        ensures kind { IfOk result (λ reply. IsReplyTo (asked_of op) reply) }
        ensures called { calls seat.old (asked_of op) result seat.new }
        ensures refused { IfErr result (λ fault. (fault ≡ out.GateClosed)
            ⊎ IsRefusedAt (was seat.new) (reads.mine seat.old) (asked_of op) fault) }
        ensures was { (mine : List EntryData) (refusal : Refusal)
            → was seat.old mine refusal → was seat.new mine refusal }
        ensures owed { IsAlone (was seat.new) (call_of (asked_of op))
            → IsOwed (reverse (reads.mine seat.old)) (asked_of op)
            → IfErr result (λ fault. fault ≡ out.GateClosed) }
        ensures gate { result ≡ Err out.GateClosed → G.may_shut }
        ensures returning { IsReturn (asked_of op)
            → IsOwed (reverse (reads.mine seat.old)) (asked_of op)
            → IfErr result (λ fault. (fault ≡ out.NotOpen) ⊎ (fault ≡ out.GateClosed)) };

    /// Ends the sharing: the account's book, where all of its seats are handed in, in the order of
    /// their numbers. The book shows all that a seat knew of the account.
    fn close(self, seats: Vec<Self::Seat>) -> Result<Book, CloseFault>
        requires { All (λ seat. reads.key seat ≡ key self) seats.items }
        ensures book { IfOk result (λ book.
            IsBookOf (terms self) (map reads.mine seats.items) book) }
        ensures was { IfOk result (λ book. All
            (λ seat. (mine : List EntryData) (refusal : Refusal) → was seat mine refusal
            → stood book (reads.number seat) mine refusal) seats.items) }
        ensures seats { (result ≡ Err close.Seats)
            ↔ (are_all (terms self).seats (map reads.number seats.items) ≡ false) };
}
