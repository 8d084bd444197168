//! The account that is handed on by turns.

ghost use Rattle.std.specs.Prelude.{◌≡◌, ◌≤◌, ◌↔◌, ◌⊎◌, ◌++◌, ◌∷◌, List, [], Some, false, map, reverse, All, MatchResult, OnErr, IfOk, IfErr};
ghost use Rattle.account_core.specs.Closed.{IsBookOf};
ghost use Rattle.account_core.specs.Refusals.{Refusal};
ghost use Rattle.account_core.specs.Seats.{are_all};
ghost use Rattle.turn_account.specs.Seen.{IsOpenedAs};
ghost use Rattle.turn_account.specs.Plays.{with_entry};
ghost use Rattle.account_core.specs.Prefixes.{EndsWithEntry, IsPrefix};
ghost use Rattle.turn_account.specs.TurnViews.{IsSameSeat, fresh_turn_seats, own_of, unused};
ghost use Rattle.turn_account.specs.Boards.{IsAt};
ghost use Rattle.turn_account.specs.Views.{IsServing, seeing};
ghost use Rattle.account_core.specs.Answers.{IsLegal};
ghost use Rattle.account_core.specs.Entries.{EntryData, asked_of};
ghost use Rattle.account_core.specs.Ledger.{IsRefusal, entry_by};
ghost use Rattle.account_core.specs.Places.{IsOwed};
ghost use Rattle.account_core.specs.declared.close_fault.CloseFault.TheVariants as close;

use crate::closing::close_board;
use crate::seat::make_seats;
use crate::turn::{append, ask_in_turn, compare_views, hear};
use crate::{Board, Chair, Start, TurnSeat, hand_on, lay_board, take_turn};
use account_core::{AccountFault, Book, CloseFault, Entry, Gate, Op, Reply, Shared};
use price_core::MAX_MONEY;
use std::alloc::Global;
use std::marker::Model;
use std::sync::{Mutex, Wait};

/// An account that its seats hand on by turns: a ticket lock.
///
/// Who asks takes the door, takes a ticket and looks until it is served. Then the account is its
/// own: it asks, counts the entry and serves the next ticket. So what a seat has seen begins what
/// it sees next, at each step, and no comparison is needed to know it.
#[derive(Drop)]
pub struct TurnAccount {
    number: u32,
    seats: u32,
    board: Board,
    /// Lets one thread in at a time. It is held for the whole turn, so no ticket waits behind it.
    door: Mutex<()>,
}

impl Model for TurnAccount {
    ghost use Rattle.turn_account.specs.TurnViews.{TurnView};
    ghost use Rattle.turn_account.specs.Sitting.{IsBoard};

    ghost Value = { TurnView };

    ghost view = { λ a. record {
      table = a.board.shared.table_id;
      terms = record {
        number = a.number;
        opening = a.board.shared.key.opening;
        until = a.board.shared.key.until;
        limit = a.board.shared.key.limit;
        seats = a.seats;
      };
    } };

    ghost invariant = { λ a. IsBoard a.board.shared.table_id a.board.shared.key a.seats };
}

impl TurnAccount {
    /// An account with this number, an opening credit of 0 to `MAX_MONEY`, a last moment, if it has
    /// one, an empty history and the number of entries that this may grow to; and its seats, 1 to
    /// 16 of them, numbered from 0, which have seen nothing.
    ///
    /// A fault is `OutOfMemory`.
    pub fn new(
        alloc: Global,
        number: u32,
        opening: u64,
        until: Option<u64>,
        limit: u32,
        seats: u32,
    ) -> Result<(TurnAccount, Vec<TurnSeat>), AccountFault>
        requires opening { opening ≤ MAX_MONEY }
        requires some_seats { 1 ≤ seats }
        requires few_seats { seats ≤ 16 }
        ensures terms { IfOk result (λ made. made.0.terms ≡ record {
          number = number;
          opening = opening;
          until = until;
          limit = limit;
          seats = seats;
        }) }
        ensures seats { IfOk result (λ made. made.1.items
            ≡ fresh_turn_seats made.0.table (unused made.0.terms) seats) }
        ensures refused { IfErr result (λ fault. fault ≡ AccountFault.OutOfMemory) }
    {
        let start = Start {
            opening,
            until,
            limit,
            seats,
        };
        let (board, first) = lay_board(alloc, start)?;
        let made = make_seats(alloc, &board, first, seats)?;
        let account = TurnAccount {
            number,
            seats,
            board,
            door: Mutex::new(()),
        };
        Ok((account, made))
    }

    /// Asks the account from one of its seats, once it is this call's turn.
    ///
    /// The seat then has seen a legal history that begins with all that it had seen. With a reply,
    /// that history ends with the entry of this call, the only new one of the seat. With a fault,
    /// there is no entry: `GateClosed` comes first, where the gate, asked while the account is
    /// held, answers false; then the faults of `Account::apply` for what was seen. A Return of an
    /// open call, and its first Settle since its last grant, have no fault but `GateClosed`.
    pub fn call<R: Wait, G: Gate>(
        &self,
        rt: &R,
        seat: &mut TurnSeat,
        op: Op,
        gate: &G,
    ) -> Result<Reply, AccountFault>
        requires { seat.old.table ≡ self.now.table }
        ensures same { IsSameSeat seat.old seat.new }
        ensures legal { IsLegal seat.new.view.opening seat.new.view.until seat.new.view.history }
        ensures begins { IsPrefix seat.old.view.history seat.new.view.history }
        ensures ends { IfOk result (λ reply. EndsWithEntry seat.old.view.history
            (entry_by seat.old.number (asked_of op) reply) seat.new.view.history) }
        ensures own { MatchResult result
            (λ reply. own_of seat.new
            ≡ own_of seat.old ++ entry_by seat.old.number (asked_of op) reply ∷ [])
            (λ _. own_of seat.new ≡ own_of seat.old) }
        ensures refused { IfErr result (λ fault. (fault ≡ AccountFault.GateClosed)
            ⊎ IsRefusal seat.new.view (asked_of op) fault) }
        ensures gate { result ≡ Err AccountFault.GateClosed → G.may_shut }
        ensures owed { IsOwed (reverse seat.new.view.history) (asked_of op)
            → IfErr result (λ fault. fault ≡ AccountFault.GateClosed) }
    {
        let _door = self.door.lock(rt);
        take_turn(rt, &self.board, &mut seat.chair);
        let result = ask_and_count(
            &self.board,
            &mut seat.chair,
            self.number,
            seat.number,
            op,
            gate,
        );
        hand_on(&self.board, &mut seat.chair);
        result
    }

    /// Two seats meet: the second has then seen the longer of what the two had seen, which begins
    /// with what the other had seen, and the first is unchanged.
    ///
    /// It waits for nobody, takes no memory and always succeeds.
    pub fn meet(&self, first: &mut TurnSeat, second: &mut TurnSeat)
        requires first { first.old.table ≡ self.now.table }
        requires second { second.old.table ≡ self.now.table }
        ensures unchanged { first.new ≡ first.old }
        ensures same { IsSameSeat second.old second.new }
        ensures one { (second.new.view.history ≡ first.old.view.history)
            ⊎ (second.new.view.history ≡ second.old.view.history) }
        ensures begins_first { IsPrefix first.old.view.history second.new.view.history }
        ensures begins_second { IsPrefix second.old.view.history second.new.view.history }
        ensures own { own_of second.new ≡ own_of second.old }
    {
        hear(&self.board, &mut first.chair, &mut second.chair);
        compare_views(&self.board, &mut second.chair);
    }

    /// Ends the sharing: the account's book, where all of its seats are handed in, in the order of
    /// their numbers. Its history begins with all that any of them has seen, and it was opened as
    /// each of them has seen it.
    ///
    /// It takes no memory and compares nothing: the fault is `Seats`.
    pub fn close(self, seats: Vec<TurnSeat>) -> Result<Book, CloseFault>
        requires { All (λ seat. seat.table ≡ self.table) seats.items }
        ensures book { IfOk result (λ book. IsBookOf self.terms (map own_of seats.items) book) }
        ensures seen { IfOk result (λ book.
            All (λ seat. IsPrefix seat.view.history book.history) seats.items) }
        ensures opened { IfOk result (λ book. All (λ seat. IsOpenedAs seat.view book) seats.items) }
        ensures fault { IfErr result (λ fault. fault ≡ close.Seats) }
        ensures seats { (result ≡ Err close.Seats)
            ↔ (are_all self.terms.seats (map (λ seat. seat.number) seats.items) ≡ false) }
    {
        let TurnAccount {
            number,
            seats: count,
            board,
            ..
        } = self;
        close_board(number, count, board, seats)
    }
}

/// Asks the account of a chair that has the turn, where the gate lets it, and counts the entry.
fn ask_and_count<G: Gate>(
    board: &Board,
    chair: &mut Chair,
    account: u32,
    seat: u32,
    op: Op,
    gate: &G,
) -> Result<Reply, AccountFault>
    requires at { IsAt board.now.shared.table_id chair.old.table_id }
    requires serving { IsServing chair.old.me.0.stage }
    requires number { chair.old.me.0.number ≡ seat }
    requires hands { chair.old.me.1 ≡ (0, Some chair.old.me.0.seen) ∷ [] }
    ensures table { chair.new.table_id ≡ chair.old.table_id }
    ensures hands { chair.new.me.1 ≡ (0, Some chair.new.me.0.seen) ∷ [] }
    ensures entered { IfOk result (λ reply. chair.new.me.0 ≡ seeing chair.old.me.0
        (with_entry chair.old.me.0.seen (entry_by seat (asked_of op) reply))) }
    ensures kept { OnErr result (chair.new.me.0 ≡ chair.old.me.0) }
    ensures refused { IfErr result (λ fault. (fault ≡ AccountFault.GateClosed)
        ⊎ IsRefusal chair.old.me.0.seen (asked_of op) fault) }
    ensures gate { result ≡ Err AccountFault.GateClosed → G.may_shut }
    ensures owed { IsOwed (reverse chair.old.me.0.seen.history) (asked_of op)
        → IfErr result (λ fault. fault ≡ AccountFault.GateClosed) }
{
    if !gate.inside(account) {
        return Err(AccountFault::GateClosed);
    }
    let reply = ask_in_turn(board, chair, seat, op)?;
    append(board, chair, &Entry { seat, op, reply });
    Ok(reply)
}

impl Shared for TurnAccount {
    ghost use Rattle.turn_account.specs.Seen.{HasSeen, StoodIn};
    ghost use Rattle.atomic_table.specs.Seated.{TableId, table_id_coded};

    type Seat = TurnSeat;

    ghost Key = { TableId };

    ghost key_code = { table_id_coded };

    ghost key = { λ account. account.table };

    ghost terms = { λ account. account.terms };

    ghost reads = { record {
      key = λ seat. seat.table;
      number = λ seat. seat.number;
      mine = own_of;
    } };

    ghost was = { HasSeen };

    ghost calls = { λ _ _ _ _. Unit {0} };

    ghost stood = { StoodIn };

    fn new(
        alloc: Global,
        number: u32,
        opening: u64,
        until: Option<u64>,
        limit: u32,
        seats: u32,
    ) -> Result<(TurnAccount, Vec<TurnSeat>), AccountFault> {
        TurnAccount::new(alloc, number, opening, until, limit, seats)
    }

    fn call<R: Wait, G: Gate>(
        &self,
        rt: &R,
        seat: &mut TurnSeat,
        op: Op,
        gate: &G,
    ) -> Result<Reply, AccountFault> {
        self.call(rt, seat, op, gate)
    }

    fn close(self, seats: Vec<TurnSeat>) -> Result<Book, CloseFault>
        requires { All (λ seat. seat.table ≡ self.table) seats.items }
        ensures book { IfOk result (λ book. IsBookOf self.terms (map own_of seats.items) book) }
        ensures was { IfOk result (λ book. All
            (λ seat. (mine : List EntryData) (refusal : Refusal) → HasSeen seat mine refusal
            → StoodIn book seat.number mine refusal) seats.items) }
        ensures seats { (result ≡ Err close.Seats)
            ↔ (are_all self.terms.seats (map (λ seat. seat.number) seats.items) ≡ false) }
    {
        self.close(seats)
    }
}
