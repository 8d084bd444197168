//! The close of a turn account.

ghost use Rattle.std.specs.Prelude.{◌≡◌, ◌+◌, ◌↔◌, ◌≤◌, ◌++◌, ◌∷◌, [], true, false, length, map, All, IfOk, IfErr};
ghost use Rattle.account_core.specs.Closed.{IsBookOf};
ghost use Rattle.account_core.specs.Prefixes.{IsPrefix};
ghost use Rattle.account_core.specs.Seats.{are_all, are_numbered};
ghost use Rattle.turn_account.specs.Seen.{IsOpenedAs};
ghost use Rattle.turn_account.specs.Sitting.{IsBoard};
ghost use Rattle.turn_account.specs.Boards.{IsAt};
ghost use Rattle.turn_account.specs.TurnViews.{own_of};
ghost use Rattle.turn_account.specs.declared.board.Stage.TheVariants.{Idles};
ghost use Rattle.account_core.specs.declared.close_fault.CloseFault.TheVariants as close;

use crate::board::clear_board;
use crate::turn::take_in;
use crate::{Board, Chair, TurnSeat};
use account_core::{Book, CloseFault};

/// The book of an account whose seats were all handed in, in order. One takes in the others.
pub(crate) fn close_board(
    number: u32,
    count: u32,
    board: Board,
    seats: Vec<TurnSeat>,
) -> Result<Book, CloseFault>
    requires board { IsBoard board.shared.table_id board.shared.key count }
    requires tables { All (λ seat. seat.table ≡ board.shared.table_id) seats.items }
    ensures book { IfOk result (λ book. IsBookOf record {
      number = number;
      opening = board.shared.key.opening;
      until = board.shared.key.until;
      limit = board.shared.key.limit;
      seats = count;
    } (map own_of seats.items) book) }
    ensures seen { IfOk result (λ book.
        All (λ seat. IsPrefix seat.view.history book.history) seats.items) }
    ensures opened { IfOk result (λ book. All (λ seat. IsOpenedAs seat.view book) seats.items) }
    ensures fault { IfErr result (λ fault. fault ≡ close.Seats) }
    ensures seats { (result ≡ Err close.Seats)
        ↔ (are_all count (map (λ seat. seat.number) seats.items) ≡ false) }
{
    if seats.len() != count as usize || !are_numbered(seats.as_slice()) {
        return Err(CloseFault::Seats);
    }
    let chair = gather(&board, seats);
    Ok(Book::new(number, clear_board(board, chair)))
}

/// Whether the numbers of seats go on from 0 by ones.
fn are_numbered(seats: &[TurnSeat]) -> bool
    ensures { result ≡ are_numbered 0 (map (λ seat. seat.number) seats.now) }
{
    for (at, seat) in seats.iter().enumerate() {
        if seat.number() as usize != at {
            return false;
        }
    }
    true
}

/// The chair of the last seat, which has taken in all others.
fn gather(board: &Board, mut seats: Vec<TurnSeat>) -> Chair
    requires words { board.now.shared.table_id.words ≡ 3 }
    requires tables { All (λ seat. seat.table ≡ board.now.shared.table_id) seats.items }
    requires numbers { are_numbered 0 (map (λ seat. seat.number) seats.items) ≡ true }
    requires some_seats { 1 ≤ length seats.items }
    ensures table { result.table_id ≡ board.now.shared.table_id }
    ensures idle { result.me.0.stage ≡ Idles }
    ensures last { length result.me.0.ended + 1 ≡ length seats.items }
    ensures number { result.me.0.number ≡ length result.me.0.ended }
    ensures taken { result.me.0.ended ++ result.me.0.seen ∷ []
        ≡ map (λ seat. seat.view) seats.items }
{
    let Some(last) = seats.pop() else {
        unreachable!()
    };
    let TurnSeat { mut chair, .. } = last;
    take_in_all(board, &mut chair, seats);
    chair
}

/// Lets a chair take in the seats before its own.
fn take_in_all(board: &Board, chair: &mut Chair, seats: Vec<TurnSeat>)
    requires at { IsAt board.now.shared.table_id chair.old.table_id }
    requires idle { chair.old.me.0.stage ≡ Idles }
    requires ended { chair.old.me.0.ended ≡ [] }
    requires tables { All (λ seat. seat.table ≡ board.now.shared.table_id) seats.items }
    requires numbers { are_numbered 0 (map (λ seat. seat.number) seats.items) ≡ true }
    ensures table { chair.new.table_id ≡ chair.old.table_id }
    ensures taken { chair.new.me.0 ≡ record chair.old.me.0 {
      ended = map (λ seat. seat.view) seats.items;
    } }
{
    for seat in seats {
        let TurnSeat { chair: next, .. } = seat;
        take_in(board, chair, next);
    }
}
