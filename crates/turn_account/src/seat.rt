//! The seats of a turn account, each with a chair at its board.

ghost use Rattle.std.specs.Prelude.{◌≡◌, ◌≤◌, [], IfOk};
ghost use Rattle.turn_account.specs.TurnViews.{fresh_turn_seats};
ghost use Rattle.turn_account.specs.Boards.{IsAt};
ghost use Rattle.turn_account.specs.Views.{first_view};
ghost use Rattle.turn_account.specs.declared.board.Stage.TheVariants.{Idles};

use crate::{Board, Chair, next_chair};
use std::alloc::{AllocError, Global};
use std::marker::Model;

/// A seat of an account that is handed on by turns: it asks under its number, which is all that it
/// keeps.
///
/// Contracts know its view: the account as the seat has last seen it. A view is a legal history,
/// and each call, and each seat that it meets, only makes it longer. The seat's own entries are
/// those of its number there.
#[derive(Drop)]
pub struct TurnSeat {
    pub(crate) number: u32,
    pub(crate) chair: Chair,
}

impl Model for TurnSeat {
    ghost use Rattle.turn_account.specs.TurnViews.{TurnSeatView};
    ghost use Rattle.turn_account.specs.Sitting.{IsSitting};

    ghost Value = { TurnSeatView };

    ghost view = { λ s. record {
      table = s.chair.table_id;
      number = s.number;
      view = s.chair.me.0.seen;
    } };

    ghost invariant = { λ s. IsSitting s.chair.me s.number };
}

impl TurnSeat {
    /// A seat with this number, which has seen nothing.
    pub(crate) fn new(chair: Chair, number: u32) -> TurnSeat
        requires idle { chair.me.0.stage ≡ Idles }
        requires hands { chair.me.1 ≡ [] }
        requires number { chair.me.0.number ≡ number }
        requires ended { chair.me.0.ended ≡ [] }
        requires empty { chair.me.0.seen.history ≡ [] }
        ensures { result ≡ record {
          table = chair.table_id;
          number = number;
          view = chair.me.0.seen;
        } }
    {
        TurnSeat { number, chair }
    }

    /// Its own number.
    pub fn number(&self) -> u32
        ensures { result ≡ self.now.number }
    {
        self.number
    }
}

/// The seats at a board, numbered from 0. The first chair makes the others.
pub(crate) fn make_seats(
    alloc: Global,
    board: &Board,
    mut first: Chair,
    count: u32,
) -> Result<Vec<TurnSeat>, AllocError>
    requires at { IsAt board.now.shared.table_id first.table_id }
    requires first { first.me ≡ (
      first_view first.me.0.seen.opening
          first.me.0.seen.until first.me.0.seen.limit,
      [],
    ) }
    requires seats { board.now.shared.key.seats ≡ count }
    requires some_seats { 1 ≤ count }
    ensures { IfOk result (λ made. made.items
        ≡ fresh_turn_seats board.now.shared.table_id first.me.0.seen count) }
{
    let mut made = Vec::with_capacity(alloc, count as usize)?;
    for number in 1..count {
        let chair = next_chair(board, &mut first);
        made.push(TurnSeat::new(chair, number))?;
    }
    made.insert(0, TurnSeat::new(first, 0))?;
    Ok(made)
}
