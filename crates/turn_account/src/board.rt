//! The board of a turn account: its words, the slot that the account lies in, and the rule that
//! holds of them between any two steps.

ghost use Rattle.std.specs.Prelude.{◌≡◌, ◌≤◌, ◌+◌, ◌++◌, ◌∷◌, [], None, length, IfOk};
ghost use Rattle.turn_account.specs.Ended.{IsClosedAs};
ghost use Rattle.turn_account.specs.Plays.{appended, compared, issued, handed, looked};
ghost use Rattle.turn_account.specs.Views.{hearing, next_seat, note_of, one_seat_more, spent_note, first_view, taking_in};
ghost use Rattle.turn_account.specs.declared.board.Stage.TheVariants.{Idles};
ghost use Rattle.turn_account.specs.Boards.{IsAt};
ghost use Rattle.account_core.specs.Asked.{Credits};
ghost use Rattle.account_core.specs.Entries.{EntryData};
ghost use Rattle.account_core.specs.declared.entry.Reply.TheVariants as reply;

use account_core::Account;
use atomic_table::{Join, Play, Refused, Split, TableRule};
use price_core::MAX_MONEY;
use std::alloc::{AllocError, Global};
use std::collections::LinkedList;
use std::marker::{Brand, PhantomData};

/// The word that holds the ticket that is issued next.
pub(crate) const TICKET: usize = 0;

/// The word that holds the ticket that is served.
pub(crate) const SERVING: usize = 1;

/// The word that holds how many entries there are.
pub(crate) const COUNT: usize = 2;

/// The slot of the account.
pub(crate) const SLOT: usize = 0;

/// What an account is opened with.
#[derive(Clone, Copy)]
pub struct Start {
    /// The credit, 0 to `MAX_MONEY`.
    pub opening: u64,
    /// Its last moment, if it has one, in units of 100 ms.
    pub until: Option<u64>,
    /// How many entries it may have.
    pub limit: u32,
    /// How many seats it has, 1 to 16.
    pub seats: u32,
}

/// What a chair at the board is doing.
pub enum Stage {
    /// It is a note of what a seat has seen, and no seat.
    Notes,
    /// It asks for nothing.
    Idles,
    /// It has a ticket, and waits for it to be served.
    Waits(u64),
    /// Its ticket is served: it has the turn.
    Serves(u64),
}

/// What a chair at the board knows. No value of it is made.
pub struct View {
    /// What the chair is doing.
    pub stage: Stage,
    /// The number of the seat.
    pub number: u64,
    /// How many seats were made, as the first seat knows.
    pub made: u64,
    /// The account as it was last seen.
    pub seen: Account,
    /// The account as a note that was heard has seen it.
    pub heard: Account,
    /// The account as the seats that it has taken in have last seen it: seat 0, seat 1 and so on,
    /// which have ended.
    pub ended: LinkedList<Account>,
}

/// The rule of the board.
pub struct Turns;

impl TableRule<Option<Account>, View, Start> for Turns {
    ghost use Rattle.turn_account.specs.Turns.{Kept};
    ghost use Rattle.turn_account.specs.Views.{first_view};

    ghost holds = { Kept };

    ghost first = { λ start. first_view start.opening start.until start.limit };
}

/// The words, and the slot, of a turn account.
pub type Board = atomic_table::Table<Option<Account>, View, Start, Turns, Global>;

/// A place at the board: it makes the steps, and takes no memory.
pub type Chair = atomic_table::Seat<Option<Account>, View>;

/// A ticket is issued.
pub(crate) struct Draw;

impl Play<Option<Account>, View> for Draw {
    ghost then = { issued };
}

/// The ticket that is served is looked at.
pub(crate) struct Look;

impl Play<Option<Account>, View> for Look {
    ghost then = { looked };
}

/// The entry that is counted.
pub(crate) trait Appended {
    ghost entry: { EntryData };
}

impl Appended for Brand {
    ghost entry = { record {
      seat = 0;
      asked = Credits 0 None;
      reply = reply.Credited 0;
    } };
}

/// An entry is counted.
pub(crate) struct Append<E> {
    entry: PhantomData<E>,
}

impl<E: Appended> Play<Option<Account>, View> for Append<E> {
    ghost then = { appended E.entry };
}

/// The turn is passed on.
pub(crate) struct HandOn;

impl Play<Option<Account>, View> for HandOn {
    ghost then = { handed };
}

/// What was heard is compared with what was seen.
pub(crate) struct Compare;

impl Play<Option<Account>, View> for Compare {
    ghost then = { compared };
}

/// The first seat makes the next one.
pub(crate) struct Number;

impl Split<View> for Number {
    ghost left = { one_seat_more };

    ghost right = { next_seat };
}

/// A seat notes what it has seen.
pub(crate) struct TakeNote;

impl Split<View> for TakeNote {
    ghost left = { λ view. view };

    ghost right = { note_of };
}

/// A seat hears a note.
pub(crate) struct Hear;

impl Join<View> for Hear {
    ghost both = { hearing };

    ghost spent = { spent_note };
}

/// A seat takes in the next one, which has ended.
pub(crate) struct TakeIn;

impl Join<View> for TakeIn {
    ghost both = { taking_in };

    ghost spent = { spent_note };
}

/// A board with a new account in its slot, and its first chair.
pub fn lay_board(alloc: Global, start: Start) -> Result<(Board, Chair), AllocError>
    requires opening { start.opening ≤ MAX_MONEY }
    requires some_seats { 1 ≤ start.seats }
    requires few_seats { start.seats ≤ 16 }
    ensures words { IfOk result (λ made. made.0.shared.table_id.words ≡ 3) }
    ensures slots { IfOk result (λ made. made.0.shared.table_id.slots ≡ 1) }
    ensures key { IfOk result (λ made. made.0.shared.key ≡ start) }
    ensures table { IfOk result (λ made. made.1.table_id ≡ made.0.shared.table_id) }
    ensures first { IfOk result (λ made. made.1.me
        ≡ (first_view start.opening start.until start.limit, [])) }
{
    let mut slots = Vec::with_capacity(alloc, 1)?;
    let account = Account::new(alloc, start.opening, start.until, start.limit);
    slots.push_reserved(Some(account));
    match Board::new(alloc, &[0, 0, 0], slots, &start) {
        Ok(made) => Ok(made),
        Err(Refused { slots: _ }) => Err(AllocError),
    }
}

/// The account that a board has in its slot once all seats but the last have ended.
pub(crate) fn clear_board(board: Board, chair: Chair) -> Account
    requires at { IsAt board.shared.table_id chair.table_id }
    requires slots { board.shared.table_id.slots ≡ 1 }
    requires idle { chair.me.0.stage ≡ Idles }
    requires number { chair.me.0.number ≡ length chair.me.0.ended }
    requires last { length chair.me.0.ended + 1 ≡ board.shared.key.seats }
    ensures { IsClosedAs board.shared.key (chair.me.0.ended ++ chair.me.0.seen ∷ []) result }
{
    let mut closed = board.close_with(chair);
    let account = closed.take(SLOT);
    closed.free();
    match account {
        Some(account) => account,
        None => unreachable!(),
    }
}
