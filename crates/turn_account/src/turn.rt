//! A turn of an account: it is waited for, and the account is asked where it lies.

ghost use Rattle.std.specs.Prelude.{◌≡◌, ◌≢◌, ◌%◌, ◌^◌, ◌∷◌, ◌<◌, [], None, Some, length, reverse, IsOk, OnOk, OnErr, IfOk, IfErr};
ghost use Rattle.account_core.specs.Answers.{IsLegal};
ghost use Rattle.turn_account.specs.Plays.{HasCome, IsLater, with_entry, HasMet};
ghost use Rattle.turn_account.specs.Boards.{IsAt};
ghost use Rattle.turn_account.specs.Views.{IsServing, its_ticket, at_stage, hearing, next_seat, one_seat_more, seeing, taking_in};
ghost use Rattle.turn_account.specs.declared.board.Stage.TheVariants.{Idles, Waits};
ghost use Rattle.account_core.specs.Entries.{asked_of, entry_data};
ghost use Rattle.account_core.specs.Ledger.{IsRefusal, answer_of, entry_by, refusal_of};
ghost use Rattle.account_core.specs.Places.{IsOwed};

use crate::board::{
    Append, Appended, Board, COUNT, Chair, Compare, Draw, HandOn, Hear, Look, Number, SERVING,
    SLOT, TICKET, TakeIn, TakeNote,
};
use account_core::{AccountFault, Entry, Op, Reply, places_go_with_entries};
use std::marker::Brand;
use std::sync::Wait;
use std::thread::yield_now;

/// Draws a ticket, and looks until it is served: the account in the slot is the chair's then.
/// Behind the door of a turn account the first look finds it so.
pub fn take_turn<R: Wait>(rt: &R, board: &Board, chair: &mut Chair)
    requires at { IsAt board.now.shared.table_id chair.old.table_id }
    requires idle { chair.old.me.0.stage ≡ Idles }
    requires hands { chair.old.me.1 ≡ [] }
    ensures table { chair.new.table_id ≡ chair.old.table_id }
    ensures later { IsLater chair.old.me.0 chair.new.me.0 }
    ensures serving { IsServing chair.new.me.0.stage }
    ensures hands { chair.new.me.1 ≡ (0, Some chair.new.me.0.seen) ∷ [] }
{
    let ticket = draw(board, chair);
    for _ in rt.forever() {
        if look(board, chair) == ticket {
            return;
        }
        yield_now();
    }
    unreachable!()
}

/// Asks the account of a chair that has the turn, where it lies.
pub(crate) fn ask_in_turn(
    board: &Board,
    chair: &mut Chair,
    seat: u32,
    op: Op,
) -> Result<Reply, AccountFault>
    requires table { chair.old.table_id ≡ board.now.shared.table_id }
    requires hands { chair.old.me.1 ≡ (0, Some chair.old.me.0.seen) ∷ [] }
    ensures table { chair.new.table_id ≡ chair.old.table_id }
    ensures view { chair.new.me.0 ≡ chair.old.me.0 }
    ensures answered { IfOk result (λ reply. reply ≡ answer_of chair.old.me.0.seen (asked_of op)) }
    ensures entered { IfOk result (λ reply. chair.new.me.1 ≡ (
      0,
      Some (with_entry chair.old.me.0.seen (entry_by seat (asked_of op) reply)),
    ) ∷ []) }
    ensures admitted { OnOk result (refusal_of chair.old.me.0.seen (asked_of op) ≡ None) }
    ensures kept { OnErr result (chair.new.me ≡ chair.old.me) }
    ensures refused { IfErr result (λ fault. IsRefusal chair.old.me.0.seen (asked_of op) fault) }
    ensures ungated { result ≢ Err AccountFault.GateClosed }
    ensures owed { IsOwed (reverse chair.old.me.0.seen.history) (asked_of op)
        → IsOk result }
{
    match chair.slot_mut(&board.shared, SLOT) {
        Some(account) => account.apply(seat, op),
        None => unreachable!(),
    }
}

/// Makes the chair of the next seat, from that of the first.
pub fn next_chair(board: &Board, first: &mut Chair) -> Chair
    requires table { first.old.table_id ≡ board.now.shared.table_id }
    requires words { 0 < board.now.shared.table_id.words }
    requires idle { first.old.me.0.stage ≡ Idles }
    requires number { first.old.me.0.number ≡ 0 }
    requires few { first.old.me.0.made < board.now.shared.key.seats }
    ensures tables { (first.new.table_id ≡ first.old.table_id)
        × (result.table_id ≡ first.old.table_id) }
    ensures first { first.new.me ≡ (one_seat_more first.old.me.0, first.old.me.1) }
    ensures next { result.me ≡ (next_seat first.old.me.0, []) }
{
    board.shared.split_seat::<Number>(first)
}

/// Draws a ticket.
fn draw(board: &Board, chair: &mut Chair) -> u64
    requires at { IsAt board.now.shared.table_id chair.old.table_id }
    requires idle { chair.old.me.0.stage ≡ Idles }
    ensures table { chair.new.table_id ≡ chair.old.table_id }
    ensures ticket { result ≡ its_ticket chair.new.me.0.stage % 2 ^ 64 }
    ensures waits { chair.new.me.0 ≡ at_stage chair.old.me.0
        (Waits (its_ticket chair.new.me.0.stage)) }
    ensures hands { chair.new.me.1 ≡ chair.old.me.1 }
{
    board.shared.fetch_add::<Draw>(chair, TICKET, 1)
}

/// Looks which ticket is served. Where it is the chair's own, the account passes to the chair.
fn look(board: &Board, chair: &mut Chair) -> u64
    requires at { IsAt board.now.shared.table_id chair.old.table_id }
    requires waits { chair.old.me.0.stage ≡ Waits (its_ticket chair.old.me.0.stage) }
    ensures table { chair.new.table_id ≡ chair.old.table_id }
    ensures come { result ≡ its_ticket chair.old.me.0.stage % 2 ^ 64
        → HasCome chair.old.me chair.new.me }
    ensures waits { result ≢ its_ticket chair.old.me.0.stage % 2 ^ 64 → chair.new.me
        ≡ chair.old.me }
{
    board.shared.load::<Look>(chair, SERVING)
}

/// Counts an entry.
pub(crate) fn append(board: &Board, chair: &mut Chair, entry: &Entry)
    requires at { IsAt board.now.shared.table_id chair.old.table_id }
    requires serving { IsServing chair.old.me.0.stage }
    requires seat { entry.now.seat ≡ chair.old.me.0.number }
    requires admitted { refusal_of chair.old.me.0.seen (entry_data entry.now).asked ≡ None }
    requires answered { entry.now.reply ≡ answer_of chair.old.me.0.seen
        (entry_data entry.now).asked }
    ensures table { chair.new.table_id ≡ chair.old.table_id }
    ensures seen { chair.new.me.0
        ≡ seeing chair.old.me.0 (with_entry chair.old.me.0.seen (entry_data entry.now)) }
    ensures hands { chair.new.me.1 ≡ chair.old.me.1 }
{
    append_as::<Brand>(board, chair, entry);
}

/// The same, of an entry that the proof can name.
fn append_as<E: Appended>(board: &Board, chair: &mut Chair, entry: &Entry)
    requires entry { E.entry ≡ entry_data entry.now }
    requires at { IsAt board.now.shared.table_id chair.old.table_id }
    requires serving { IsServing chair.old.me.0.stage }
    requires seat { entry.now.seat ≡ chair.old.me.0.number }
    requires admitted { refusal_of chair.old.me.0.seen (entry_data entry.now).asked ≡ None }
    requires answered { entry.now.reply ≡ answer_of chair.old.me.0.seen
        (entry_data entry.now).asked }
    ensures table { chair.new.table_id ≡ chair.old.table_id }
    ensures seen { chair.new.me.0
        ≡ seeing chair.old.me.0 (with_entry chair.old.me.0.seen (entry_data entry.now)) }
    ensures hands { chair.new.me.1 ≡ chair.old.me.1 }
{
    places_go_with_entries();
    let _ = entry;
    board.shared.fetch_add::<Append<E>>(chair, COUNT, 1);
}

/// Passes the turn on, with the account in the slot.
pub fn hand_on(board: &Board, chair: &mut Chair)
    requires at { IsAt board.now.shared.table_id chair.old.table_id }
    requires serving { IsServing chair.old.me.0.stage }
    requires hands { chair.old.me.1 ≡ (0, Some chair.old.me.0.seen) ∷ [] }
    ensures table { chair.new.table_id ≡ chair.old.table_id }
    ensures idle { chair.new.me ≡ (at_stage chair.old.me.0 Idles, []) }
    ensures legal { IsLegal chair.old.me.0.seen.opening chair.old.me.0.seen.until
        chair.old.me.0.seen.history }
{
    board.shared.fetch_add::<HandOn>(chair, SERVING, 1);
}

/// Makes a note of what the first chair has seen, and the second chair hears it.
pub(crate) fn hear(board: &Board, first: &mut Chair, second: &mut Chair)
    requires first { first.old.table_id ≡ board.now.shared.table_id }
    requires second { second.old.table_id ≡ board.now.shared.table_id }
    requires words { 0 < board.now.shared.table_id.words }
    ensures tables { (first.new.table_id ≡ first.old.table_id)
        × (second.new.table_id ≡ second.old.table_id) }
    ensures first { first.new.me ≡ first.old.me }
    ensures second { second.new.me ≡ (hearing second.old.me.0 first.old.me.0, second.old.me.1) }
{
    let note = board.shared.split_seat::<TakeNote>(first);
    board.shared.join_seat::<Hear>(second, note);
}

/// Compares what a chair has heard with what it has seen: the longer of the two is what it has
/// seen.
pub(crate) fn compare_views(board: &Board, chair: &mut Chair)
    requires at { IsAt board.now.shared.table_id chair.old.table_id }
    requires idle { chair.old.me.0.stage ≡ Idles }
    ensures table { chair.new.table_id ≡ chair.old.table_id }
    ensures met { HasMet chair.old.me.0.seen.history chair.old.me.0.heard.history
        chair.old.me.0 chair.new.me.0 }
    ensures hands { chair.new.me.1 ≡ chair.old.me.1 }
{
    board.shared.load::<Compare>(chair, SERVING);
}

/// Takes in the next seat, which has ended.
pub(crate) fn take_in(board: &Board, chair: &mut Chair, next: Chair)
    requires table { chair.old.table_id ≡ board.now.shared.table_id }
    requires next { next.table_id ≡ board.now.shared.table_id }
    requires words { 0 < board.now.shared.table_id.words }
    requires idle { chair.old.me.0.stage ≡ Idles }
    requires next_idle { next.me.0.stage ≡ Idles }
    requires hands { next.me.1 ≡ [] }
    requires number { next.me.0.number ≡ length chair.old.me.0.ended }
    ensures table { chair.new.table_id ≡ chair.old.table_id }
    ensures taken { chair.new.me ≡ (taking_in chair.old.me.0 next.me.0, chair.old.me.1) }
{
    board.shared.join_seat::<TakeIn>(chair, next);
}
