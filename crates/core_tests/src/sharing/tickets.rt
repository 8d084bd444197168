//! Turns without a door: two threads wait for each other's tickets.

ghost use Rattle.std.specs.Prelude.{◌≡◌, []};
ghost use Rattle.turn_account.specs.declared.board.Stage.TheVariants.{Idles};

use super::threads::wait_for_two;
use crate::looking::gives;
use std::sync::Wait;
use std::sync::atomic::{AtomicU64, Ordering};
use std::thread;
use std::thread::Threads;
use turn_account::{Board, Chair, Start, hand_on, lay_board, next_chair, take_turn};

/// How many turns each thread takes.
const TURNS: u32 = 200;

/// What two threads share: how many of them have begun, and a number.
#[derive(Drop)]
struct Counts {
    begun: AtomicU64,
    number: AtomicU64,
}

/// Takes turns once both threads have begun, and adds 1 to a number in each. Others are let run
/// between reading it and writing it, so that a turn which isn't alone would be lost.
fn take_turns<R: Wait>(rt: &R, board: &Board, mut chair: Chair, counts: &Counts)
    requires table { chair.table_id ≡ board.now.shared.table_id }
    requires words { board.now.shared.table_id.words ≡ 3 }
    requires idle { chair.me.0.stage ≡ Idles }
    requires hands { chair.me.1 ≡ [] }
{
    counts.begun.fetch_add(1, Ordering::SeqCst);
    wait_for_two(&counts.begun);
    for _ in 0..TURNS {
        take_turn(rt, board, &mut chair);
        let before = counts.number.load(Ordering::SeqCst);
        thread::yield_now();
        counts
            .number
            .store(before.wrapping_add(1), Ordering::SeqCst);
        hand_on(board, &mut chair);
    }
}

/// Takes turns in two threads at the same time.
fn take_both<R: Threads + Wait + Sync>(
    rt: &R,
    board: &Board,
    first: Chair,
    second: Chair,
    counts: &Counts,
)
    requires words { board.now.shared.table_id.words ≡ 3 }
    requires first_table { first.table_id ≡ board.now.shared.table_id }
    requires first_idle { first.me.0.stage ≡ Idles }
    requires first_hands { first.me.1 ≡ [] }
    requires second_table { second.table_id ≡ board.now.shared.table_id }
    requires second_idle { second.me.0.stage ≡ Idles }
    requires second_hands { second.me.1 ≡ [] }
{
    thread::join(
        rt,
        move ||
            requires table { first.table_id ≡ board.now.shared.table_id }
            requires words { board.now.shared.table_id.words ≡ 3 }
            requires idle { first.me.0.stage ≡ Idles }
            requires hands { first.me.1 ≡ [] }
        { take_turns(rt, board, first, counts) },
        move ||
            requires table { second.table_id ≡ board.now.shared.table_id }
            requires words { board.now.shared.table_id.words ≡ 3 }
            requires idle { second.me.0.stage ≡ Idles }
            requires hands { second.me.1 ≡ [] }
        { take_turns(rt, board, second, counts) },
    );
}

#[test]
fn tickets_wait_for_their_turn(rt: HostRuntime) {
    let start = Start {
        opening: 0,
        until: None,
        limit: 100,
        seats: 2,
    };
    let (board, mut first) = lay_board(rt.alloc(), start).expect(&rt, "memory");
    let second = next_chair(&board, &mut first);
    let counts = Counts {
        begun: AtomicU64::new(0),
        number: AtomicU64::new(0),
    };
    take_both(&rt, &board, first, second, &counts);
    gives(
        &rt,
        &TURNS,
        &counts.number.load(Ordering::SeqCst),
        &(u64::from(TURNS) * 2),
    );
}
