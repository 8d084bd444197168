//! A shared account that its seats hand on by turns: each has seen a legal history, and each call
//! makes that longer.
//!
//! What it stands on is here too: the board that the seats hand on, its chairs, and the steps of a
//! turn.
#![tactic(auto)]

mod account;
mod board;
mod closing;
mod laws;
mod seat;
mod turn;

pub use account::TurnAccount;
pub use board::{Board, Chair, Stage, Start, Turns, View, lay_board};
pub use laws::calls_of_one_seat_are_alone;
pub use seat::TurnSeat;
pub use turn::{hand_on, next_chair, take_turn};
