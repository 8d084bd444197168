//! A shared account under its lock: each seat keeps the list of its own entries, and closing
//! compares these lists with the history.
#![tactic(auto)]

mod account;
mod closing;
mod seat;

pub use account::SharedAccount;
pub use seat::Seat;
