//! The tests of accounts of several threads, of `turn_account` and of `locked_account`.

mod books;
mod forms;
mod histories;
mod threads;
mod tickets;
mod turns;
