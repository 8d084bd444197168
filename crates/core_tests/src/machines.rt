//! The tests of `account_core`, `ssf_core`, `dialogue_core` and `one_call`.

mod dialogues;
mod driven;
mod faults;
mod ssf;
mod ssf_rows;
