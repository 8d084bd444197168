//! The account of prepaid calls: what is credited, reserved for a call, settled as it is reported,
//! and given back when the call ends. What every form of an account promises that several threads
//! ask, each from a seat of its own, with its gates, and the book that it is closed with. And maps
//! by number, such as those of an account's calls.
#![tactic(auto)]

mod account;
mod account_sum;
mod admitted;
mod book;
mod call_stage;
mod call_state;
mod call_states;
mod call_sum;
mod close_fault;
mod entry;
mod fault;
mod gate;
mod held_call;
mod history_check;
mod kept_plan;
mod laws;
mod limits;
mod rising_map;
mod shared;
mod tally;
mod teller;

pub use account::Account;
pub use account_sum::AccountSum;
pub use admitted::Admitted;
pub use book::{Book, Summary};
pub use call_stage::CallStage;
pub use call_sum::{CallSum, Fate};
pub use close_fault::CloseFault;
pub use entry::{Entry, Op, Reply};
pub use fault::AccountFault;
pub use gate::{Gate, OpenGate};
pub use history_check::HistoryCheck;
pub use laws::{
    accounts_have_no_gate, answers_fit_their_operations, closed_calls_pay_the_tariff,
    entries_are_in_range, limits_in_numbers, no_balance_is_negative, nothing_is_granted_late,
    places_go_with_entries, refusals_are_of_their_kind, settles_keep_the_credit, tariff_laws,
};
pub use limits::{MAX_LIMIT, MIN_LIMIT};
pub use rising_map::{Listing, RisingMap, is_above, place_of};
pub use shared::Shared;
pub use teller::Teller;
