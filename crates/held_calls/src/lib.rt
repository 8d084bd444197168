//! Laws of dialogues, of workers and of runs, each the contract of a function that does nothing:
//! what a dialogue asks, what a worker's entries have to do with the posts that it handled, and
//! what the books of a run have of a call. While a call goes on, each report of it is settled, and
//! when it is ended, it is returned, whatever else its account refuses.
//!
//! No function of a program rests on them.
#![tactic(auto)]

mod dialogues;
mod laws;
mod runs;
mod workers;

pub use dialogues::{honest_replies_are_expected, one_return_if_granted, one_settle_a_grant};
pub use laws::{
    calls_are_held, ended_calls_are_returned, paid_calls_go_on, run_calls_are_returned,
    run_calls_that_end_are_returned, run_reports_are_settled, taken_reports_are_settled,
    worked_calls_are_returned, worked_reports_are_settled,
};
pub use runs::{
    recharges_are_in_the_books, reserves_are_in_the_books, run_calls_are_of_one_worker,
    run_entries_are_served, run_lists_are_worked, run_owed_is_never_refused,
};
pub use workers::{
    calls_are_reserved, calls_are_returned, entries_come_from_posts, owed_is_never_refused,
    posts_are_handled, recharges_are_entered, reports_are_settled, reserves_are_on_terms,
    what_is_said_is_sent,
};
