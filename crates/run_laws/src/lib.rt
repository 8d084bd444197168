//! Laws of runs: an audit of the table of their books passes, and what the records of their calls
//! say of these books; and so of what the command `run` answers.
#![tactic(auto)]

mod answered;
mod books;
mod printed;
mod records;

pub use answered::{answered_books_pass, answered_calls_have_paid};
pub use books::runs_pass_the_audit;
pub use printed::{operations_are_read, printed_books_are_read, replies_are_read};
pub use records::{
    calls_pay_their_route, records_are_in_range, records_sum_up, unrouted_calls_pay_nothing,
};
