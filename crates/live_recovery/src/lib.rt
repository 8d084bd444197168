//! The laws of recovery: a run that was cut off, and begins again with what it was given before,
//! answers as it did; and what is printed of its messages is read back.
#![tactic(auto)]

mod laws;
mod posts;

pub use laws::{
    cut_off_runs_go_on, live_runs_are_alike, longer_runs_answer_alike, outputs_are_joined,
    restarts_print_the_rest, runs_are_alike, stopped_logs_are_right, stopped_runs_go_on,
};
pub use posts::printed_posts_are_read;
