//! The tests of `run_values`, `runs_core`, `run_texts` and `live_answers`.

mod faults;
mod live_logs;
mod meeting;
mod messages;
mod rounds;
mod runs;
mod setups;
mod shutting;
mod texts;
