//! The command `run`, from its options and its input to its text: the input is read, a script is
//! played over the accounts that it sets up, and their books are printed.
#![tactic(auto)]

mod error;
mod jobs;
mod listening;
mod parts;
mod playing;
mod running;
mod setting_up;
mod strangers;
mod tables;
mod watching;

pub use error::RunError;
pub use running::run;
pub use strangers::stranger_calls;
pub use tables::run_tables;
pub use watching::{Progress, Watch};
