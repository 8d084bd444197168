//! The live service: over the accounts that an input sets up messages are answered as they come,
//! each on a line of its own, and then their books are printed; and the log that it keeps.
#![tactic(auto)]

mod answering;
mod checking;
mod driver;
mod error;
mod fault;
mod finding;
mod group;
mod head;
mod hearing;
mod judging;
mod laws;
mod line;
mod opening;
mod recording;
mod replay;
mod replaying;
mod saying;
mod serving;
mod skipping;
mod stage;
mod synced;

pub use error::ServeError;
pub use finding::{Found, find_lines};
pub use group::MAX_GROUP;
pub use laws::{limits_in_numbers, logs_are_heard_again, replays_are_silent};
pub use line::MAX_LINE;
pub use opening::{lock_log, log_head};
pub use replay::Replay;
pub use serving::serve_input;
pub use skipping::Skipping;
pub use stage::LiveFault;
