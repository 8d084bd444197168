//! The values of a run: what it is asked for, what it is set up with, what its workers are sent,
//! what they answer, and what can end it; and what drives it. Of the live service, what it is asked
//! for.
#![tactic(auto)]

mod directory;
mod driver;
mod laws;
mod live;
mod log;
mod log_fault;
mod options;
mod post;
mod run_fault;
mod setup;
mod setup_fault;

pub use directory::{Directory, OpeningCredit};
pub use driver::Driver;
pub use laws::limits_in_numbers;
pub use live::{LiveAsk, LiveOptions, LiveOutput};
pub use log::LogAsk;
pub use log_fault::LogFault;
pub use options::{PartsAsk, RunAsk, RunOptions, RunOutput};
pub use post::{Answer, Body, Post};
pub use run_fault::RunFault;
pub use setup::{MAX_ACCOUNTS, MAX_SUBSCRIBERS, RunSetup};
pub use setup_fault::SetupFault;
