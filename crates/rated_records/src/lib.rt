//! The records of a run's calls, held against its tariff: what `run --calls` prints, `rate` finds
//! to be right.
#![tactic(auto)]

mod laws;

pub use laws::{records_have_no_difference, runs_have_no_difference, tables_have_no_difference};
