//! What the words of a command line ask of the program `prepaid`, and the commands over tables,
//! `price`, `replay`, `audit`, `quote` and `rate`: what is asked and an input in, a text or a fault
//! out; and what is said of a fault besides its line.
#![tactic(auto)]

mod arguments;
mod audit_words;
mod command_line;
mod command_options;
mod commands;
mod ending;
mod error_lines;
mod explanations;
mod fault;
mod help;
mod input;
mod noting;
mod options;
mod price_lines;
mod quote_words;
mod quoting;
mod rate_words;
mod rating_rows;
mod reports;
mod request;
mod run_words;
mod serve_words;
mod times;
mod words_fault;

pub use arguments::{explains, read_words};
pub use commands::{audit_input, price_input, quote_input, replay_input};
pub use ending::Ending;
pub use error_lines::{report_end, report_output, report_with, write_both};
pub use fault::{Fault, TableName};
pub use input::{MAX_INPUT, read_input};
pub use noting::Noting;
pub use rating_rows::rate_input;
pub use request::{Opening, QuoteAsk, Request};
pub use words_fault::WordsFault;
