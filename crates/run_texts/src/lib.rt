//! The texts of a run: from the bytes of an input to its tariff, its setup and its script, with one
//! fault; and message rows, each with what a switch or an operator says to the service: they are
//! read, and the trace of a run writes them, with the operations that answer them.
#![tactic(auto)]

mod fields;
mod input;
mod input_fault;
mod kind;
mod line;
mod message;
mod script;
mod section;
mod setup;
mod trace;
mod trace_rows;
mod words;

pub use input::{
    RunTexts, Sections, divide, is_divider, read_directory, read_tariff, read_texts, split_section,
};
pub use input_fault::InputFault;
pub use kind::LineKind;
pub use line::read_message_line;
pub use message::Message;
pub use script::{Happening, ScriptRow, read_script};
pub use section::{MAX_SECTION, read_line, read_section};
pub use setup::read_setup;
pub use trace::{trace_table, write_rows};
