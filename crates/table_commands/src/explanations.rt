//! What is said of a fault of the input besides its line: where it is, and what is wrong there.
//!
//! All of it is found in the bytes of the input once the fault is known, so no reader keeps
//! anything for it.

mod columns;
mod dividers;
mod earlier;
mod empties;
mod explaining;
mod forms;
mod found_rows;
mod midnight;
mod open_quote;
mod reasons;
mod row_line;
mod said;
mod sections;
mod slip;
mod starts;
mod unknown_words;
mod walk;
mod wants;

pub(crate) use columns::explain_header;
pub(crate) use dividers::explain_dividers;
pub(crate) use explaining::explain;
pub(crate) use said::Said;
pub(crate) use sections::Section;
pub(crate) use slip::Slip;
