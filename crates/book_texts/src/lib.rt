//! The texts of books: the lines of the accounts and calls that a run ends with, the table of all
//! entries, the audit of such a table, and the answers to a table of operations.
//!
//! What an account is asked and what it replies is written and read here, in words and in the
//! columns of both tables, side by side.
#![tactic(auto)]

mod account_checks;
mod audit;
mod book_row;
mod columns;
mod lines;
mod offsets;
mod operation;
mod ranges;
mod replaying;
mod reply;
mod response;
mod seat;
mod size;
mod table;
mod version;
mod words;
mod wrong_row;

pub use audit::{Audit, audit_books};
pub use lines::{RunLines, run_lines};
pub use replaying::replay;
pub use size::{AuditAsk, BookSize, MAX_ROWS};
pub use table::book_table;
