//! What a run comes to, once its script was played: a record of each call and their table, its
//! texts, the files that these go into, what is said besides them, and what is kept of its parts;
//! and the division of a script into parts.
#![tactic(auto)]

mod accounts;
mod call_record;
mod division;
mod files;
mod firsts;
mod laws;
mod list_lines;
mod marks;
mod outcome;
mod part;
mod payers;
mod played;
mod record_table;
mod recording;
mod refusals;
mod refused_lines;
mod reports;
mod standing;
mod starts;
mod tables;
mod unplaced;

pub use call_record::CallRecord;
pub use division::{Division, divide};
pub use files::write_files;
pub use firsts::Firsts;
pub use laws::unserved_calls_pay_nothing;
pub use list_lines::{strangers_line, unplaced_line};
pub use outcome::Outcome;
pub use part::{Part, print_parts};
pub use played::{Played, Ran};
pub use record_table::call_table;
pub use recording::records;
pub use refusals::Refusals;
pub use refused_lines::refused_line;
pub use tables::{RunTables, clock_of};
pub use unplaced::UnplacedEvent;
