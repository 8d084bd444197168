//! Tables of CSV: their rows one at a time, the fields of a row, and the faults that a row may
//! have.
//!
//! Every table that this repository reads (reports, operations, tariffs, setups, scripts, books)
//! is read by this crate, so it is the one place that knows the library `csv`: `take_table` gives
//! the rows to what makes something of them. What is printed of them reaches its writer by
//! `write_text`.
#![tactic(auto)]

mod fault;
mod fields;
mod laws;
mod optional_field;
mod printed;
mod table;
mod taking;
mod writing;

pub use fault::{RowFault, RowKind, TableFault};
pub use fields::{
    are_digits, decimal, field, has_word, is_blank, is_decimal, is_word, number, optional,
    when_blank, write_digits,
};
pub use laws::limits_in_numbers;
pub use optional_field::Field;
pub use printed::{printed_decimals_are_read, printed_tables_are_read};
pub use table::{MAX_TABLE_ROWS, Rows, Table};
pub use taking::{TakeFault, TakeRow, take_table};
pub use writing::write_text;
