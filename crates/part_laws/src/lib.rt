//! The laws of a run in parts: what its parts come to is what one run comes to; and those that they
//! rest on: a play goes one way, and books have one text.
#![tactic(auto)]

mod laws;
mod one_way;

pub use laws::{
    accounts_dont_interfere, books_have_one_text, fronts_are_answered_alike, fronts_dont_interfere,
    lines_have_no_numbers, parts_are_as_one_run, parts_print_as_one_run, records_are_those_of_all,
    scripts_have_one_run, scripts_in_parts_have_one_run, some_rows_give_their_items,
};
pub use one_way::{plays_go_one_way, timers_run_one_way};
