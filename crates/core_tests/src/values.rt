//! The tests of `table_core`, `price_core`, `tariff_core` and `cap_values`.

mod codes;
mod faults;
mod moments;
mod ranges;
mod readers;
