//! Tariffs: their tables, and the plan that a called number is charged by at a moment; and moments
//! as people write them: a number of units of 100 ms, or a date and a time of day.
//!
//! Moment 0 is midnight at the start of 1 January 1970, by the operator's own clock, and each day
//! has 24 hours. Days and their dates are those of `jiff`.
#![tactic(auto)]

mod band_key;
mod bands;
mod calendar;
mod clock;
mod days;
mod digits;
mod fields;
mod laws;
mod quote;
mod reading;
mod row;
mod tariff;
mod tariff_fault;

pub use clock::{Clock, MomentField, TimeOfDay};
pub use fields::time_of_day;
pub use laws::{printed_moments_are_read, read_tariffs_are_proper, routes_are_single};
pub use quote::Quote;
pub use reading::moment;
pub use tariff::Tariff;
pub use tariff_fault::{TariffFault, TariffKind};
