//! Moments behind those of every run, up to the last that has a date.

use crate::looking::{gives, prints};
use price_core::HORIZON;
use tariff_core::{Clock, MomentField, moment};

/// The last moment that is printed as a date and a time.
const LAST: u64 = 2_534_023_007_999;

/// Moments, and what is printed of them.
const PRINTED: [(u64, &str); 3] = [
    (HORIZON, "8307-10-01T19:33:20.0"),
    (LAST, "9999-12-31T23:59:59.9"),
    (LAST + 1, "2534023008000"),
];

#[test]
fn dates_have_four_digits_a_year(rt: HostRuntime) {
    for &(at, want) in &PRINTED {
        let field = MomentField(Clock::Dates, Some(at));
        prints(&rt, rt.alloc(), &at, &field, want);
    }
    let last = moment(b"9999-12-31T23:59:59.9", u64::MAX);
    gives(&rt, &u64::MAX, &last, &Some(LAST));
}
