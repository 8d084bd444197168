//! The weekday and the time of day at a moment.

ghost use Rattle.std.specs.Prelude.{◌≡◌, ◌≤◌, ◌<◌, ◌%◌};
ghost use Rattle.tariff_core.specs.Bands.{weekday};
ghost use Rattle.price_core.specs.declared.times.TheConstants.{DAY};

use price_core::DAY;

/// The weekday of a moment in units of 100 ms, 1 (Monday) to 7 (Sunday): moment 0 is midnight at
/// the start of a Thursday.
pub(crate) fn weekday(moment: u64) -> u8
    ensures value { result ≡ weekday moment }
    ensures weekday { (1 ≤ result) × (result ≤ 7) }
{
    ((moment / u64::from(DAY) + 3) % 7) as u8 + 1
}

/// The time of day at a moment: the units of 100 ms since midnight.
pub(crate) fn since_midnight(moment: u64) -> u32
    ensures value { result ≡ moment % DAY }
    ensures in_day { result < DAY }
{
    (moment % u64::from(DAY)) as u32
}
