//! What a report says of a call's times.

ghost use Rattle.std.specs.Prelude.{◌≡◌};
ghost use Rattle.price_core.specs.Reading.{interval_read, times_read};

use crate::{DAY, TimeInfo, Times};

/// The times that a report states, where `old` are those known before: cumulative from the answer.
/// A report after a switch that leaves its interval out keeps the time before the switch, where one
/// is known; else that time is 0. None where the times pass a day or a part is out of its range.
pub fn read_times(old: Times, info: TimeInfo) -> Option<Times>
    ensures { result ≡ times_read old info }
{
    match info {
        TimeInfo::NoSwitch { t } => Times::new(t, 0, false),
        TimeInfo::Switch { since, interval } => {
            Times::new(interval_of(old, interval)?, since, true)
        }
    }
}

/// The time before the switch: as reported, or as known, or none.
fn interval_of(old: Times, interval: Option<u32>) -> Option<u32>
    ensures { result ≡ interval_read old interval }
{
    match interval {
        Some(interval) if interval == 0 || interval > DAY => None,
        Some(interval) => Some(interval),
        None if old.switched() => Some(old.before()),
        None => Some(0),
    }
}
