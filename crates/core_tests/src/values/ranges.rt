//! The ranges of times and of reports that no command takes.

use crate::looking::gives;
use price_core::{TimeInfo, Times, read_times};

/// The times of a report without a switch, and whether they fit.
const UNSWITCHED: [(u32, bool); 2] = [(864_000, true), (864_001, false)];

/// The times of a report after a switch, whether they fit, and whether a call may have them.
const SWITCHED: [(u32, Option<u32>, bool, bool); 6] = [
    (100, Some(200), true, true),
    (150, None, true, true),
    (864_000, Some(1), true, false),
    (864_001, None, false, false),
    (0, Some(0), false, false),
    (0, Some(864_001), false, false),
];

#[test]
fn reports_keep_their_ranges(rt: HostRuntime) {
    for &(t, fits) in &UNSWITCHED {
        let info = TimeInfo::NoSwitch { t };
        let found = (
            TimeInfo::no_switch(t).is_ok(),
            read_times(Times::ZERO, info).is_some(),
        );
        gives(&rt, &t, &found, &(fits, fits));
    }
    for &(since, interval, fits, counts) in &SWITCHED {
        let info = TimeInfo::Switch { since, interval };
        let made = TimeInfo::switch(since, interval).is_ok();
        let found = (made, read_times(Times::ZERO, info).is_some());
        gives(&rt, &info, &found, &(fits, counts));
    }
    let none = (Times::new(600, 1, false), Times::new(864_000, 1, true));
    gives(&rt, &"no times", &none, &(None, None));
}
