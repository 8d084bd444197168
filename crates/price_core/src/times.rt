//! The times of a call.

ghost use Rattle.std.specs.Prelude.{◌≡◌, ◌+◌, ◌≤◌, ◌↔◌, false, IsSome, IfSome, IsOk, IfOk, Some};
ghost use Rattle.price_core.specs.RangeTexts.{time_range_text};
ghost use Rattle.price_core.specs.Times.{IsTimes};
ghost use Rattle.price_core.specs.TimeInfo.{IsNoSwitch, AreAfterSwitch};
ghost use Rattle.price_core.specs.declared.times.TimeInfo.TheVariants as info;

use std::error::Error;
use std::fmt;
use std::marker::Model;

/// A day, in units of 100 ms: the longest time that a call is charged for.
pub const DAY: u32 = 864_000;

/// The greatest moment that an input may name, in units of 100 ms.
pub const MAX_MOMENT: u64 = 1_000_000_000_000;

/// The greatest moment that a switch takes, in units of 100 ms: twice the greatest of an input.
/// What follows an input takes a few days, so no call comes there.
pub const HORIZON: u64 = 2_000_000_000_000;

/// How long a call has been talked, in units of 100 ms, cumulative from its answer: before the
/// tariff switch and after it.
///
/// The two are at most `DAY` together, and without a switch nothing lies after it.
#[derive(Clone, Copy, Debug, PartialEq, Eq)]
pub struct Times {
    before: u32,
    after: u32,
    switched: bool,
}

impl Model for Times {
    ghost use Rattle.price_core.specs.Times.{Elapsed, IsTimes};

    ghost Value = { Elapsed };

    ghost view = { λ t. record { before = t.before; after = t.after; switched = t.switched } };

    ghost invariant = { λ t. IsTimes t.before t.after t.switched };

    ghost inverse = { λ e. record { before = e.before; after = e.after; switched = e.switched } };
}

impl Times {
    /// No time at all, before any report.
    pub const ZERO: Times = Times {
        before: 0,
        after: 0,
        switched: false,
    };

    /// The times, or none where they pass a day together or `after` is above 0 without a switch.
    pub fn new(before: u32, after: u32, switched: bool) -> Option<Times>
        ensures made { IsSome result ↔ IsTimes before after switched }
        ensures value { IfSome result
            (λ t. t ≡ record { before = before; after = after; switched = switched }) }
    {
        let total = u64::from(before) + u64::from(after);
        if total <= u64::from(DAY) && (switched || after == 0) {
            Some(Times {
                before,
                after,
                switched,
            })
        } else {
            None
        }
    }

    /// The time before the switch, or all of it where there was none.
    pub fn before(self) -> u32
        ensures value { result ≡ self.before }
        ensures within_day { self.before + self.after ≤ DAY }
    {
        self.before
    }

    /// The time after the switch.
    pub fn after(self) -> u32
        ensures value { result ≡ self.after }
        ensures within_day { self.before + self.after ≤ DAY }
        ensures unswitched { self.switched ≡ false → self.after ≡ 0 }
    {
        self.after
    }

    /// Whether the tariff has switched.
    pub fn switched(self) -> bool
        ensures value { result ≡ self.switched }
    {
        self.switched
    }

    /// The whole time that was talked.
    pub fn total(self) -> u32
        ensures value { result ≡ self.before + self.after }
        ensures within_day { result ≤ DAY }
    {
        self.before + self.after
    }
}

/// A time of a report is out of its range.
#[derive(Clone, Copy, Debug, PartialEq, Eq)]
pub struct TimeRange;

impl fmt::Display for TimeRange {
    ghost output = { λ _. Some time_range_text };

    fn fmt<W: fmt::Write>(&self, f: &mut fmt::Formatter<W>) -> fmt::Result {
        f.write_str("a time of a report is out of its range")
    }
}

impl Error for TimeRange {}

/// The times of a charging report, in units of 100 ms (GSM 09.78, TimeInformation).
///
/// The two constructors keep the ranges. A value that was written out without them is judged where
/// it is read: no call has times that lie outside.
#[derive(Clone, Copy, Debug, PartialEq, Eq)]
pub enum TimeInfo {
    /// The tariff has not switched (timeIfNoTariffSwitch).
    NoSwitch {
        /// The time since the answer, 0 to `DAY`.
        t: u32,
    },
    /// The tariff has switched (timeIfTariffSwitch).
    Switch {
        /// The time since the switch, or since the answer where that came later, 0 to `DAY`.
        since: u32,
        /// The time from the answer to the switch, 1 to `DAY`; left out where the switch came
        /// at the answer or before.
        interval: Option<u32>,
    },
}

impl TimeInfo {
    /// A report without a switch; `TimeRange` where its time is out of its range.
    pub fn no_switch(t: u32) -> Result<TimeInfo, TimeRange>
        ensures made { IsOk result ↔ IsNoSwitch t }
        ensures value { IfOk result (λ made. made ≡ info.NoSwitch t) }
    {
        if t > DAY {
            return Err(TimeRange);
        }
        Ok(TimeInfo::NoSwitch { t })
    }

    /// A report after a switch; `TimeRange` where a time of it is out of its range.
    pub fn switch(since: u32, interval: Option<u32>) -> Result<TimeInfo, TimeRange>
        ensures made { IsOk result ↔ AreAfterSwitch since interval }
        ensures value { IfOk result (λ made. made ≡ info.Switch since interval) }
    {
        if since > DAY || !interval.is_none_or(|interval| 1 <= interval && interval <= DAY) {
            return Err(TimeRange);
        }
        Ok(TimeInfo::Switch { since, interval })
    }
}
