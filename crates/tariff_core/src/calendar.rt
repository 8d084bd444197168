//! Days of the calendar, and their numbers from 1 January 1970 on.

ghost use Rattle.std.specs.Prelude.{◌≡◌, ◌≤◌, IfSome};
ghost use Rattle.tariff_core.specs.Calendar.{dated, day_at};

use crate::clock::TwoDigits;
use jiff_core::civil::Date;
use std::fmt;

/// The year of moment 0.
const FIRST_YEAR: u64 = 1970;

/// 31 December 9999, in days after 1 January 1970.
const LAST_DAY: u64 = 2_932_896;

/// A day of the calendar, in 1970 or later.
#[derive(Clone, Copy)]
pub(crate) struct CalendarDay {
    pub(crate) year: u32,
    /// 1 to 12.
    pub(crate) month: u32,
    /// The day of the month, from 1 on.
    pub(crate) day: u32,
}

impl CalendarDay {
    /// The day so many days after 1 January 1970, up to the end of the year 9999.
    pub(crate) fn after(days: u64) -> Option<CalendarDay>
        ensures { result ≡ dated days }
    {
        if days > LAST_DAY {
            return None;
        }
        let Ok(date) = Date::from_unix_epoch_day(days as i64) else {
            return None;
        };
        Some(CalendarDay {
            year: date.year as u32,
            month: u32::from(date.month),
            day: u32::from(date.day),
        })
    }
}

impl fmt::Display for CalendarDay {
    ghost use Rattle.std.specs.Prelude.{Some};
    ghost use Rattle.tariff_core.specs.Printing.{day_text};

    ghost output = { λ day. Some (day_text day) };

    fn fmt<W: fmt::Write>(&self, f: &mut fmt::Formatter<W>) -> fmt::Result {
        let (century, year) = (TwoDigits(self.year / 100), TwoDigits(self.year % 100));
        let (month, day) = (TwoDigits(self.month), TwoDigits(self.day));
        write!(f, "{century}{year}-{month}-{day}")
    }
}

/// The number of a day, from 1 January 1970 on, if the calendar has the day.
pub(crate) fn day_number(year: u64, month: u64, day: u64) -> Option<u64>
    requires year { year ≤ 9999 }
    requires month { month ≤ 12 }
    requires day { day ≤ 31 }
    ensures value { result ≡ day_at year month day }
    ensures within { IfSome result (λ days. days ≤ 2932896) }
{
    if year < FIRST_YEAR {
        return None;
    }
    let Ok(date) = Date::new(year as i16, month as i8, day as i8) else {
        return None;
    };
    Some(date.to_unix_epoch_day() as u64)
}
