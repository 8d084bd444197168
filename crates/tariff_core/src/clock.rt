//! Moments and times of day as they are printed.

use crate::calendar::CalendarDay;
use price_core::DAY;
use std::fmt;

/// How moments are printed.
#[derive(Clone, Copy)]
pub enum Clock {
    /// As the number of their units, from moment 0 on.
    Digits,
    /// As dates and times, `YYYY-MM-DDTHH:MM:SS.T`; those behind the year 9999 as numbers.
    Dates,
}

/// A moment as a clock prints it, in units of 100 ms; an empty field where there is none.
#[derive(Clone, Copy)]
pub struct MomentField(pub Clock, pub Option<u64>);

impl fmt::Display for MomentField {
    ghost use Rattle.std.specs.Prelude.{Some};
    ghost use Rattle.tariff_core.specs.Printing.{moment_or_empty};

    ghost output = { λ field. Some (moment_or_empty field.0 field.1) };

    fn fmt<W: fmt::Write>(&self, f: &mut fmt::Formatter<W>) -> fmt::Result {
        let Some(at) = self.1 else {
            return Ok(());
        };
        let day = match self.0 {
            Clock::Digits => None,
            Clock::Dates => CalendarDay::after(at / u64::from(DAY)),
        };
        match day {
            Some(day) => {
                let time = (at % u64::from(DAY)) as u32;
                let (minutes, seconds) = (TimeOfDay(time), Seconds(time));
                write!(f, "{day}T{minutes}:{seconds}")
            }
            None => at.fmt(f),
        }
    }
}

/// A time of day in units of 100 ms, which is printed as `HH:MM`.
#[derive(Clone, Copy)]
pub struct TimeOfDay(pub u32);

impl fmt::Display for TimeOfDay {
    ghost use Rattle.std.specs.Prelude.{Some};
    ghost use Rattle.tariff_core.specs.Printing.{time_text};

    ghost output = { λ time. Some (time_text time.0) };

    fn fmt<W: fmt::Write>(&self, f: &mut fmt::Formatter<W>) -> fmt::Result {
        let (hours, minutes) = (TwoDigits(self.0 / 36_000), TwoDigits(self.0 / 600 % 60));
        write!(f, "{hours}:{minutes}")
    }
}

/// A time of day in units of 100 ms, of which the seconds are printed, as `SS.T`.
#[derive(Clone, Copy)]
struct Seconds(u32);

impl fmt::Display for Seconds {
    ghost use Rattle.std.specs.Prelude.{Some};
    ghost use Rattle.tariff_core.specs.Printing.{seconds_text};

    ghost output = { λ time. Some (seconds_text time.0) };

    fn fmt<W: fmt::Write>(&self, f: &mut fmt::Formatter<W>) -> fmt::Result {
        let (seconds, tenth) = (TwoDigits(self.0 / 10 % 60), self.0 % 10);
        write!(f, "{seconds}.{tenth}")
    }
}

/// A number below 100, which is printed in two digits.
#[derive(Clone, Copy)]
pub(crate) struct TwoDigits(pub(crate) u32);

impl fmt::Display for TwoDigits {
    ghost use Rattle.std.specs.Prelude.{Some};
    ghost use Rattle.tariff_core.specs.Printing.{two_digits};

    ghost output = { λ number. Some (two_digits number.0) };

    fn fmt<W: fmt::Write>(&self, f: &mut fmt::Formatter<W>) -> fmt::Result {
        let (first, second) = (self.0 / 10, self.0 % 10);
        write!(f, "{first}{second}")
    }
}
