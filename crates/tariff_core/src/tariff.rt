//! The tariff: what a call to a number costs at a moment.

ghost use Rattle.std.specs.Prelude.{◌≡◌, ◌+◌, ◌<◌, ◌≤◌, true, length, option_map, IfNone, IfSome, Some};
ghost use Rattle.tariff_core.specs.Bands.{has_midnights, have_steps, weekday};
ghost use Rattle.tariff_core.specs.Digits.{text_of_digits};
ghost use Rattle.tariff_core.specs.Routes.{HasNoRoute, IsBandAt, IsOnly, IsPrefixFor, IsQuote, IsRoute, IsSwitch};
ghost use Rattle.tariff_core.specs.Tariff.{band_of};
ghost use Rattle.tariff_core.specs.TariffTable.{GivesBands, tariff_of};
ghost use Rattle.table_core.specs.Rows.{rows_of};

use crate::bands::Bands;
use crate::days::{since_midnight, weekday};
use crate::digits::Digits;
use crate::quote::Quote;
use crate::row::Row;
use crate::tariff_fault::{TariffFault, TariffKind};
use price_core::{DAY, HORIZON, Plan, Route};
use std::alloc::Global;
use std::io::Read;
use std::marker::Model;

/// A tariff: for each prefix of called numbers the bands of each weekday, with a fee and a rate
/// each.
///
/// Contracts see the rows of its table, in their order.
pub struct Tariff {
    bands: Bands,
    /// No prefix has more digits.
    longest: usize,
}

// Written out, since a derived one is proved field by field again wherever a tariff is let go.
impl Drop for Tariff {
    fn drop(self) {
        let Tariff {
            bands: _bands,
            longest: _longest,
        } = self;
    }
}

impl Model for Tariff {
    ghost use Rattle.std.specs.Prelude.{List};
    ghost use Rattle.tariff_core.specs.Bands.{Band};

    ghost Value = { List Band };

    ghost use Rattle.tariff_core.specs.Tariff.{IsTariff};

    ghost view = { λ t. t.bands };

    ghost invariant = { λ t. IsTariff t.bands t.longest };
}

impl Tariff {
    /// The tariff of a CSV table with the header `prefix,from,fee,rate,free,first,step,days`: a
    /// prefix of 0 to 15 ASCII digits, a start `HH:MM`, a fee and a rate a minute up to `MAX_RATE`,
    /// free units of 100 ms up to `DAY`, the billing steps, `first` up to `DAY` and `step` from 1
    /// to `DAY`, and the weekdays on which the row counts, as rising digits from 1 (Monday) to 7
    /// (Sunday), or none for each day. Under the older header that ends with `step` each row counts
    /// on each day, under that with `free` each unit is billed by itself too, and under
    /// `prefix,from,fee,rate` there are no free units either. At most 10,000 rows, no two for one
    /// prefix and start on a common day, and for each prefix one from `00:00` on, on each weekday.
    ///
    /// Rows are judged in order as they are read, and within a row the faults in the order Csv,
    /// TooManyRows, Digits, From, Money, Free, First, Step, Days, Repeated. NoMidnightBand comes
    /// after the last row, at the first row whose prefix has that fault. OutOfMemory and Device
    /// come at the row that was being read.
    pub fn read<R: Read + Drop>(alloc: Global, reader: R) -> Result<Tariff, TariffFault>
        ensures { IfSome (R.remaining reader) (λ text. GivesBands result (tariff_of
            (rows_of text))) }
    {
        let bands = Bands::read(alloc, reader)?;
        match bands.without_midnight() {
            None => {
                let longest = bands.longest();
                Ok(Tariff { bands, longest })
            }
            Some(row) => Err(TariffFault {
                row,
                kind: TariffKind::NoMidnightBand,
            }),
        }
    }

    /// Whether any row bills in steps.
    pub fn has_steps(&self) -> bool
        ensures { result ≡ have_steps self.now }
    {
        self.bands.have_steps()
    }

    /// The route of a called number at a moment, in units of 100 ms; none where no prefix of the
    /// table fits.
    ///
    /// The longest prefix counts, and of its bands on that weekday the latest that has begun at the
    /// time of day. The band of the first moment, at most a day on, at which another one counts
    /// gives the second rate, and neither free units nor steps.
    pub fn plan(&self, called: &[u8], now: u64) -> Option<Route>
        requires { now ≤ HORIZON }
        ensures none { IfNone result (HasNoRoute self.now called.now) }
        ensures route { IfSome result (IsRoute self.now called.now now) }
        ensures switches { IfSome result (λ route. IfSome route.switch_at
            (λ at. (now < at) × (at ≤ now + DAY))) }
    {
        Some(self.quote(called, now)?.route)
    }

    /// The same, with the prefix that counts and the start of its band.
    pub fn quote<'a>(&self, called: &'a [u8], now: u64) -> Option<Quote<'a>>
        requires { now ≤ HORIZON }
        ensures none { IfNone result (HasNoRoute self.now called.now) }
        ensures quote { IfSome result (λ quote.
            IsQuote self.now called.now now quote.prefix.now quote.start quote.route) }
        ensures switches { IfSome result (λ quote. IfSome quote.route.switch_at
            (λ at. (now < at) × (at ≤ now + DAY))) }
    {
        let digits = self.longest_prefix(called)?;
        let prefix = Digits::new(digits);
        let band = self.band_at(prefix, now);
        let route = route(band, self.switch(prefix, now, band));
        Some(Quote {
            prefix: digits,
            start: band.start,
            route,
        })
    }

    /// The longest prefix of the table that a called number begins with.
    fn longest_prefix<'a>(&self, called: &'a [u8]) -> Option<&'a [u8]>
        ensures none { IfNone result (HasNoRoute self.now called.now) }
        ensures prefix { IfSome result
            (λ digits. IsPrefixFor self.now called.now digits.now) }
        ensures midnight { IfSome result
            (λ digits. has_midnights digits.now self.now ≡ true) }
        ensures short { IfSome result (λ digits. length digits.now ≤ 15) }
    {
        for length in (0..=called.len().min(self.longest)).rev() {
            let digits = &called[..length];
            if self.bands.has(Digits::new(digits)) {
                return Some(digits);
            }
        }
        None
    }

    /// The row of a prefix at a moment.
    fn band_at(&self, prefix: Digits, now: u64) -> Row
        requires { has_midnights (text_of_digits prefix) self.now ≡ true }
        ensures { IsBandAt self.now (text_of_digits prefix) now (band_of result) }
    {
        self.bands.latest(prefix, now).unwrap()
    }

    /// The first moment behind this one, at most a day behind it, at which another row of the
    /// prefix counts than `band`, and that row.
    fn switch(&self, prefix: Digits, now: u64, band: Row) -> Option<Switch>
        requires now { now ≤ HORIZON }
        requires midnights { has_midnights (text_of_digits prefix) self.now ≡ true }
        requires band { IsBandAt self.now (text_of_digits prefix) now (band_of band) }
        ensures only { IfNone result (IsOnly self.now (text_of_digits prefix) (band_of band) now) }
        ensures switch { IfSome result (λ switch. IsSwitch self.now (text_of_digits prefix)
            (band_of band) now switch.at (Some switch.next.cost.rate)) }
    {
        let midnight = now - u64::from(since_midnight(now));
        if let Some(next) = self.bands.soonest(prefix, now) {
            let at = midnight + u64::from(next.start);
            return Some(Switch { at, next });
        }
        let tomorrow = midnight + u64::from(DAY);
        if band.start > 0 || !band.counts_on(weekday(tomorrow)) {
            let next = self.band_at(prefix, tomorrow);
            return Some(Switch { at: tomorrow, next });
        }
        let next = self.bands.soonest(prefix, tomorrow)?;
        let at = tomorrow + u64::from(next.start);
        if at > now + u64::from(DAY) {
            return None;
        }
        Some(Switch { at, next })
    }
}

/// When another row counts, and which.
#[derive(Clone, Copy)]
struct Switch {
    at: u64,
    next: Row,
}

/// The route of a row, with its switch, where it has one.
fn route(band: Row, switch: Option<Switch>) -> Route
    ensures fee { result.plan.fee ≡ band.cost.fee }
    ensures first_rate { result.plan.before ≡ band.cost.rate }
    ensures free { result.plan.free ≡ band.cost.free }
    ensures first { result.plan.first ≡ band.cost.first }
    ensures step { result.plan.step ≡ band.cost.step }
    ensures second_rate { result.plan.after ≡ option_map (λ switch. switch.next.cost.rate) switch }
    ensures moment { result.switch_at ≡ option_map (λ switch. switch.at) switch }
{
    let (after, switch_at) = match switch {
        None => (None, None),
        Some(Switch { at, next }) => (Some(next.cost.rate), Some(at)),
    };
    Route {
        plan: Plan {
            fee: band.cost.fee,
            before: band.cost.rate,
            after,
            free: band.cost.free,
            first: band.cost.first,
            step: band.cost.step,
        },
        switch_at,
    }
}
