//! The rows of a tariff table.

ghost use Rattle.std.specs.Prelude.{◌≡◌, ◌<◌, ◌≤◌};
ghost use Rattle.price_core.specs.Rates.{are_steps};
ghost use Rattle.price_core.specs.declared.plan.TheConstants.{MAX_RATE};
ghost use Rattle.price_core.specs.declared.times.TheConstants.{DAY};

use crate::band_key::BandKey;
use crate::digits::Digits;

/// What the calls of a row cost: the fee, the rate a minute, how many units are free, and the
/// billing steps.
#[derive(Clone, Copy)]
pub(crate) struct Cost {
    pub fee: u64,
    pub rate: u64,
    pub free: u32,
    pub first: u32,
    pub step: u32,
    pub ghost fee_in_range: { fee ≤ MAX_RATE },
    pub ghost rate_in_range: { rate ≤ MAX_RATE },
    pub ghost free_within_day: { free ≤ DAY },
    pub ghost first_within_day: { first ≤ DAY },
    pub ghost step_positive: { 1 ≤ step },
    pub ghost step_within_day: { step ≤ DAY },
}

/// A row of a tariff table.
#[derive(Clone, Copy)]
pub(crate) struct Row {
    pub prefix: Digits,
    /// In units of 100 ms after midnight.
    pub start: u32,
    /// The weekdays on which the row counts, as digits 1 (Monday) to 7 (Sunday); none for each day.
    pub days: Digits,
    pub cost: Cost,
    pub ghost in_day: { start < DAY },
}

impl Row {
    ghost use Rattle.tariff_core.specs.Bands.{counts_on};
    ghost use Rattle.tariff_core.specs.Tariff.{band_of};

    /// Whether calls of the row are billed in steps.
    pub fn has_steps(&self) -> bool
        ensures { result ≡ are_steps self.now.cost.first self.now.cost.step }
    {
        self.cost.first != 0 || self.cost.step != 1
    }

    /// Whether the row counts on a weekday.
    pub fn counts_on(&self, day: u8) -> bool
        requires { day ≤ 7 }
        ensures { result ≡ counts_on day (band_of self.now) }
    {
        let days = self.days.digits();
        days.is_empty() || days.contains(&(b'0' + day))
    }

    /// The key by which the row is found on a day.
    pub fn key(&self, day: u8) -> BandKey
        ensures { result ≡ record { prefix = self.now.prefix; day = day; start = self.now.start } }
    {
        BandKey {
            prefix: self.prefix,
            day,
            start: self.start,
        }
    }
}
