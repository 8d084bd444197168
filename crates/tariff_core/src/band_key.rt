//! The key by which a row of a tariff is found.

use crate::digits::Digits;
use std::cmp::Ordering;

/// By what a row of the tariff is found: the calls to a prefix, on a day, from a time of day on.
#[derive(Clone, Copy)]
pub(crate) struct BandKey {
    pub prefix: Digits,
    /// A weekday, 1 (Monday) to 7 (Sunday); 0 in a table without days, where a row stands for each.
    pub day: u8,
    /// In units of 100 ms after midnight.
    pub start: u32,
}

impl Ord for BandKey {
    ghost use Rattle.std.proofs.Common.{rules};
    ghost use Rattle.std.specs.Cmp.Rules.{comparing};
    ghost use Rattle.tariff_core.specs.BandKeys.{by_band_key};

    ghost cmp = { by_band_key };

    ghost total = { Prim.search (comparing, rules) };

    ghost matches_partial_cmp = { Prim.search (comparing, rules) };

    ghost matches_eq = { Prim.search (comparing, rules) };

    fn cmp(&self, other: &BandKey) -> Ordering {
        self.prefix.digits().cmp(other.prefix.digits()).then(
            self.day.cmp(&other.day).then(self.start.cmp(&other.start)),
        )
    }
}

impl PartialOrd for BandKey {
    ghost use Rattle.std.proofs.Common.{rules};
    ghost use Rattle.std.specs.Cmp.{partial_order_from_own_ties};
    ghost use Rattle.std.specs.Cmp.Rules.{comparing};
    ghost use Rattle.std.specs.Ordering.{as_partial_cmp};
    ghost use Rattle.tariff_core.specs.BandKeys.{by_band_key};

    ghost partial_cmp = { as_partial_cmp by_band_key };

    ghost laws = { partial_order_from_own_ties (Prim.search (comparing, rules))
        (Prim.search (comparing, rules)) };

    fn partial_cmp(&self, other: &BandKey) -> Option<Ordering> {
        Some(self.cmp(other))
    }
}

impl PartialEq for BandKey {
    ghost use Rattle.std.proofs.Common.{rules};
    ghost use Rattle.std.proofs.lemmas.Cmp.{eq_by_cmp_equiv};
    ghost use Rattle.std.specs.Cmp.{partial_equiv_from_equiv};
    ghost use Rattle.std.specs.Cmp.Rules.{comparing};
    ghost use Rattle.std.specs.Ordering.{eq_by_cmp};
    ghost use Rattle.tariff_core.specs.BandKeys.{by_band_key};

    ghost eq = { eq_by_cmp by_band_key };

    ghost laws = { partial_equiv_from_equiv
        (eq_by_cmp_equiv {R = by_band_key} (Prim.search (comparing, rules))) };

    fn eq(&self, other: &BandKey) -> bool {
        self.cmp(other).is_eq()
    }
}

impl Eq for BandKey {
    ghost use Rattle.std.proofs.Common.{rules};
    ghost use Rattle.std.specs.Cmp.Rules.{comparing};

    ghost laws = { Prim.search (comparing, rules) };
}
