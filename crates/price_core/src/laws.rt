//! Laws of the definitions, each the contract of a function that does nothing: the limits in plain
//! numbers, and what the ceiling of a call and the units afforded are, in words that know nothing
//! of how they are found.

ghost use Rattle.std.specs.Prelude.{◌≡◌, ◌*◌, ◌^◌};
ghost use Rattle.price_core.specs.Price.{price_of};
ghost use Rattle.price_core.specs.Laws.{dearest_plan, AffordedAreCovered, AffordedAreLast, AffordedAreWithin, CeilingIsAttained, CeilingIsNotPassed, ComingIsTransitive, ComingTimesStand, ReadTimesAre, TimesMayStay};
ghost use Rattle.price_core.specs.declared.plan.TheConstants.{MAX_MONEY, MAX_RATE};
ghost use Rattle.price_core.specs.declared.pricing.TheConstants.{MAX_PRICE};
ghost use Rattle.price_core.specs.declared.times.TheConstants.{DAY, HORIZON, MAX_MOMENT};

/// The limits in plain numbers. The greatest price is what a day costs under the dearest plan.
#[tactic(auto, unfolding(crate::specs::Price::billed))]
pub fn limits_in_numbers()
    ensures day { DAY ≡ 864000 }
    ensures last_moment { MAX_MOMENT ≡ 10 ^ 12 }
    ensures horizon { HORIZON ≡ 2 * 10 ^ 12 }
    ensures most_money { MAX_MONEY ≡ 10 ^ 15 }
    ensures highest_rate { MAX_RATE ≡ 10 ^ 9 }
    ensures greatest_price { MAX_PRICE ≡ price_of dearest_plan DAY 0 }
{}

/// The ceiling is the greatest price that a call may come to: some times cost it, none cost more.
pub fn ceiling_is_greatest()
    ensures attained { CeilingIsAttained }
    ensures not_passed { CeilingIsNotPassed }
{}

/// The units afforded are the most that the money covers.
pub fn afforded_is_greatest()
    ensures within { AffordedAreWithin }
    ensures covered { AffordedAreCovered }
    ensures last { AffordedAreLast }
{}

/// Lawful times follow one another: a call may stay where it is, what is lawful after lawful times
/// is lawful from the first on, and what a report is read as are times.
pub fn lawful_times_follow()
    ensures stand { ComingTimesStand }
    ensures stay { TimesMayStay }
    ensures follow { ComingIsTransitive }
    ensures read { ReadTimesAre }
{}
