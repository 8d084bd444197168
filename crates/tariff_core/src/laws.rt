//! Laws of tariffs and of moments, each the contract of a function that does nothing else: a called
//! number has one route at a moment, and what is printed of a moment is read back.

ghost use Rattle.tariff_core.specs.Laws.{OnePrefixCounts, ReadTariffsAreProper, RoutesAreAlike, RoutesHavePrefixes};
ghost use Rattle.tariff_core.specs.MomentLaws.{MomentsArePlain, MomentsAreRead};

use table_core::printed_decimals_are_read;

/// A tariff that was read is as the next laws need it: two of its rows with the same prefix and the
/// same start that count on a common day are the same, and each starts within a day.
pub fn read_tariffs_are_proper()
    ensures { ReadTariffsAreProper }
{}

/// For a called number one prefix of a tariff counts, or none. In a proper tariff it has one route
/// at a moment, by what that costs and when it switches, or none.
pub fn routes_are_single()
    ensures prefix { OnePrefixCounts }
    ensures route { RoutesAreAlike }
    ensures listed { RoutesHavePrefixes }
{}

/// A moment that is printed is read as that moment, whichever clock has printed it. In a table no
/// quotes are round it.
pub fn printed_moments_are_read()
    ensures read { MomentsAreRead }
    ensures plain { MomentsArePlain }
{
    printed_decimals_are_read();
}
