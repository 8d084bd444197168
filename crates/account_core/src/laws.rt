//! Laws of legal histories, each the contract of a function that does nothing: what the sequential
//! account comes to, in words that know nothing of how it answers. And the limits in plain numbers.

ghost use Rattle.std.specs.Prelude.{◌≡◌, ◌^◌};
ghost use Rattle.account_core.specs.Laws.{AnswersFitTheirOperations, ClosedCallsPayTheTariff, EntriesAreInRange, NoBalanceIsNegative, NothingIsGrantedLate, SettlesKeepTheCredit, TimesAreReported};
ghost use Rattle.account_core.specs.Kinds.{RefusalsAreOfTheirKind};
ghost use Rattle.account_core.specs.Sound.{LegalPastsAreSound, SoundPastsAnswer};
ghost use Rattle.account_core.specs.TariffLaws.{TariffLaws};
ghost use Rattle.account_core.specs.SharingLaws.{AccountsHaveNoGate, EachIsOwedItsShare, EntriesOweToTheirCalls};
ghost use Rattle.account_core.specs.declared.limits.TheConstants.{MAX_LIMIT, MIN_LIMIT};

use price_core::{afforded_is_greatest, ceiling_is_greatest, lawful_times_follow};

/// No balance is negative: at no place of a legal history do its calls take more than there is.
pub fn no_balance_is_negative()
    ensures { NoBalanceIsNegative }
{
    tariff_laws();
}

/// A call that was returned without a forfeit has paid exactly the price of its times, and these
/// are what its last report states.
pub fn closed_calls_pay_the_tariff()
    ensures paid { ClosedCallsPayTheTariff }
    ensures times { TimesAreReported }
{
    tariff_laws();
}

/// A Settle never changes what is available.
pub fn settles_keep_the_credit()
    ensures { SettlesKeepTheCredit }
{
    tariff_laws();
}

/// After an account's last moment no entry of a legal history grants anything, until a Credit moves
/// that moment.
pub fn nothing_is_granted_late()
    ensures { NothingIsGrantedLate }
{}

/// The answer to an admissible operation is of its kind: a grant is of some units, at least the
/// least and at most those wanted, within a day with the times of its call; and a report is settled
/// exactly where it is accepted, else a forfeit.
pub fn answers_fit_their_operations()
    ensures { AnswersFitTheirOperations }
{
    tariff_laws();
}

/// Every entry of a legal history asks for what is in range, and its reply says money of at most
/// `MAX_MONEY`, and grants a day at most.
pub fn entries_are_in_range()
    ensures { EntriesAreInRange }
{
    tariff_laws();
}

/// What holds after every legal history, and of the answers that come next.
pub(crate) fn legal_pasts_are_sound()
    ensures sound { LegalPastsAreSound }
    ensures fitting { SoundPastsAnswer }
{
    tariff_laws();
}

/// The laws of the tariff that accounts rest on.
pub fn tariff_laws()
    ensures { TariffLaws }
{
    ceiling_is_greatest();
    afforded_is_greatest();
    lawful_times_follow();
}

/// An entry changes the places that are owed to its own call alone, and no call is owed more than
/// all are.
pub fn places_go_with_entries()
    ensures moves { EntriesOweToTheirCalls }
    ensures share { EachIsOwedItsShare }
{}

/// An account by itself never answers `GateClosed`.
pub fn accounts_have_no_gate()
    ensures { AccountsHaveNoGate }
{}

/// What an account refuses an operation with is a fault of a kind that the operation has, and never
/// `GateClosed`.
pub fn refusals_are_of_their_kind()
    ensures { RefusalsAreOfTheirKind }
{
    accounts_have_no_gate();
}

/// The limits of a history in plain numbers.
pub fn limits_in_numbers()
    ensures fewest_entries { MIN_LIMIT ≡ 3 }
    ensures most_entries { MAX_LIMIT ≡ 10 ^ 6 }
{}
