//! Laws of the records of a run's calls, each the contract of a function that does nothing.

ghost use Rattle.run_laws.specs.Records.{CallsPayTheirRoute, RecordsAreInRange, RecordsSumUp, UnroutedCallsPayNothing};

use account_core::{Shared, tariff_laws};
use held_calls::reserves_are_in_the_books;

/// A call to a number without a route has paid nothing.
///
/// What it takes is in clauses: `IsRun` in that of `runs_core::serve`, `HasAccounts` in those
/// of `RunSetup::accounts`, `IsRecord` in that of `run_outputs::records`. One thing is left to the
/// driver: where it starts a call more than once, each InitialDP of the call names the same parties
/// (`HaveTheirParties`). A script starts no call twice.
pub fn unrouted_calls_pay_nothing<S: Shared>()
    ensures { UnroutedCallsPayNothing S.stood }
{
    reserves_are_in_the_books::<S>();
}

/// The records of all calls of a run have paid, all together, what the calls of its books have. It
/// takes what `unrouted_calls_pay_nothing` takes, and that these are all records (`AreRecords`).
pub fn records_sum_up<S: Shared>()
    ensures { RecordsSumUp S.stood }
{
    reserves_are_in_the_books::<S>();
}

/// A call has paid just the price of its times by the route that the number called has at the
/// call's start, unless it has a forfeit; where no time was granted it has no times, and paid
/// nothing. It takes what `unrouted_calls_pay_nothing` takes, and one thing more is left to the
/// driver: where it starts a call more than once, each InitialDP of the call has the same moment
/// (`HaveTheirStarts`).
pub fn calls_pay_their_route<S: Shared>()
    ensures { CallsPayTheirRoute S.stood }
{
    tariff_laws();
    reserves_are_in_the_books::<S>();
}

/// The times of each record are a day at most, and what it has paid is 0 to `MAX_MONEY`.
pub fn records_are_in_range<S: Shared>()
    ensures { RecordsAreInRange S.stood }
{
    tariff_laws();
}
