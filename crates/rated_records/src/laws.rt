//! Laws of the records of a run's calls under its tariff, each the contract of a function that does
//! nothing.

ghost use Rattle.rated_records.specs.Laws.{RecordsHaveNoDifference};
ghost use Rattle.rated_records.specs.Runs.{RunsHaveNoDifference};
ghost use Rattle.rated_records.specs.Tables.{NoRowIsPrinted, TablesHaveNoDifference};

use account_core::Shared;
use run_laws::{answered_calls_have_paid, calls_pay_their_route, records_are_in_range};
use table_core::{printed_decimals_are_read, printed_tables_are_read};
use tariff_core::{printed_moments_are_read, read_tariffs_are_proper};
use turn_account::TurnAccount;

/// The records of a run have no difference: whatever `rate` says of a record, where its start is
/// taken for the answer and its times before the switch and after it as they are, it finds the
/// record's own prefix, and as the price just what the call has paid; or it finds no route, and the
/// record has no prefix.
///
/// It holds of each record but those with a forfeit, which have paid all that was held for them. It
/// takes what `run_laws::calls_pay_their_route` takes, and that the tariff is proper
/// (`IsProper`), as each that is read.
pub fn records_have_no_difference<S: Shared>()
    ensures { RecordsHaveNoDifference S.stood }
{
    calls_pay_their_route::<S>();
    records_are_in_range::<S>();
}

/// The table of a run's calls is such an input as it is: of the run's tariff with the table
/// behind it `rate --answer start` prints each record in its row, and what the law of records says
/// of each that has no forfeit. Where no call has one, and each has a prefix, it prints no row with
/// `--differing`, and all rows pass.
///
/// It takes what `records_have_no_difference` takes of a run, and that the numbers of the records
/// have 64 bits and their starts are moments up to `MAX_MOMENT` (`IsPrintable`). That the tariff
/// is proper needs no premise, since `rate` reads it.
pub fn tables_have_no_difference<S: Shared>()
    ensures rated { TablesHaveNoDifference S.stood }
    ensures unprinted { NoRowIsPrinted }
{
    records_have_no_difference::<S>();
    records_are_in_range::<S>();
    read_tariffs_are_proper();
    printed_decimals_are_read();
    printed_moments_are_read();
    printed_tables_are_read();
}

/// The table that `prepaid run --calls` prints of any script is such an input. Of the premises only
/// `IsPrintable` is left.
pub fn runs_have_no_difference()
    ensures { RunsHaveNoDifference }
{
    answered_calls_have_paid();
    tables_have_no_difference::<TurnAccount>();
}
