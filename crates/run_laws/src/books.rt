//! Laws of the books of a run, the contract of a function that does nothing.

ghost use Rattle.run_laws.specs.Books.{AuditableBooksHaveFewRows, AuditableBooksPass, RunBooksAreAuditable, RunBooksHaveTheirAccounts, RunsArePrintable, RunsHaveFewRows, RunsPassTheAudit};

use crate::printed::printed_books_are_read;
use account_core::{Shared, entries_are_in_range};
use held_calls::{reserves_are_in_the_books, run_entries_are_served};

/// The table that `book_table` prints of the books of a run is read back to their openings and
/// histories. An audit of it says yes for each account, or, where lines are asked for, the lines
/// that `run_lines` prints of these books.
///
/// All that it takes is in clauses: `IsRun` in that of `runs_core::serve`, `HasAccounts` in
/// those of `RunSetup::accounts`, and `IsTyped` in that of `book_table`. Two things are left. The
/// driver gave reports with times in their ranges, as `TimeInfo::no_switch` and `TimeInfo::switch`
/// make them, and recharges with last moments of 0 to `HORIZON`, or none (`AreTimely`). And the
/// table has room for the rows of the books, one for each account and one for each entry: they are
/// at most as many as the accounts and the limit of the setup allow (`few`).
///
/// The same book by book: each book of a run whose own numbers have their types can be audited
/// (`auditable`), and so can a table of such books of several runs, as the parts of one are, where
/// their accounts rise (`pass_alone`).
pub fn runs_pass_the_audit<S: Shared>()
    ensures printable { RunsArePrintable S.stood }
    ensures pass { RunsPassTheAudit S.stood }
    ensures few { RunsHaveFewRows S.stood }
    ensures auditable { RunBooksAreAuditable S.stood }
    ensures accounts { RunBooksHaveTheirAccounts S.stood }
    ensures pass_alone { AuditableBooksPass }
    ensures few_alone { AuditableBooksHaveFewRows }
{
    entries_are_in_range();
    run_entries_are_served::<S>();
    reserves_are_in_the_books::<S>();
    printed_books_are_read();
}
