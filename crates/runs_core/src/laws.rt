//! The laws of the books of a run, each the contract of a function that does nothing.

ghost use Rattle.std.specs.Prelude.{◌≡◌};
ghost use Rattle.runs_core.specs.Headline.{BooksAreRight};

use account_core::{closed_calls_pay_the_tariff, no_balance_is_negative};

/// In a book of a run no balance is negative, and every call that was closed within its grants has
/// paid exactly the tariff of the times that its last report states.
///
/// Both premises are clauses of `Book::history`, so they hold of every book: its opening credit is
/// at most `MAX_MONEY` (`small`), and its history is legal (`legal`).
pub fn books_are_right()
    ensures { BooksAreRight }
{
    no_balance_is_negative();
    closed_calls_pay_the_tariff();
}

/// What was lent to a scope that has ended is as the scope left it.
pub(crate) fn loan_has_ended<T>(lent: &mut T)
    ensures { lent.new ≡ lent.old }
{}
