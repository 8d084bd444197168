//! What is printed of books is read back: laws, each the contract of a function that does nothing.

ghost use Rattle.run_laws.specs.PrintedBooks.{BooksAreRead, PrintedBooksHaveTheirLines, PrintedBooksPass};
ghost use Rattle.run_laws.specs.ReadBack.{OperationsAreRead, RepliesAreRead};

use table_core::{printed_decimals_are_read, printed_tables_are_read};

/// The table that `book_table` prints is read back to the openings and the histories of its books,
/// and an audit of it says yes for each account, or the lines of the books where these are asked
/// for: for books by rising account, whose histories are legal, whose numbers are in the ranges of
/// their columns, and that have no more rows than the table may have.
pub fn printed_books_are_read()
    ensures read { BooksAreRead }
    ensures pass { PrintedBooksPass }
    ensures lines { PrintedBooksHaveTheirLines }
{
    printed_decimals_are_read();
    printed_tables_are_read();
    operations_are_read();
    replies_are_read();
}

/// The columns that are printed of an operation whose numbers fit are read as that operation.
pub fn operations_are_read()
    ensures { OperationsAreRead }
{
    printed_decimals_are_read();
}

/// The columns that are printed of a reply whose numbers fit are read as that reply.
pub fn replies_are_read()
    ensures { RepliesAreRead }
{
    printed_decimals_are_read();
}
