//! Laws of what is printed and read, each the contract of a function that does nothing.

ghost use Rattle.table_core.specs.Printed.{DecimalsArePlain, DecimalsAreRead, TablesAreRead};

/// A number of 64 bits that is printed in decimal is read as that number by `decimal`. In a table
/// no quotes are round it.
pub fn printed_decimals_are_read()
    ensures read { DecimalsAreRead }
    ensures plain { DecimalsArePlain }
{}

/// Rows of two fields or more that are printed as lines, with commas between fields that need no
/// quotes, are the rows that `Rows` and `Table` read.
pub fn printed_tables_are_read()
    ensures { TablesAreRead }
{}
