//! The limits in plain numbers, as the contract of a function that does nothing.

ghost use Rattle.std.specs.Prelude.{◌≡◌};
ghost use Rattle.table_core.specs.declared.table.TheConstants.{MAX_TABLE_ROWS};

/// The limits in plain numbers: of the rows of a table besides its header.
pub fn limits_in_numbers()
    ensures most_rows { MAX_TABLE_ROWS ≡ 4294967293 }
{}
