//! What is made of the rows of a table, one after another.

ghost use Rattle.std.specs.Prelude.{◌≡◌, ◌≤◌, [], List, length, IfSome, OnOk};
ghost use Rattle.table_core.specs.Rows.{Fields, rows_below_header, rows_of};
ghost use Rattle.table_core.specs.Tables.{headers_of, table_form, table_of};
ghost use Rattle.table_core.specs.Taking.{TakesTable};
ghost use Rattle.table_core.specs.declared.taking.TakeFault.TheVariants as out;

use crate::{MAX_TABLE_ROWS, RowKind, Table, TableFault};
use csv::ByteRecord;
use std::alloc::{AllocError, AllocFailed, Global};
use std::io::Read;

/// Why a row isn't taken.
#[derive(Clone, Copy)]
pub enum TakeFault {
    /// The row has a fault.
    Row(RowKind),
    /// Memory ran out.
    OutOfMemory,
}

impl From<RowKind> for TakeFault {
    ghost from_gives = { λ kind fault. fault ≡ out.Row kind };

    fn from(kind: RowKind) -> TakeFault {
        TakeFault::Row(kind)
    }
}

impl From<AllocError> for TakeFault {
    ghost from_gives = { λ _ fault. fault ≡ out.OutOfMemory };

    fn from(_error: AllocError) -> TakeFault {
        TakeFault::OutOfMemory
    }
}

impl<T: Drop> From<AllocFailed<T>> for TakeFault {
    ghost from_gives = { λ _ fault. fault ≡ out.OutOfMemory };

    fn from(_error: AllocFailed<T>) -> TakeFault {
        TakeFault::OutOfMemory
    }
}

/// What makes something of the rows of a table, one after another.
pub trait TakeRow {
    ghost use Rattle.std.specs.Prelude.{◌++◌, ◌∷◌, [], ℕ, List, Result};
    ghost use Rattle.csv.specs.Records.{fields_of};
    ghost use Rattle.table_core.specs.Rows.{Fields};
    ghost use Rattle.table_core.specs.Taking.{TakesNextRow};
    ghost use Rattle.table_core.specs.declared.fault.RowKind.{RowKind};

    /// What stays the same from row to row.
    ghost Terms: { Type 0 };

    /// What rows come to.
    ghost Made: { Type 0 };

    /// What a row makes of those before it, by the header that the table has, from 0.
    ghost judge: { Terms → ℕ → Made → Fields → Result Made RowKind };

    /// That it has made this of these rows.
    ghost Has: { Terms → Self → List Fields → Made → Type 0 };

    /// Takes the next row of a table with this header, from 0.
    fn take(&mut self, header: usize, row: &ByteRecord) -> Result<(), TakeFault>
        requires { (terms : Terms) × (rows : List Fields) × (made : Made)
            × Has terms self.old rows made }
        ensures { (terms : Terms) (rows : List Fields) (made : Made)
            → Has terms self.old rows made
            → TakesNextRow (Has terms self.new (rows ++ fields_of row.now ∷ [])) result
            (judge terms header made (fields_of row.now)) };
}

/// Takes all rows of a table, whose first row is one of these headers, and which has at most
/// `most_rows` rows besides it.
///
/// Rows are judged in order as they are read, a row in this order: `Csv` where it has another
/// number of fields than the header; `TooManyRows` past `most_rows` rows; then the fault for which
/// it isn't taken. `Header` is the fault of row 1.
pub fn take_table<I: Read + Drop, T: TakeRow>(
    alloc: Global,
    reader: I,
    headers: &[&[&str]],
    most_rows: u32,
    taker: &mut T,
) -> Result<(), TableFault>
    requires few { most_rows ≤ MAX_TABLE_ROWS }
    requires has { (terms : T.Terms) × (start : T.Made) × T.Has terms taker.old [] start }
    ensures taken { IfSome (I.remaining reader) (λ text. (terms : T.Terms) (start : T.Made)
        → T.Has terms taker.old [] start
        → TakesTable (T.Has terms taker.new (rows_below_header (rows_of text))) result
        (table_of (table_form (headers_of headers.now) most_rows start (T.judge terms))
        (rows_of text))) }
    ensures has { OnOk result ((terms : T.Terms) (start : T.Made)
        → T.Has terms taker.old [] start
        → (rows : List Fields) × (made : T.Made) × T.Has terms taker.new rows made
        × (length rows ≤ most_rows)) }
{
    let mut table = Table::open(alloc, reader, headers, most_rows)?;
    while table.next_row()? {
        match taker.take(table.header(), table.row()) {
            Ok(()) => {}
            Err(TakeFault::Row(kind)) => return Err(table.fault(kind)),
            Err(TakeFault::OutOfMemory) => return Err(TableFault::OutOfMemory),
        }
    }
    Ok(())
}
