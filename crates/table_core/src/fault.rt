//! The faults of a table and of its rows.

ghost use Rattle.std.specs.Prelude.{◌≡◌, Some};
ghost use Rattle.table_core.specs.Faults.{row_kind_name, row_fault_text, table_fault_text};
ghost use Rattle.table_core.specs.declared.fault.TableFault.TheVariants as out;

use std::alloc::AllocError;
use std::error::Error;
use std::fmt;

/// What is wrong with a row. Each table says which of these its rows may have, and what each means
/// there.
#[derive(Clone, Copy, Debug, PartialEq, Eq)]
pub enum RowKind {
    /// Another number of fields than the header has.
    Csv,
    /// The first row is missing, or is not the table's header.
    Header,
    /// More rows than the table may have.
    TooManyRows,
    /// A word that is not known.
    What,
    /// Not a decimal, or one that is out of range.
    Number,
    /// A field that must be empty is not.
    Empty,
    /// A row that may not follow the one before it.
    Order,
    /// Named a second time.
    Repeated,
    /// Not named in an earlier row.
    Unknown,
}

impl fmt::Display for RowKind {
    ghost output = { λ kind. Some (row_kind_name kind) };

    fn fmt<W: fmt::Write>(&self, f: &mut fmt::Formatter<W>) -> fmt::Result {
        f.write_str(match self {
            RowKind::Csv => "Csv",
            RowKind::Header => "Header",
            RowKind::TooManyRows => "TooManyRows",
            RowKind::What => "What",
            RowKind::Number => "Number",
            RowKind::Empty => "Empty",
            RowKind::Order => "Order",
            RowKind::Repeated => "Repeated",
            RowKind::Unknown => "Unknown",
        })
    }
}

/// A row that has a fault. The header is row 1, and rows are counted as `csv` gives records.
#[derive(Clone, Copy, Debug, PartialEq, Eq)]
pub struct RowFault {
    /// Which row.
    pub row: u32,
    /// What is wrong with it.
    pub kind: RowKind,
}

impl fmt::Display for RowFault {
    ghost output = { λ fault. Some (row_fault_text fault) };

    fn fmt<W: fmt::Write>(&self, f: &mut fmt::Formatter<W>) -> fmt::Result {
        let RowFault { row, kind } = *self;
        write!(f, "row {row}: {kind}")
    }
}

impl Error for RowFault {}

/// Why a table was not read.
#[derive(Clone, Copy, Debug, PartialEq, Eq)]
pub enum TableFault {
    /// A row has a fault.
    Row(RowFault),
    /// The reader failed.
    Device,
    /// Memory ran out.
    OutOfMemory,
}

impl fmt::Display for TableFault {
    ghost output = { λ fault. Some (table_fault_text fault) };

    fn fmt<W: fmt::Write>(&self, f: &mut fmt::Formatter<W>) -> fmt::Result {
        match self {
            TableFault::Row(fault) => fault.fmt(f),
            TableFault::Device => f.write_str("the reader failed"),
            TableFault::OutOfMemory => f.write_str("out of memory"),
        }
    }
}

impl Error for TableFault {}

impl From<AllocError> for TableFault {
    ghost from_gives = { λ _ fault. fault ≡ out.OutOfMemory };

    fn from(_error: AllocError) -> TableFault {
        TableFault::OutOfMemory
    }
}
