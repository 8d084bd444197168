//! The faults of a tariff table.

ghost use Rattle.std.specs.Prelude.{◌≡◌, Some};
ghost use Rattle.tariff_core.specs.TariffFaults.{tariff_kind_code, fault_from, kind_from, tariff_kind_name, tariff_fault_text};

use std::error::Error;
use std::fmt;
use table_core::{RowFault, RowKind, TableFault};

/// What is wrong with a row of a tariff table, or why it could not be read.
#[derive(Clone, Copy, Debug, PartialEq, Eq)]
pub enum TariffKind {
    /// Another number of fields than the header has.
    Csv = 1,
    /// The first row is missing, or is not the table's header.
    Header = 2,
    /// A prefix that is not 0 to 15 ASCII digits.
    Digits = 3,
    /// A start that is not a time of day, `00:00` to `23:59`.
    From = 4,
    /// A fee or a rate that is not a decimal up to `MAX_RATE`.
    Money = 5,
    /// The prefix and the start of an earlier row, on a day on which both count.
    Repeated = 6,
    /// The first row of a prefix that has no row from `00:00` on, on some weekday.
    NoMidnightBand = 7,
    /// Memory ran out at the row.
    OutOfMemory = 8,
    /// The reader failed at the row.
    Device = 9,
    /// More rows than a table may have.
    TooManyRows = 10,
    /// Free units that are not a decimal up to `DAY`.
    Free = 11,
    /// A first step that is not a decimal up to `DAY`.
    First = 12,
    /// A further step that is not a decimal from 1 to `DAY`.
    Step = 13,
    /// Days that are not rising digits from 1 to 7.
    Days = 14,
}

impl TariffKind {
    /// The number of the kind.
    pub fn code(self) -> u8
        ensures { result ≡ tariff_kind_code self }
    {
        self as u8
    }
}

impl fmt::Display for TariffKind {
    ghost output = { λ kind. Some (tariff_kind_name kind) };

    fn fmt<W: fmt::Write>(&self, f: &mut fmt::Formatter<W>) -> fmt::Result {
        f.write_str(match self {
            TariffKind::Csv => "Csv",
            TariffKind::Header => "Header",
            TariffKind::Digits => "Digits",
            TariffKind::From => "From",
            TariffKind::Money => "Money",
            TariffKind::Repeated => "Repeated",
            TariffKind::NoMidnightBand => "NoMidnightBand",
            TariffKind::OutOfMemory => "OutOfMemory",
            TariffKind::Device => "Device",
            TariffKind::TooManyRows => "TooManyRows",
            TariffKind::Free => "Free",
            TariffKind::First => "First",
            TariffKind::Step => "Step",
            TariffKind::Days => "Days",
        })
    }
}

/// A fault of a tariff table, and the row that it was met at. The header is row 1, and rows are
/// counted as `csv` gives records.
#[derive(Clone, Copy, Debug, PartialEq, Eq)]
pub struct TariffFault {
    /// Which row.
    pub row: u32,
    /// What is wrong with it.
    pub kind: TariffKind,
}

impl TariffFault {
    /// The fault of a tariff by that of its table. One that isn't a row's own is at this row.
    pub(crate) fn at(row: u32, fault: TableFault) -> TariffFault
        ensures { result ≡ fault_from row fault }
    {
        match fault {
            TableFault::Row(RowFault { row, kind }) => TariffFault {
                row,
                kind: own_kind(kind),
            },
            TableFault::Device => TariffFault {
                row,
                kind: TariffKind::Device,
            },
            TableFault::OutOfMemory => TariffFault {
                row,
                kind: TariffKind::OutOfMemory,
            },
        }
    }
}

/// The kind of a fault that any table may have: Csv, Header or TooManyRows.
fn own_kind(kind: RowKind) -> TariffKind
    ensures { result ≡ kind_from kind }
{
    match kind {
        RowKind::Header => TariffKind::Header,
        RowKind::TooManyRows => TariffKind::TooManyRows,
        _ => TariffKind::Csv,
    }
}

impl fmt::Display for TariffFault {
    ghost output = { λ fault. Some (tariff_fault_text fault) };

    fn fmt<W: fmt::Write>(&self, f: &mut fmt::Formatter<W>) -> fmt::Result {
        let TariffFault { row, kind } = *self;
        write!(f, "row {row}: {kind}")
    }
}

impl Error for TariffFault {}
