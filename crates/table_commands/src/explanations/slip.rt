//! The faults of an input that can be explained.

ghost use Rattle.std.specs.Prelude.{◌≡◌};
ghost use Rattle.table_commands.specs.Slips.{slip_row, section_of};

use crate::explanations::Section;
use table_core::RowFault;
use tariff_core::TariffFault;

/// A fault in a table of an input.
#[derive(Clone, Copy)]
pub(crate) enum Slip {
    /// In the reports of `price`.
    Reports(RowFault),
    /// In the operations of `replay`.
    Ops(RowFault),
    /// In the books of `audit`.
    Book(RowFault),
    /// In a tariff that is the whole input.
    Tariff(TariffFault),
    /// In the tariff of a run.
    RunTariff(TariffFault),
    /// In the setup of a run.
    Setup(RowFault),
    /// In the script of a run.
    Script(RowFault),
}

impl Slip {
    /// The section of the input that the table is.
    pub(crate) fn section(self) -> Section
        ensures { result ≡ section_of self }
    {
        match self {
            Slip::Reports(_) | Slip::Ops(_) | Slip::Book(_) | Slip::Tariff(_) => Section::Whole,
            Slip::RunTariff(_) => Section::First,
            Slip::Setup(_) => Section::Second,
            Slip::Script(_) => Section::Third,
        }
    }

    /// The number of the row.
    pub(crate) fn row(self) -> u32
        ensures { result ≡ slip_row self }
    {
        match self {
            Slip::Reports(fault) | Slip::Ops(fault) | Slip::Book(fault) => fault.row,
            Slip::Setup(fault) | Slip::Script(fault) => fault.row,
            Slip::Tariff(fault) | Slip::RunTariff(fault) => fault.row,
        }
    }
}
