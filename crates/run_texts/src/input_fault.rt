//! Why the input of a run isn't read.

ghost use Rattle.std.specs.Prelude.{◌≡◌};
ghost use Rattle.run_texts.specs.declared.input_fault.InputFault.TheVariants as out;

use std::alloc::{AllocError, AllocFailed};
use table_core::{RowFault, TableFault};
use tariff_core::{TariffFault, TariffKind};

/// Why the input of a run isn't read: its first fault, the sections judged in order.
#[derive(Clone, Copy, Debug)]
pub enum InputFault {
    /// It doesn't have three sections, or a divider that is behind a section isn't there.
    Parts,
    /// A section that is read as it comes has more than `MAX_SECTION` bytes, its divider counted.
    TooLong,
    /// A row of the tariff has a fault, neither `Device` nor `OutOfMemory`.
    Tariff(TariffFault),
    /// A row of the setup has a fault.
    Setup(RowFault),
    /// A row of the script has a fault.
    Script(RowFault),
    /// A reader of it failed.
    Device,
    /// Memory ran out.
    OutOfMemory,
}

impl InputFault {
    ghost use Rattle.run_texts.specs.InputFaults.{of_script, of_setup, of_tariff};

    /// The fault of a tariff.
    pub(crate) fn of_tariff(fault: TariffFault) -> InputFault
        ensures { result ≡ of_tariff fault }
    {
        match fault.kind {
            TariffKind::OutOfMemory => InputFault::OutOfMemory,
            TariffKind::Device => InputFault::Device,
            _ => InputFault::Tariff(fault),
        }
    }

    /// The fault of a setup.
    pub(crate) fn of_setup(fault: TableFault) -> InputFault
        ensures { result ≡ of_setup fault }
    {
        match fault {
            TableFault::Row(fault) => InputFault::Setup(fault),
            TableFault::Device => InputFault::Device,
            TableFault::OutOfMemory => InputFault::OutOfMemory,
        }
    }

    /// The fault of a script.
    pub(crate) fn of_script(fault: TableFault) -> InputFault
        ensures { result ≡ of_script fault }
    {
        match fault {
            TableFault::Row(fault) => InputFault::Script(fault),
            TableFault::Device => InputFault::Device,
            TableFault::OutOfMemory => InputFault::OutOfMemory,
        }
    }
}

impl From<AllocError> for InputFault {
    ghost from_gives = { λ _ fault. fault ≡ out.OutOfMemory };

    fn from(_error: AllocError) -> InputFault {
        InputFault::OutOfMemory
    }
}

impl<T: Drop> From<AllocFailed<T>> for InputFault {
    ghost from_gives = { λ _ fault. fault ≡ out.OutOfMemory };

    fn from(_error: AllocFailed<T>) -> InputFault {
        InputFault::OutOfMemory
    }
}
