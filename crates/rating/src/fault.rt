//! Why records are not rated to their end.

ghost use Rattle.std.specs.Prelude.{◌≡◌};
ghost use Rattle.run_texts.specs.declared.input_fault.InputFault.TheVariants as input;
ghost use Rattle.rating.specs.Faults.{of_rows};
ghost use Rattle.rating.specs.declared.fault.RateFault.TheVariants as out;

use crate::Column;
use run_texts::InputFault;
use std::alloc::AllocError;
use table_core::TableFault;

/// What is wrong with the header of records.
#[derive(Clone, Copy, Debug)]
pub enum HeaderFault {
    /// There is none.
    Absent,
    /// It is longer than `MAX_SHOWN` as `csv` writes it.
    TooLong,
    /// It hasn't this column, and must have it.
    Missing(Column),
    /// It has this column twice.
    Repeated(Column),
}

/// Why records are not rated to their end.
#[derive(Clone, Copy, Debug)]
pub enum RateFault {
    /// The tariff in front of a divider has a fault, or is too long; there is no divider; a reader
    /// failed, or memory ran out.
    Input(InputFault),
    /// The header is wrong: what is wrong with it first.
    Header(HeaderFault),
    /// The output failed.
    Output,
}

impl From<InputFault> for RateFault {
    ghost from_gives = { λ why fault. fault ≡ out.Input why };

    fn from(why: InputFault) -> RateFault {
        RateFault::Input(why)
    }
}

impl From<HeaderFault> for RateFault {
    ghost from_gives = { λ why fault. fault ≡ out.Header why };

    fn from(why: HeaderFault) -> RateFault {
        RateFault::Header(why)
    }
}

impl From<TableFault> for RateFault {
    ghost from_gives = { λ why fault. fault ≡ of_rows why };

    fn from(why: TableFault) -> RateFault {
        match why {
            TableFault::OutOfMemory => RateFault::Input(InputFault::OutOfMemory),
            TableFault::Row(_) | TableFault::Device => RateFault::Input(InputFault::Device),
        }
    }
}

impl From<AllocError> for RateFault {
    ghost from_gives = { λ _ fault. fault ≡ out.Input input.OutOfMemory };

    fn from(_error: AllocError) -> RateFault {
        RateFault::Input(InputFault::OutOfMemory)
    }
}
