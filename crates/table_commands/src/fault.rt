//! Why the program prints no answer.

ghost use Rattle.std.specs.Prelude.{◌≡◌, Some};
ghost use Rattle.table_commands.specs.Faults.{line_of_fault, text_of_table_name, of_words};
ghost use Rattle.table_commands.specs.declared.fault.Fault.TheVariants as out;
ghost use Rattle.run_values.specs.declared.run_fault.RunFault.TheVariants as run;

use crate::WordsFault;
use rating::RateFault;
use run_texts::{InputFault, LineKind};
use run_values::{LogFault, RunFault};
use std::alloc::{AllocError, AllocFailed};
use std::{error, fmt};
use table_core::{RowFault, RowKind, TableFault};
use tariff_core::TariffFault;

/// What a table of the input is called.
#[derive(Clone, Copy, Debug)]
pub enum TableName {
    /// The reports of `price`.
    Reports,
    /// The operations of `replay`.
    Ops,
    /// The accounts and the subscribers of `run`.
    Setup,
    /// What happens in a `run`.
    Script,
    /// The books of `audit`.
    Book,
    /// The records of `rate`.
    Records,
    /// The messages of `serve`.
    Messages,
}

impl fmt::Display for TableName {
    ghost output = { λ name. Some (text_of_table_name name) };

    fn fmt<W: fmt::Write>(&self, f: &mut fmt::Formatter<W>) -> fmt::Result {
        f.write_str(match self {
            TableName::Reports => "reports",
            TableName::Ops => "ops",
            TableName::Setup => "setup",
            TableName::Script => "script",
            TableName::Book => "book",
            TableName::Records => "records",
            TableName::Messages => "messages",
        })
    }
}

/// Why the program prints no answer.
#[derive(Clone, Copy, Debug)]
pub enum Fault {
    /// The words ask for nothing that the program does.
    Arguments,
    /// A time that `run` or `serve` is asked for is out of its range.
    Config,
    /// The input has more than `MAX_INPUT` bytes; of `rate` and `serve`, a section in front of a
    /// divider has more than `MAX_SECTION`.
    TooLong,
    /// The input of `run` doesn't have three sections, or that of `rate` or `serve` has too few
    /// dividers.
    Parts,
    /// A row of the tariff has a fault.
    Tariff(TariffFault),
    /// A row of another table has a fault.
    Table(TableName, RowFault),
    /// The log of `serve` can't be used.
    Log(LogFault),
    /// A line of the log of `serve` isn't accepted: its row, where the header in front of the lines
    /// is row 1, and what is wrong with it.
    LogRow(u64, LineKind),
    /// The files of a run couldn't be written.
    Into,
    /// Standard input failed.
    Device,
    /// A run failed; also where memory ran out anywhere.
    Run(RunFault),
}

impl Fault {
    ghost use Rattle.table_commands.specs.Faults.{in_table, no_header, of_rate, of_run_input, status_of};

    /// The exit status: 1 for a fault of the words or the input, 2 where standard input, memory, a
    /// run, its log or its files failed.
    pub fn status(self) -> u8
        ensures { result ≡ status_of self }
    {
        match self {
            Fault::Log(_) | Fault::LogRow(_, _) | Fault::Into | Fault::Device | Fault::Run(_) => 2,
            _ => 1,
        }
    }

    /// The fault of the input of a run.
    pub fn of_run_input(fault: InputFault) -> Fault
        ensures { result ≡ of_run_input fault }
    {
        match fault {
            InputFault::Parts => Fault::Parts,
            InputFault::TooLong => Fault::TooLong,
            InputFault::Tariff(fault) => Fault::Tariff(fault),
            InputFault::Setup(fault) => Fault::Table(TableName::Setup, fault),
            InputFault::Script(fault) => Fault::Table(TableName::Script, fault),
            InputFault::Device => Fault::Device,
            InputFault::OutOfMemory => Fault::Run(RunFault::OutOfMemory),
        }
    }

    /// The fault of records that weren't rated to their end; none where the output failed.
    pub fn of_rate(fault: RateFault) -> Option<Fault>
        ensures { result ≡ of_rate fault }
    {
        match fault {
            RateFault::Input(fault) => Some(Fault::of_run_input(fault)),
            RateFault::Header(_) => Some(Fault::no_header(TableName::Records)),
            RateFault::Output => None,
        }
    }

    /// The fault of a table whose header isn't the one that it must have.
    pub fn no_header(name: TableName) -> Fault
        ensures { result ≡ no_header name }
    {
        Fault::Table(
            name,
            RowFault {
                row: 1,
                kind: RowKind::Header,
            },
        )
    }

    /// The fault of the table that is called so.
    pub fn in_table(name: TableName, fault: TableFault) -> Fault
        ensures { result ≡ in_table name fault }
    {
        match fault {
            TableFault::Row(fault) => Fault::Table(name, fault),
            TableFault::Device => Fault::Device,
            TableFault::OutOfMemory => Fault::Run(RunFault::OutOfMemory),
        }
    }
}

impl fmt::Display for Fault {
    ghost output = { λ fault. Some (line_of_fault fault) };

    fn fmt<W: fmt::Write>(&self, f: &mut fmt::Formatter<W>) -> fmt::Result {
        match self {
            Fault::Arguments => f.write_str("prepaid: arguments"),
            Fault::Config => f.write_str("prepaid: input: Config"),
            Fault::TooLong => f.write_str("prepaid: input: TooLong"),
            Fault::Parts => f.write_str("prepaid: input: Parts"),
            Fault::Tariff(fault) => write!(f, "prepaid: tariff {fault}"),
            Fault::Table(name, fault) => write!(f, "prepaid: {name} {fault}"),
            Fault::Log(fault) => write!(f, "prepaid: log: {fault}"),
            Fault::LogRow(row, kind) => write!(f, "prepaid: log row {row}: {kind}"),
            Fault::Into => f.write_str("prepaid: into: Device"),
            Fault::Device => f.write_str("prepaid: run: Device"),
            Fault::Run(fault) => write!(f, "prepaid: run: {fault}"),
        }
    }
}

impl error::Error for Fault {}

impl From<WordsFault> for Fault {
    ghost from_gives = { λ why fault. fault ≡ of_words why };

    fn from(why: WordsFault) -> Fault {
        match why {
            WordsFault::Arguments => Fault::Arguments,
            WordsFault::Config => Fault::Config,
            WordsFault::OutOfMemory => Fault::Run(RunFault::OutOfMemory),
        }
    }
}

impl From<AllocError> for Fault {
    ghost from_gives = { λ _ fault. fault ≡ out.Run run.OutOfMemory };

    fn from(_error: AllocError) -> Fault {
        Fault::Run(RunFault::OutOfMemory)
    }
}

impl<T: Drop> From<AllocFailed<T>> for Fault {
    ghost from_gives = { λ _ fault. fault ≡ out.Run run.OutOfMemory };

    fn from(_error: AllocFailed<T>) -> Fault {
        Fault::Run(RunFault::OutOfMemory)
    }
}
