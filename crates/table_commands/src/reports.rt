//! The reports that `price` reads.

ghost use Rattle.std.specs.Prelude.{◌≡◌, IfSome};
ghost use Rattle.table_commands.specs.Reports.{report_row_in, table_reports_of};
ghost use Rattle.csv.specs.Records.{fields_of};
ghost use Rattle.table_core.specs.Faults.{GivesTable};
ghost use Rattle.table_core.specs.Rows.{rows_of};
ghost use Rattle.price_core.specs.RatesOf.{rates_of};

use csv::ByteRecord;
use price_core::{DAY, Plan, Times, lawful};
use std::alloc::Global;
use std::io::Read;
use table_core::{RowKind, TableFault, TakeFault, TakeRow, number, take_table};

/// The most rows of a table of reports, its header not counted.
const MAX_ROWS: u32 = 10_000;

/// The reports of a table, each lawful after the one before it and the first after no time at all;
/// else the first fault of the table.
pub fn read_reports<I: Read + Drop>(
    alloc: Global,
    plan: &Plan,
    reader: I,
) -> Result<Vec<Times>, TableFault>
    ensures { IfSome (I.remaining reader) (λ text.
        GivesTable (λ reports. reports.items) result (table_reports_of (rates_of plan.now)
        (rows_of text))) }
{
    let mut reports = Reports {
        plan,
        times: Vec::new(alloc),
        last: Times::ZERO,
    };
    let headers: &[&[&str]] = &[&["before", "after"]];
    take_table(alloc, reader, headers, MAX_ROWS, &mut reports)?;
    let Reports { times, .. } = reports;
    Ok(times)
}

/// Reports under a plan, as far as they were read.
#[derive(Drop)]
struct Reports<'p> {
    plan: &'p Plan,
    times: Vec<Times>,
    /// The times of the last report.
    last: Times,
}

impl TakeRow for Reports<'_> {
    ghost use Rattle.std.specs.Prelude.{◌≡◌, List};
    ghost use Rattle.price_core.specs.Rates.{Rates};
    ghost use Rattle.price_core.specs.RatesOf.{rates_of};
    ghost use Rattle.price_core.specs.Times.{Elapsed, no_times};
    ghost use Rattle.table_commands.specs.Reports.{last_times_after, report_row_in};
    ghost use Rattle.table_core.specs.Judging.{adds};

    ghost Terms = { Rates };

    ghost Made = { List Elapsed };

    ghost judge = { λ plan header.
        adds (λ earlier. report_row_in plan (last_times_after no_times earlier)) };

    ghost Has = { λ plan reports rows read. (rates_of reports.plan.now ≡ plan)
        × (reports.times.items ≡ read)
        × (reports.last ≡ last_times_after no_times read) };

    fn take(&mut self, _header: usize, row: &ByteRecord) -> Result<(), TakeFault> {
        let times = report(self.plan, self.last, row)?;
        self.times.push(times)?;
        self.last = times;
        Ok(())
    }
}

/// The report in a row, after the times of the row before it.
fn report(plan: &Plan, last: Times, row: &ByteRecord) -> Result<Times, RowKind>
    ensures { result ≡ report_row_in (rates_of plan.now) last (fields_of row.now) }
{
    let before = number(row, 0, u64::from(DAY))? as u32;
    let after = number(row, 1, u64::from(DAY))? as u32;
    match Times::new(before, after, after > 0) {
        Some(times) if lawful(plan, last, times, DAY) => Ok(times),
        _ => Err(RowKind::Order),
    }
}
