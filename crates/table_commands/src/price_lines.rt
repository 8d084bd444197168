//! The lines that `price` prints.

ghost use Rattle.std.specs.Prelude.{◌≡◌, IfOk, string_bytes};
ghost use Rattle.table_commands.specs.Reports.{AreInOrder};
ghost use Rattle.table_commands.specs.PriceLines.{price_lines};
ghost use Rattle.price_core.specs.RatesOf.{rates_of};
ghost use Rattle.price_core.specs.Times.{no_times};

use price_core::{Plan, Times, debit};
use std::alloc::{AllocError, Global};

/// One line a report with what it adds to the price and the price so far, and the total last.
pub fn print_reports(alloc: Global, plan: &Plan, reports: &[Times]) -> Result<String, AllocError>
    requires { AreInOrder (rates_of plan.now) no_times reports.now }
    ensures { IfOk result
        (λ text. string_bytes text ≡ price_lines (rates_of plan.now) 0 reports.now) }
{
    let mut text = String::new(alloc);
    let mut last = Times::ZERO;
    let mut total = 0;
    for times in reports {
        let debit = debit(plan, last, *times);
        total += debit;
        last = *times;
        writeln!(text, "debit {debit} total {total}")?;
    }
    writeln!(text, "total {total}")?;
    Ok(text)
}
