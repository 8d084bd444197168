//! What a command line asks for.

ghost use Rattle.std.specs.Prelude.{◌≤◌, unwrap_or};
ghost use Rattle.price_core.specs.declared.plan.TheConstants.{MAX_MONEY};
ghost use Rattle.price_core.specs.declared.times.TheConstants.{DAY, MAX_MOMENT};

use book_texts::AuditAsk;
use cap_values::Number;
use price_core::{DAY, MAX_MOMENT, MAX_MONEY, Plan};
use rating::RateAsk;
use run_values::{LiveOptions, LogAsk, RunOptions};
use tariff_core::Clock;

/// What the words ask for.
#[derive(Drop)]
pub enum Request<'a> {
    /// The text of the help, or of the version.
    Text(String),
    /// The price of reports under a plan.
    Price(Plan),
    /// The replies of an account to operations.
    Replay(Opening),
    /// A run of a script, which is printed.
    Run(RunOptions),
    /// A run of a script, whose lines and tables go into the folder at this path. Its output is a
    /// trace, whose clock is that of the calls too.
    RunInto(RunOptions, &'a str),
    /// The audit of a table of books.
    Audit(AuditAsk),
    /// What a call to a number costs.
    Quote(QuoteAsk),
    /// What each record of a table should have cost.
    Rate(RateAsk<'a>),
    /// The live service, and the log that it keeps.
    Serve(LiveOptions, Option<LogAsk<'a>>),
}

/// What `quote` is asked for.
#[derive(Clone, Copy)]
pub struct QuoteAsk {
    /// The called number.
    pub called: Number,
    /// The moment of the answer, 0 to `MAX_MOMENT`, in units of 100 ms.
    pub at: u64,
    /// How long the call lasts whose price is asked for, 0 to `DAY`, in units of 100 ms.
    pub talk: Option<u32>,
    /// The credit of which it is asked what it affords, 0 to `MAX_MONEY`.
    pub credit: Option<u64>,
    /// How the moment of the switch is printed.
    pub clock: Clock,
    pub ghost at_in_range: { at ≤ MAX_MOMENT },
    pub ghost talk_in_range: { unwrap_or talk 0 ≤ DAY },
    pub ghost credit_in_range: { unwrap_or credit 0 ≤ MAX_MONEY },
}

/// An account as it is opened.
#[derive(Clone, Copy)]
pub struct Opening {
    /// The credit, 0 to `MAX_MONEY`.
    pub opening: u64,
    /// How many entries its history may have, 3 to 1,000,000.
    pub limit: u32,
    pub ghost opening_in_range: { opening ≤ MAX_MONEY },
}
