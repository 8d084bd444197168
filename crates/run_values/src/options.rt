//! The options of a run.

ghost use Rattle.std.specs.Prelude.{◌≡◌, ◌≤◌, ◌↔◌, true, IsSome, IfSome};
ghost use Rattle.run_values.specs.Configs.{is_config};

use dialogue_core::ServiceConfig;
use ssf_core::{DefaultHandling, SsfConfig};
use tariff_core::Clock;

/// The options of a run, each in its range.
#[derive(Clone, Copy)]
pub struct RunOptions {
    /// How many workers serve the run. A run has 1 to 16.
    pub workers: u32,
    /// What the service asks accounts for.
    pub service: ServiceConfig,
    /// How the switches are set up.
    pub ssf: SsfConfig,
    /// How long after a message the operations of its answer reach the switch, in units of 100 ms:
    /// at least 1, and no longer than a switch waits for a further period.
    pub delay: u32,
    /// What is printed.
    pub output: RunOutput,
    /// In how many parts the run is played, if it is.
    pub parts: Option<PartsAsk>,
    pub ghost delay_positive: { 1 ≤ delay },
    pub ghost delay_within_tccd: { delay ≤ ssf.tccd },
}

impl RunOptions {
    ghost use Rattle.run_values.specs.Options.{ask_of, played_parts};

    /// The options that are asked for; none where a time is out of its range. The workers aren't
    /// judged here.
    pub fn new(ask: RunAsk) -> Option<RunOptions>
        ensures made { IsSome result ↔ (is_config ask ≡ true) }
        ensures options { IfSome result (λ options. ask_of options ≡ ask) }
    {
        let service = ServiceConfig::new(ask.wanted, ask.least, ask.tccd).ok()?;
        let ssf = SsfConfig::new(ask.tssf, ask.tccd, ask.default_handling).ok()?;
        if ask.delay < 1 || ask.delay > ask.tccd {
            return None;
        }
        Some(RunOptions {
            workers: ask.workers,
            service,
            ssf,
            delay: ask.delay,
            output: ask.output,
            parts: ask.parts,
        })
    }

    /// In how many parts the run is played, if it is. A trace is of a run that isn't in parts.
    pub fn played_parts(&self) -> Option<PartsAsk>
        ensures { result ≡ played_parts (ask_of self.now) }
    {
        match self.output {
            RunOutput::Lines | RunOutput::Book | RunOutput::Calls(_) => self.parts,
            RunOutput::Trace(_) => None,
        }
    }
}

/// What `run` is asked for besides its input, in any numbers. Times are in units of 100 ms.
#[derive(Clone, Copy)]
pub struct RunAsk {
    /// How many workers serve the run.
    pub workers: u32,
    /// The time that the service asks an account for.
    pub wanted: u32,
    /// The least time that it takes.
    pub least: u32,
    /// How long a switch waits for instructions.
    pub tssf: u32,
    /// How long a switch waits for a further period.
    pub tccd: u32,
    /// How long after a message the operations of its answer reach the switch.
    pub delay: u32,
    /// What becomes of a call whose instructions don't come in time.
    pub default_handling: DefaultHandling,
    /// What is printed.
    pub output: RunOutput,
    /// In how many parts the run is played, if it is.
    pub parts: Option<PartsAsk>,
}

/// In how many parts a run is played, and by how many threads.
#[derive(Clone, Copy)]
pub struct PartsAsk {
    /// How many parts are asked for. A run has no more of them than accounts, and at least one.
    pub count: u32,
    /// How many threads are to play them. There are no more of them than parts, and at least one.
    pub threads: u32,
}

/// What a run prints.
#[derive(Clone, Copy)]
pub enum RunOutput {
    /// A line for each account and for each of its calls.
    Lines,
    /// The table of books.
    Book,
    /// The table of calls, and how its moments are printed.
    Calls(Clock),
    /// The trace: the table of what was said, and how its moments are printed.
    Trace(Clock),
}
