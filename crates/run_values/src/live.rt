//! The options of the live service.

ghost use Rattle.std.specs.Prelude.{◌≡◌, ◌↔◌, true, IsSome, IfSome};
ghost use Rattle.run_values.specs.Configs.{is_live_config};

use dialogue_core::ServiceConfig;

/// The options of the live service, each in its range.
#[derive(Clone, Copy)]
pub struct LiveOptions {
    /// What the service asks accounts for.
    pub service: ServiceConfig,
    /// What is printed at the end.
    pub output: LiveOutput,
}

impl LiveOptions {
    ghost use Rattle.run_values.specs.Options.{live_ask_of};

    /// The options that are asked for; none where a time is out of its range.
    pub fn new(ask: LiveAsk) -> Option<LiveOptions>
        ensures made { IsSome result ↔ (is_live_config ask ≡ true) }
        ensures options { IfSome result (λ options. live_ask_of options ≡ ask) }
    {
        let service = ServiceConfig::new(ask.wanted, ask.least, ask.tccd).ok()?;
        Some(LiveOptions {
            service,
            output: ask.output,
        })
    }
}

/// What the live service is asked for besides its input, in any numbers. Times are in units of
/// 100 ms.
#[derive(Clone, Copy)]
pub struct LiveAsk {
    /// The time that the service asks an account for.
    pub wanted: u32,
    /// The least time that it takes.
    pub least: u32,
    /// How long a switch waits for a further period.
    pub tccd: u32,
    /// What is printed at the end.
    pub output: LiveOutput,
}

/// What the live service prints behind its rows, once its input has ended.
#[derive(Clone, Copy)]
pub enum LiveOutput {
    /// Nothing.
    Nothing,
    /// A line for each account and for each of its calls.
    Lines,
    /// The table of books.
    Book,
    /// The table of calls.
    Calls,
}
