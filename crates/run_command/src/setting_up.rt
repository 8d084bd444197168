//! What a run begins with.

ghost use Rattle.std.specs.Prelude.{◌≡◌, ◌≤◌, All, IfErr, IfOk, true};
ghost use Rattle.run_command.specs.Starts.{IsStartOf, MayNotStart};
ghost use Rattle.run_values.specs.Options.{ask_of};
ghost use Rattle.run_texts.specs.Views.{rows_are_in_order};

use crate::RunError;
use account_core::MAX_LIMIT;
use price_core::MAX_MOMENT;
use run_texts::{ScriptRow, read_texts};
use run_values::{RunOptions, RunSetup};
use std::alloc::Global;

/// What a run begins with.
#[derive(Drop)]
pub(crate) struct Start {
    /// What it is set up with.
    pub setup: RunSetup,
    /// What happens, in order.
    pub script: Vec<ScriptRow>,
}

/// What the run of an input begins with. The input is judged, its sections in order, and its first
/// fault is the result.
pub(crate) fn set_up(alloc: Global, options: &RunOptions, input: &[u8]) -> Result<Start, RunError>
    ensures start { IfOk result (λ start.
        IsStartOf (ask_of options.now) input.now start.setup start.script.items) }
    ensures in_range { IfOk result (λ start. All (λ row. row.at ≤ MAX_MOMENT) start.script.items) }
    ensures in_order { IfOk result (λ start. rows_are_in_order 0 start.script.items ≡ true) }
    ensures fault { IfErr result (MayNotStart input.now) }
{
    let texts = read_texts(alloc, input)?;
    let (directory, tariff) = (texts.directory, texts.tariff);
    let setup = RunSetup::of(alloc, directory, tariff, options.service, MAX_LIMIT)?;
    let _ = setup.accounts();
    Ok(Start {
        setup,
        script: texts.script,
    })
}
