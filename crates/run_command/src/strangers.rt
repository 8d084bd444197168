//! The calls of numbers that no subscriber has.

ghost use Rattle.std.specs.Prelude.{◌≡◌, ◌++◌, IfErr, IfOk, OnOk, map};
ghost use Rattle.run_command.specs.Starts.{MayNotStart};
ghost use Rattle.run_command.specs.Strangers.{AreStrangersOf, stranger_of, strangers_in};
ghost use Rattle.run_texts.specs.Views.{happens_of, row_data, with_digits};

use crate::RunError;
use crate::setting_up::{Start, set_up};
use run_texts::{Happening, ScriptRow};
use run_values::{RunOptions, RunSetup};
use std::alloc::{AllocError, Global};

/// The numbers of the calls of an input whose calling number no subscriber has, in the order in
/// which they start. A run releases them at once, and no account knows of them. A fault of the
/// input is the result, as of a run.
pub fn stranger_calls(
    alloc: Global,
    options: &RunOptions,
    input: &[u8],
) -> Result<Vec<u64>, RunError>
    ensures calls { IfOk result (λ calls. AreStrangersOf input.now calls.items) }
    ensures fault { IfErr result (MayNotStart input.now) }
{
    let Start { setup, script } = set_up(alloc, options, input)?;
    Ok(strangers_in(alloc, &setup, script.as_slice())?)
}

/// The numbers of such calls among the rows of a script.
fn strangers_in(
    alloc: Global,
    setup: &RunSetup,
    script: &[ScriptRow],
) -> Result<Vec<u64>, AllocError>
    ensures { IfOk result (λ calls. calls.items
        ≡ strangers_in (with_digits setup.now.subscribers) (map row_data script.now)) }
{
    let mut calls = Vec::new(alloc);
    for row in script {
        add_stranger(&mut calls, setup, row.what)?;
    }
    Ok(calls)
}

/// Adds a call that starts, where no subscriber has its calling number.
fn add_stranger(calls: &mut Vec<u64>, setup: &RunSetup, what: Happening) -> Result<(), AllocError>
    ensures { OnOk result (calls.new.items
        ≡ calls.old.items ++ stranger_of (with_digits setup.now.subscribers) (happens_of what)) }
{
    if let Happening::Start { call, calling, .. } = what {
        if setup.account_of(calling).is_none() {
            calls.push(call)?;
        }
    }
    Ok(())
}
