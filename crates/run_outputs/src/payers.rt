//! The accounts of the calls of a script.

ghost use Rattle.std.specs.Prelude.{◌≡◌, ℕ, map, IfOk, OnOk};
ghost use Rattle.std.specs.Option.{option_or};
ghost use Rattle.run_outputs.specs.Parts.{HavePayers, payer_by, payer_in, payer_of};
ghost use Rattle.run_texts.specs.Views.{happens_of, row_data, with_digits};

use account_core::RisingMap;
use run_texts::{Happening, ScriptRow};
use run_values::RunSetup;
use std::alloc::{AllocError, Global};

/// The account of each call that a subscriber starts.
pub(crate) fn payers_in(
    alloc: Global,
    setup: &RunSetup,
    script: &[ScriptRow],
) -> Result<RisingMap<u32>, AllocError>
    ensures { IfOk result (HavePayers
        (payer_of (with_digits setup.now.subscribers) (map row_data script.now))) }
{
    let mut payers = RisingMap::new(alloc);
    for row in script {
        note(&mut payers, setup, row.what)?;
    }
    Ok(payers)
}

/// Keeps the account of a call that starts, where it has none yet.
fn note(payers: &mut RisingMap<u32>, setup: &RunSetup, what: Happening) -> Result<(), AllocError>
    ensures { OnOk result ((call : ℕ) → payer_in payers.new call
        ≡ option_or (payer_in payers.old call)
        (payer_by (with_digits setup.now.subscribers) call (happens_of what))) }
{
    let Happening::Start { call, calling, .. } = what else {
        return Ok(());
    };
    let Some(account) = setup.account_of(calling) else {
        return Ok(());
    };
    if payers.get(call).is_none() {
        payers.insert(call, account)?;
    }
    Ok(())
}
