//! How the calls of a run start.

ghost use Rattle.std.specs.Prelude.{◌≡◌, ◌∷◌, ◌++◌, [], ℕ, List, IfOk, OnOk};
ghost use Rattle.run_outputs.specs.Calls.{start_by};
ghost use Rattle.run_outputs.specs.KeptRecords.{HaveStarts};
ghost use Rattle.run_values.specs.declared.post.Body.{Body};

use cap_values::{Number, SsfMsg};
use run_values::Body;
use std::alloc::{AllocError, Global};
use std::collections::BTreeMap;

/// How a call starts, as its InitialDP says.
#[derive(Clone, Copy)]
pub(crate) struct Start {
    /// The moment, in units of 100 ms.
    pub at: u64,
    /// The calling party.
    pub calling: Number,
    /// The number that was dialled.
    pub called: Number,
}

/// The start of each call that has one, by rising number.
pub(crate) fn starts_in(
    alloc: Global,
    given: &[(u64, Body)],
) -> Result<BTreeMap<u64, Start>, AllocError>
    ensures { IfOk result (λ starts. HaveStarts starts given.now) }
{
    let mut starts = BTreeMap::new(alloc);
    for (at, body) in given {
        hear(&mut starts, *at, *body)?;
    }
    Ok(starts)
}

/// Keeps the start that a post says, where it is the first of its call.
fn hear(starts: &mut BTreeMap<u64, Start>, at: u64, body: Body) -> Result<(), AllocError>
    ensures { OnOk result ((given : List (ℕ × Body)) → HaveStarts starts.old given
        → HaveStarts starts.new (given ++ (at, body) ∷ [])) }
{
    let Body::Ssf { call, msg } = body else {
        return Ok(());
    };
    let Some(start) = start_by(at, msg) else {
        return Ok(());
    };
    if !starts.contains_key(&call) {
        starts.insert(call, start)?;
    }
    Ok(())
}

/// The start that a message says, if it is one.
fn start_by(at: u64, message: SsfMsg) -> Option<Start>
    ensures { result ≡ start_by at message }
{
    match message {
        SsfMsg::InitialDp {
            calling,
            called,
            ..
        } => Some(Start {
            at,
            calling,
            called,
        }),
        SsfMsg::EventReport { .. } | SsfMsg::ChargingReport { .. } | SsfMsg::Ended => None,
    }
}
