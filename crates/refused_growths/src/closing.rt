//! A call that was granted is closed while no memory is left.

ghost use Rattle.std.specs.Prelude.{◌≤◌, IfOk};
ghost use Rattle.refused_growths.specs.declared.closing.TheConstants.{CREDITS};

use crate::asks::{reserve, settle};
use crate::outcome::{Course, Outcome, expect};
use account_core::{AccountFault, Op, Reply};
use one_call::Port;

/// How many credits are asked for at most before the call is closed: more than there is room for
/// without memory.
const CREDITS: u64 = 20;

/// Reserves for a call; credits 1 and again 1 until there is no memory for it; then reports and
/// returns the call.
pub(crate) fn closes<P: Port>(port: &mut P) -> Course {
    let granted = Reply::Granted {
        units: 600,
        last: false,
        available: 450,
    };
    expect(port.ask(reserve(1))? == granted)?;
    let credits = credit(port)?;
    let paid = 1050;
    let available = 450 + credits;
    let settled = port.ask(settle(1));
    expect(settled == Ok(Reply::Settled { paid, available }))?;
    let returned = port.ask(Op::Return { call: 1 });
    expect(returned == Ok(Reply::Returned { paid, available }))?;
    Ok(if credits == CREDITS {
        Outcome::Answered
    } else {
        Outcome::Refused
    })
}

/// Credits 1 and again 1, and says how often there was memory for it.
fn credit<P: Port>(port: &mut P) -> Result<u64, Outcome>
    ensures { IfOk result (λ credits. credits ≤ CREDITS) }
{
    for credits in 0..CREDITS {
        let credit = Op::Credit {
            amount: 1,
            until: None,
        };
        match port.ask(credit) {
            Ok(reply) => expect(reply.available() == 451 + credits)?,
            Err(AccountFault::OutOfMemory) => return Ok(credits),
            Err(_) => return Err(Outcome::Wrong),
        }
    }
    Ok(CREDITS)
}
