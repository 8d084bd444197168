//! What accounts are to answer, in short.

use account_core::{AccountFault, Reply};

pub(crate) type Answer = Result<Reply, AccountFault>;

/// What an account is to answer: the fields of the reply, in their order. The last of them is what
/// is available then.
#[derive(Clone, Copy)]
pub(crate) enum Want {
    Credited(u64),
    CreditOver(u64),
    Granted(u32, bool, u64),
    Denied(u64),
    Settled(u64, u64),
    Forfeit(u64, u64),
    Returned(u64, u64),
    Fault(AccountFault),
}

/// The answer that is wanted.
pub(crate) fn answer_of(want: Want) -> Answer {
    Ok(match want {
        Want::Credited(available) => Reply::Credited { available },
        Want::CreditOver(available) => Reply::CreditOver { available },
        Want::Granted(units, last, available) => Reply::Granted {
            units,
            last,
            available,
        },
        Want::Denied(available) => Reply::Denied { available },
        Want::Settled(paid, available) => Reply::Settled { paid, available },
        Want::Forfeit(paid, available) => Reply::Forfeit { paid, available },
        Want::Returned(paid, available) => Reply::Returned { paid, available },
        Want::Fault(fault) => return Err(fault),
    })
}
