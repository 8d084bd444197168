//! An account that is asked by itself.

use crate::asks::{Account as Looks, LIMIT, OPENING, Seen, Watched, are_all, ask_all, counted};
use crate::closing;
use crate::outcome::{Course, expect};
use account_core::{Account, Entry};
use one_call::AccountPort;
use std::alloc::{AllocError, Global};

/// The account of each call here.
pub(crate) fn account(alloc: Global) -> Account {
    Account::new(alloc, OPENING, None, LIMIT)
}

fn looks_of(account: &Account) -> Looks {
    Looks {
        entries: counted(account.history()),
        available: account.available(),
        paid: (account.paid(1), account.paid(2)),
    }
}

impl Watched for AccountPort {
    fn seen(&self) -> Seen {
        Seen {
            account: Some(looks_of(&self.account)),
            mine: None,
        }
    }
}

/// Asks an account by itself. Its history is legal, and is so after its own opening alone.
pub(crate) fn applies(alloc: Global) -> Course {
    let mut port = AccountPort::new(account(alloc), 0);
    let outcome = ask_all(&mut port)?;
    let entries = port.account.history();
    expect(are_all(entries, 0) && are_of_opening(alloc, entries)?)?;
    Ok(outcome)
}

/// Closes a call of an account by itself.
pub(crate) fn closes_a_call(alloc: Global) -> Course {
    closing::closes(&mut AccountPort::new(account(alloc), 0))
}

/// Whether entries are legal, and so after this opening alone.
fn are_of_opening(alloc: Global, entries: &[Entry]) -> Result<bool, AllocError> {
    Ok(
        Account::check(alloc, OPENING, None, entries)?
            && !Account::check(alloc, OPENING - 1, None, entries)?,
    )
}
