//! A gate at which two calls, or two accounts, wait for each other.

use account_core::Gate;
use std::sync::atomic::{AtomicBool, Ordering};
use std::thread;

/// What meets: calls before they are handled, or accounts while they are held.
#[derive(Clone, Copy, PartialEq, Eq)]
pub(crate) enum Of {
    Calls,
    Accounts,
}

/// Holds each of two numbers until it was asked for the other too; after a while it answers false.
/// It keeps in mind whether it was shown a call with another worker than the one of two that serves
/// it.
#[derive(Drop)]
pub(crate) struct Meeting {
    of: Of,
    first: (u64, AtomicBool),
    second: (u64, AtomicBool),
    mistaken: AtomicBool,
}

impl Meeting {
    pub(crate) fn new(of: Of, first: u64, second: u64) -> Meeting {
        Meeting {
            of,
            first: (first, AtomicBool::new(false)),
            second: (second, AtomicBool::new(false)),
            mistaken: AtomicBool::new(false),
        }
    }

    /// Whether it was shown a call with another worker.
    pub(crate) fn is_mistaken(&self) -> bool {
        self.mistaken.load(Ordering::SeqCst)
    }

    fn look(&self, worker: u32, call: u64) {
        if u64::from(worker) != call % 2 {
            self.mistaken.store(true, Ordering::SeqCst);
        }
    }

    fn meet(&self, number: u64) -> bool {
        if number == self.first.0 {
            self.first.1.store(true, Ordering::SeqCst);
            is_soon(&self.second.1)
        } else if number == self.second.0 {
            self.second.1.store(true, Ordering::SeqCst);
            is_soon(&self.first.1)
        } else {
            true
        }
    }
}

/// Waits for a flag for at most 1,000,000,000 turns.
pub(crate) fn is_soon(flag: &AtomicBool) -> bool {
    for _ in 0..1_000_000_000u32 {
        if flag.load(Ordering::SeqCst) {
            return true;
        }
        thread::yield_now();
    }
    false
}

impl Gate for Meeting {
    ghost may_shut = { Unit {0} };

    fn before(&self, worker: u32, call: u64) -> bool {
        self.look(worker, call);
        self.of != Of::Calls || self.meet(call)
    }

    fn inside(&self, account: u32) -> bool {
        self.of != Of::Accounts || self.meet(u64::from(account))
    }

    fn after(&self, worker: u32, call: u64) {
        self.look(worker, call);
    }
}
