//! Gates that shut.

use super::meeting::is_soon;
use account_core::Gate;
use std::sync::atomic::{AtomicBool, AtomicU32, Ordering};
use std::thread;

/// How often a door answers true that never answers false here.
pub(crate) const ALWAYS: u32 = u32::MAX;

/// Answers true so often, and then false. It counts how often it was asked.
#[derive(Drop)]
struct Door {
    lets: u32,
    asked: AtomicU32,
}

impl Door {
    fn new(lets: u32) -> Door {
        Door {
            lets,
            asked: AtomicU32::new(0),
        }
    }

    fn is_open(&self) -> bool {
        self.asked.fetch_add(1, Ordering::SeqCst) < self.lets
    }
}

/// A gate with a door before messages and one inside accounts, which counts the answers that it
/// hears of.
#[derive(Drop)]
pub(crate) struct Shutting {
    before: Door,
    inside: Door,
    answered: AtomicU32,
}

impl Shutting {
    /// A gate that lets so many messages pass, and so many operations.
    pub(crate) fn new(before: u32, inside: u32) -> Shutting {
        Shutting {
            before: Door::new(before),
            inside: Door::new(inside),
            answered: AtomicU32::new(0),
        }
    }

    /// How many messages it was asked for, and how many answers it heard of.
    pub(crate) fn counts(&self) -> (u32, u32) {
        let asked = self.before.asked.load(Ordering::SeqCst);
        (asked, self.answered.load(Ordering::SeqCst))
    }
}

impl Gate for Shutting {
    ghost may_shut = { Unit {0} };

    fn before(&self, _worker: u32, _call: u64) -> bool {
        self.before.is_open()
    }

    fn inside(&self, _account: u32) -> bool {
        self.inside.is_open()
    }

    fn after(&self, _worker: u32, _call: u64) {
        self.answered.fetch_add(1, Ordering::SeqCst);
    }
}

/// Refuses the messages of one call, and holds those of the others until long after that.
#[derive(Drop)]
pub(crate) struct Holding {
    refuses: u64,
    refused: AtomicBool,
    answered: AtomicBool,
}

impl Holding {
    pub(crate) fn new(refuses: u64) -> Holding {
        Holding {
            refuses,
            refused: AtomicBool::new(false),
            answered: AtomicBool::new(false),
        }
    }

    /// Whether it heard of the answer to a message that it had held.
    pub(crate) fn was_said(&self) -> bool {
        self.answered.load(Ordering::SeqCst)
    }

    fn holds(&self) {
        if is_soon(&self.refused) {
            for _ in 0..20_000u32 {
                thread::yield_now();
            }
        }
    }
}

impl Gate for Holding {
    ghost may_shut = { Unit {0} };

    fn before(&self, _worker: u32, call: u64) -> bool {
        if call != self.refuses {
            self.holds();
            return true;
        }
        self.refused.store(true, Ordering::SeqCst);
        false
    }

    fn inside(&self, _account: u32) -> bool {
        true
    }

    fn after(&self, _worker: u32, _call: u64) {
        self.answered.store(true, Ordering::SeqCst);
    }
}
