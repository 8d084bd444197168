//! Gates, by which a test holds calls at chosen places.

ghost use Rattle.std.specs.Prelude.{◌≡◌, false};

/// Is asked on the way of a call, from many threads. A gate that answers false refuses the call;
/// one that takes its time holds it.
///
/// Its type states whether it may answer false.
pub trait Gate {
    ghost may_shut: { Type 0 };

    /// Asked by a worker before it takes up a message of a call.
    fn before(&self, worker: u32, call: u64) -> bool
        ensures { result ≡ false → may_shut };

    /// Asked while an account is held for an operation, before its entry.
    fn inside(&self, account: u32) -> bool
        ensures { result ≡ false → may_shut };

    /// Called by a worker after it has answered a message of a call.
    fn after(&self, worker: u32, call: u64);
}

/// A gate that never answers false.
#[derive(Clone, Copy)]
pub struct OpenGate;

impl Gate for OpenGate {
    ghost may_shut = { ⊥ };

    fn before(&self, _worker: u32, _call: u64) -> bool {
        true
    }

    fn inside(&self, _account: u32) -> bool {
        true
    }

    fn after(&self, _worker: u32, _call: u64) {}
}
