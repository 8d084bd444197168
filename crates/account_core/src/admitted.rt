//! Operations that an account admits.

ghost use Rattle.std.specs.Prelude.{◌≡◌};

use crate::Op;
use crate::call_state::CallState;

/// An operation that an account doesn't refuse, with what the account knows of its call.
///
/// `Account::admit` makes it and `Account::enter` takes it, so that the operation is judged once.
#[derive(Clone, Copy)]
pub struct Admitted {
    pub(crate) op: Op,
    pub(crate) call: CallState,
}

impl Admitted {
    /// The operation.
    pub fn op(&self) -> Op
        ensures { result ≡ self.now.op }
    {
        self.op
    }
}
