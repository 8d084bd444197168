//! What the gsmSSF sends.

use crate::SsfFault;
use arrayvec::ArrayVec;
use cap_values::{Cause, Leg, SsfMsg};

/// A moment, in units of 100 ms from the caller's origin: 0 to `HORIZON`.
pub type Moment = u64;

/// What the gsmSSF sends: a message to the service, or an instruction to the switch.
#[derive(Clone, Copy, Debug, PartialEq, Eq)]
pub enum Item {
    /// A message to the service.
    Msg(SsfMsg),
    /// The call goes on.
    Proceed,
    /// The call is cleared with this cause.
    Clear(Cause),
}

/// What is sent, and as of which moment: of a timer's items, the one at which it was due.
#[derive(Clone, Copy, Debug, PartialEq, Eq)]
pub struct Out {
    /// The moment.
    pub at: Moment,
    /// What is sent.
    pub item: Item,
}

impl Default for Out {
    /// `Proceed` at 0: what an unused place of a list holds.
    fn default() -> Out {
        Out {
            at: 0,
            item: Item::Proceed,
        }
    }
}

/// What a call of the gsmSSF gives.
#[derive(Drop)]
pub struct Step {
    /// What was sent, in order.
    pub sent: ArrayVec<Out, 8>,
    /// Why the input was refused, if it was.
    pub fault: Option<SsfFault>,
}

/// An event of the call after it was triggered.
#[derive(Clone, Copy, Debug)]
pub enum BcsmEvent {
    /// No route to the called number was found.
    RouteSelectFailure,
    /// The called party is busy.
    Busy,
    /// The called party didn't answer in time.
    NoAnswer,
    /// The called party answered.
    Answer,
    /// The party of this leg hung up.
    Disconnect(Leg),
    /// The calling party hung up before the answer.
    Abandon,
}
