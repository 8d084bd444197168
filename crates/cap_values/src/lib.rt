//! The values, operations and messages between the gsmSSF and the service (GSM 09.78, CAMEL
//! phase 2), each within its range.
#![tactic(auto)]

mod arming;
mod arms;
mod cause;
mod charge;
mod event;
mod fault;
mod instructions;
mod laws;
mod leg;
mod message;
mod mode;
mod number;
mod operation;

pub use arming::{Arming, Point};
pub use arms::Arms;
pub use cause::Cause;
pub use charge::{Charge, MAX_SWITCH};
pub use event::Event;
pub use fault::ValueFault;
pub use instructions::Instructions;
pub use laws::limits_in_numbers;
pub use leg::Leg;
pub use message::SsfMsg;
pub use mode::Mode;
pub use number::{MAX_DIGITS, Number};
pub use operation::ScfOp;
