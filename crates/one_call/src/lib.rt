//! One call driven end to end, from the switch that meets its events, over the
//! gsmSSF and the service, to the account that pays for it.
#![tactic(auto)]

mod account_port;
mod call_end;
mod converse;
mod counts;
mod driving;
mod fault;
mod hear;
mod moments;
mod rounds;
mod script;
mod shared_port;
mod step;

pub use account_port::{AccountPort, Port};
pub use call_end::CallEnd;
pub use driving::drive_call;
pub use fault::DriveFault;
pub use shared_port::SharedPort;
