//! The gsmSSF: what the switch runs for one prepaid call (GSM 03.78, CAMEL phase 2).
#![tactic(auto)]

mod config;
mod deliveries;
mod events;
mod fault;
mod instructions;
mod item;
mod laws;
mod operations;
mod sending;
mod ssf;
mod stage;
mod timers;

pub use config::{DefaultHandling, SsfConfig};
pub use deliveries::{Delivery, next_delivery, next_moment, send, take_due};
pub use fault::SsfFault;
pub use instructions::operations_of;
pub use item::{BcsmEvent, Item, Moment, Out, Step};
pub use laws::{
    each_report_fits, initial_dp_is_first, reports_are_in_range, the_answer_stays, the_switch_stays,
};
pub use ssf::Ssf;
pub use stage::State;
