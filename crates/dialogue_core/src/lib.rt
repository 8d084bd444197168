//! The service: the charging logic of the gsmSCF. It reserves credit for a call, grants the time
//! that the account covers, settles what the call reports, asks for more while the call goes on,
//! and returns what is left when it ends (GSM 03.78, gsmSCF).
//!
//! The gsmSSF and the account are only spoken to: a dialogue takes a message of the one or a reply
//! of the other, and answers with its next turn.
#![tactic(auto)]

mod config;
mod dialogue;
mod fault;
mod operations;
mod state;
mod talk;

pub use config::ServiceConfig;
pub use dialogue::{Dialogue, Turn};
pub use fault::DialogueFault;
pub use talk::{Asker, converse};
