//! The player of a script: it drives a run by the calls and the recharges of a script, with one
//! gsmSSF for each call.
#![tactic(auto)]

mod network;
mod player;

pub use player::ScriptPlayer;
