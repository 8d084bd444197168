//! Runs: a driver's posts are handled by workers, all but the first in threads of their own, which
//! get them by mailboxes; a run ends with the books of its accounts.
#![tactic(auto)]

mod acting;
mod crew;
mod ends;
mod laws;
mod mailboxes;
mod opened;
mod promise;
mod rounds;
mod serving;
mod shares;
mod threads;
mod worker;
mod worker_link;

pub use laws::books_are_right;
pub use serving::{serve, serve_over};
pub use shares::{handled, refusals};
pub use worker::Worker;
