//! What a worker's thread promises.

use crate::ends::{Inbox, Outbox};
use account_core::{Gate, Shared};
use run_values::{Answer, Post, RunFault, RunSetup};
use std::snapshot::Snapshot;
use std::thread::Promise;

/// What a worker's thread has and gives back: a seat of each account, and its ends of the two
/// mailboxes.
#[derive(Drop)]
pub(crate) struct Desk<S: Shared> {
    pub seats: Vec<S::Seat>,
    pub inbox: Inbox<Vec<Post>>,
    pub outbox: Outbox<Vec<Answer>>,
}

/// What a worker's thread promises: it has handled just the posts that it took, up to a Close, its
/// seats are those that it was given, with the entries of its posts, and it has sent the answers.
#[derive(Drop)]
pub(crate) struct WorkerPromise<'s, S: Shared, G: Gate> {
    pub number: u32,
    pub setup: &'s RunSetup,
    pub accounts: &'s [S],
    pub gate: &'s G,
    /// What it started with.
    pub desk: Snapshot<Desk<S>>,
}

impl<'s, S: Shared, G: Gate> Promise<Result<Desk<S>, RunFault>> for WorkerPromise<'s, S, G> {
    ghost use Rattle.std.specs.Prelude.{◌≡◌, true, map, IfOk};
    ghost use Rattle.runs_core.specs.Teams.{IsLeft};
    ghost use Rattle.runs_core.specs.Mails.{items_in};
    ghost use Rattle.runs_core.specs.Ends.{IsSameInbox, IsSameOutbox, sent, taken};
    ghost use Rattle.runs_core.specs.Handled.{answer_view};
    ghost use Rattle.runs_core.specs.Logs.{has_close};
    ghost use Rattle.runs_core.specs.RunFaults.{MayAskGate};

    ghost kept_by = { λ p r. IfOk r (λ left. IsSameInbox p.desk.value.inbox left.inbox
        × IsSameOutbox p.desk.value.outbox left.outbox
        × (has_close (taken left.inbox) ≡ true)
        × IsLeft S.reads S.was (map S.key p.accounts.now)
        p.setup.now p.number (items_in (taken left.inbox))
        (map answer_view (items_in (sent left.outbox))) left.seats.items)
        × MayAskGate G.may_shut r };
}
