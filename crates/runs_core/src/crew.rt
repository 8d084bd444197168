//! The workers of a run.

ghost use Rattle.std.specs.Prelude.{◌≡◌, ◌≤◌, ◌∷◌, ◌⊎◌, [], List, length, map, None, Some, IfErr, IfOk, IfSome, OnOk};
ghost use Rattle.std.specs.Vec.{vec_capacity};
ghost use Rattle.std.specs.Vec.Iter.{into_iter_items};
ghost use Rattle.runs_core.specs.Crews.{joined_lists};
ghost use Rattle.runs_core.specs.Goings.{GoesOn};
ghost use Rattle.runs_core.specs.RunFaults.{MayAskGate};
ghost use Rattle.runs_core.specs.Sending.{heard_by, promises_of, sent_by};
ghost use Rattle.runs_core.specs.Handled.{answer_view};
ghost use Rattle.runs_core.specs.Workers.{IsReady, number_by};
ghost use Rattle.run_values.specs.declared.post.Answer.{Answer};

use crate::ends::Gone;
use crate::worker::Worker;
use crate::worker_link::WorkerLink;
use account_core::{Gate, Shared};
use run_values::{Answer, Post, RunFault};
use std::alloc::Global;
use std::collections::VecDeque;
use std::sync::Wait;
use std::vec::IntoIter;

/// The workers of a run: the main thread serves the first itself, and each other has a thread.
pub(crate) struct Crew<'s, S: Shared, G: Gate> {
    /// The first worker.
    pub worker: Worker<'s, S>,
    /// Why the first worker has failed, if it has.
    pub failed: Option<RunFault>,
    /// The links of the others, in order.
    pub links: Vec<WorkerLink<'s, S, G>>,
}

impl<S: Shared, G: Gate> Crew<'_, S, G> {
    /// Hands out the posts of a round, the first worker's and those of the others, and gives the
    /// answers of each worker, in their order, to be taken one by one. The others get their posts
    /// before the first worker begins. After a fault no answers are left on their way but those of
    /// workers that have failed. The fault of the first worker comes before those of the others.
    pub(crate) fn answer_round<R: Wait>(
        &mut self,
        rt: &R,
        alloc: Global,
        mine: Vec<Post>,
        shares: IntoIter<Vec<Post>>,
        gate: &G,
    ) -> Result<Vec<VecDeque<Answer>>, RunFault>
        requires ready { IsReady (number_by S.terms) S.key S.reads self.old.worker }
        requires works { self.old.failed ≡ None }
        requires count { length (into_iter_items shares) ≡ length self.old.links.items }
        ensures posts { OnOk result (map sent_by self.new.links.items
            ≡ joined_lists (map sent_by self.old.links.items)
            (map (λ share. share.items) (into_iter_items shares))) }
        ensures answers { IfOk result (λ queues. (own : List Answer) × (others : List (List Answer))
            × (map (λ queue. queue.items) queues.items ≡ own ∷ others)
            × GoesOn (number_by S.terms) S.key S.reads S.was
            self.old.worker mine.items (map answer_view own) self.new.worker
            × (map heard_by self.new.links.items
            ≡ joined_lists (map heard_by self.old.links.items) others)
            × (length others ≡ length self.old.links.items)) }
        ensures promises { promises_of self.new.links.items ≡ promises_of self.old.links.items }
        ensures fault { MayAskGate G.may_shut result }
        ensures failed { IfSome self.new.failed (λ why. result ≡ Err why) }
        ensures closed { result ≡ Err RunFault.GateClosed
            → self.new.failed ≡ Some RunFault.GateClosed }
    {
        let mut queues = Vec::with_capacity(alloc, self.links.len() + 1)?;
        let own = self.send_and_answer(rt, alloc, mine, shares, gate);
        let heard = hear_all(rt, alloc, &mut self.links, &mut queues);
        let own = own?;
        heard?;
        queues.insert(0, VecDeque::from_vec(own))?;
        Ok(queues)
    }

    /// Sends the others their posts, and handles those of the first worker. Its fault is put down:
    /// every other fault is `Channel`.
    fn send_and_answer<R: Wait>(
        &mut self,
        rt: &R,
        alloc: Global,
        mine: Vec<Post>,
        shares: IntoIter<Vec<Post>>,
        gate: &G,
    ) -> Result<Vec<Answer>, RunFault>
        requires ready { IsReady (number_by S.terms) S.key S.reads self.old.worker }
        requires works { self.old.failed ≡ None }
        requires count { length (into_iter_items shares) ≡ length self.old.links.items }
        ensures posts { OnOk result (map sent_by self.new.links.items
            ≡ joined_lists (map sent_by self.old.links.items)
            (map (λ share. share.items) (into_iter_items shares))) }
        ensures goes_on { IfOk result (λ answers. GoesOn (number_by S.terms) S.key S.reads S.was
            self.old.worker mine.items (map answer_view answers.items) self.new.worker) }
        ensures heard { map heard_by self.new.links.items ≡ map heard_by self.old.links.items }
        ensures promises { promises_of self.new.links.items ≡ promises_of self.old.links.items }
        ensures fault { MayAskGate G.may_shut result }
        ensures failed { IfSome self.new.failed (λ why. result ≡ Err why) }
        ensures first { IfErr result (λ why. (why ≡ RunFault.Channel)
            ⊎ (self.new.failed ≡ Some why)) }
    {
        send_all(rt, &mut self.links, shares)?;
        let answers = answer_all(rt, alloc, &mut self.worker, mine, gate);
        self.failed = answers.as_ref().err().copied();
        answers
    }
}

/// Sends each of these workers its share.
fn send_all<S: Shared, R: Wait, G: Gate>(
    rt: &R,
    links: &mut Vec<WorkerLink<'_, S, G>>,
    shares: IntoIter<Vec<Post>>,
) -> Result<(), Gone>
    requires count { length (into_iter_items shares) ≡ length links.old.items }
    ensures posts { OnOk result (map sent_by links.new.items ≡ joined_lists
        (map sent_by links.old.items)
        (map (λ share. share.items) (into_iter_items shares))) }
    ensures heard { map heard_by links.new.items ≡ map heard_by links.old.items }
    ensures promises { promises_of links.new.items ≡ promises_of links.old.items }
{
    let mut at = 0;
    for share in shares {
        links[at].send(rt, share)?;
        at += 1;
    }
    Ok(())
}

/// Waits for the answers of each of these workers, also where one has failed, and puts down each
/// worker's, in their order.
fn hear_all<S: Shared, R: Wait, G: Gate>(
    rt: &R,
    alloc: Global,
    links: &mut Vec<WorkerLink<'_, S, G>>,
    queues: &mut Vec<VecDeque<Answer>>,
) -> Result<(), Gone>
    requires none { queues.old.items ≡ [] }
    requires room { length links.old.items ≤ vec_capacity queues.old }
    ensures heard { OnOk result (map heard_by links.new.items
        ≡ joined_lists (map heard_by links.old.items)
        (map (λ queue. queue.items) queues.new.items)) }
    ensures queues { OnOk result (length queues.new.items ≡ length links.old.items) }
    ensures posts { map sent_by links.new.items ≡ map sent_by links.old.items }
    ensures promises { promises_of links.new.items ≡ promises_of links.old.items }
{
    let mut heard = Ok(());
    for at in 0..links.len() {
        match links[at].hear(rt, alloc) {
            Ok(queue) => queues.push_reserved(queue),
            Err(gone) => heard = Err(gone),
        }
    }
    heard
}

/// Handles posts by a worker, one after another, and gives their answers.
pub(crate) fn answer_all<S: Shared, R: Wait, G: Gate>(
    rt: &R,
    alloc: Global,
    worker: &mut Worker<'_, S>,
    posts: Vec<Post>,
    gate: &G,
) -> Result<Vec<Answer>, RunFault>
    requires ready { IsReady (number_by S.terms) S.key S.reads worker.old }
    ensures goes_on { IfOk result (λ answers. GoesOn (number_by S.terms) S.key S.reads S.was
        worker.old posts.items (map answer_view answers.items) worker.new) }
    ensures fault { MayAskGate G.may_shut result }
{
    let mut answers = Vec::with_capacity(alloc, posts.len())?;
    for post in posts {
        answers.push_reserved(worker.handle(rt, post, gate)?);
    }
    Ok(answers)
}
