//! The main thread's side of a worker in a thread of its own.

ghost use Rattle.std.specs.Prelude.{◌≡◌, ◌++◌, ◌∷◌, [], true, map, IfErr, IfOk, OnOk, List};
ghost use Rattle.std.specs.Map.{keys_of};
ghost use Rattle.runs_core.specs.Mails.{items_in};
ghost use Rattle.runs_core.specs.RunFaults.{AsksNoGate, MayAskGate};
ghost use Rattle.runs_core.specs.Teams.{IsFresh, IsLeft};
ghost use Rattle.runs_core.specs.Goings.{GoesOn};
ghost use Rattle.runs_core.specs.Ends.{ArePaired, IsSameInbox, IsSameOutbox, sent, taken};
ghost use Rattle.runs_core.specs.Handled.{answer_view};
ghost use Rattle.runs_core.specs.Logs.{has_close};
ghost use Rattle.runs_core.specs.Workers.{IsReady, number_by};
ghost use Rattle.runs_core.specs.declared.mailboxes.Mail.TheVariants as mail;
ghost use Rattle.run_values.specs.declared.post.Answer.{Answer};

use crate::crew::answer_all;
use crate::ends::{Gone, Inbox, Outbox};
use crate::mailboxes::{Mail, compare_ends, mailbox};
use crate::promise::{Desk, WorkerPromise};
use crate::worker::Worker;
use account_core::{Gate, Shared};
use run_values::{Answer, Post, RunFault, RunSetup};
use std::alloc::{AllocError, Global};
use std::collections::VecDeque;
use std::snapshot::Snapshot;
use std::sync::Wait;
use std::thread::{PromisedHandle, Scope, Threads};

/// How many mails wait in a mailbox at most: those of one round, and the last one.
const MAILBOX: u32 = 2;

/// The two ends of a mailbox of lists.
type Mailbox<T> = (Outbox<Vec<T>>, Inbox<Vec<T>>);

/// A worker's link: the mailboxes of its posts and its answers, and its thread. At most one round
/// is on its way, so no end waits for room. It can't be dropped: each worker is waited for.
pub(crate) struct WorkerLink<'s, S: Shared, G: Gate> {
    pub outbox: Outbox<Vec<Post>>,
    pub inbox: Inbox<Vec<Answer>>,
    /// Whether the answers to a round are on their way.
    pub awaits: bool,
    pub child: PromisedHandle<Result<Desk<S>, RunFault>, WorkerPromise<'s, S, G>>,
    pub ghost posts_paired: { ArePaired outbox child.promise.desk.value.inbox },
    pub ghost answers_paired: { ArePaired child.promise.desk.value.outbox inbox },
}

/// Starts a worker in a thread of its own.
pub(crate) fn start<'s, 'e, S: Shared, R: Wait + Sync, G: Gate + Sync>(
    scope: &Scope<'s, &'e ()>,
    rt: &'s R,
    alloc: Global,
    number: u32,
    setup: &'s RunSetup,
    accounts: &'s [S],
    seats: Vec<S::Seat>,
    gate: &'s G,
) -> Result<WorkerLink<'s, S, G>, RunFault>
    requires numbered { map (number_by S.terms) accounts.now ≡ keys_of setup.now.accounts }
    requires fresh { IsFresh S.reads (map S.key accounts.now) number seats.items }
    ensures number { IfOk result (λ link. link.child.promise.number ≡ number) }
    ensures setup { IfOk result (λ link. link.child.promise.setup.now ≡ setup.now) }
    ensures accounts { IfOk result (λ link. link.child.promise.accounts.now ≡ accounts.now) }
    ensures sent { IfOk result (λ link. sent link.outbox ≡ []) }
    ensures heard { IfOk result (λ link. taken link.inbox ≡ []) }
    ensures fault { AsksNoGate result }
{
    let ((outbox, posts), (answers, inbox)) = mailboxes(alloc)?;
    let desk = Desk {
        seats,
        inbox: posts,
        outbox: answers,
    };
    let promise = WorkerPromise {
        number,
        setup,
        accounts,
        gate,
        desk: Snapshot::of(&desk),
    };
    let serve = move || -> Result<Desk<S>, RunFault>
        requires { (map (number_by S.terms) accounts.now ≡ keys_of setup.now.accounts)
            × IsFresh S.reads (map S.key accounts.now) number desk.seats.items
            × (taken desk.inbox ≡ []) × (sent desk.outbox ≡ []) }
        ensures { IfOk result (λ left. IsSameInbox desk.inbox left.inbox
            × IsSameOutbox desk.outbox left.outbox
            × (has_close (taken left.inbox) ≡ true)
            × IsLeft S.reads S.was (map S.key accounts.entry.now)
            setup.entry.now number (items_in (taken left.inbox))
            (map answer_view (items_in (sent left.outbox))) left.seats.items)
            × MayAskGate G.may_shut result }
    { work(rt, alloc, number, setup, accounts, desk, gate) };
    match scope.spawn_with(promise, serve) {
        Ok(child) => Ok(WorkerLink {
            outbox,
            inbox,
            awaits: false,
            child,
        }),
        Err(refused) => {
            // Dropped by name, they make the proof shorter.
            drop(inbox);
            drop(outbox);
            drop(refused);
            Err(RunFault::Thread)
        }
    }
}

/// Opens the mailbox of a worker's posts, and that of its answers.
fn mailboxes(alloc: Global) -> Result<(Mailbox<Post>, Mailbox<Answer>), AllocError>
    ensures posts { IfOk result (λ boxes. ArePaired boxes.0.0 boxes.0.1
        × (sent boxes.0.0 ≡ []) × (taken boxes.0.1 ≡ [])) }
    ensures answers { IfOk result (λ boxes. ArePaired boxes.1.0 boxes.1.1
        × (sent boxes.1.0 ≡ []) × (taken boxes.1.1 ≡ [])) }
{
    let posts = mailbox(alloc, MAILBOX)?;
    let answers = mailbox(alloc, MAILBOX)?;
    Ok((posts, answers))
}

impl<S: Shared, G: Gate> WorkerLink<'_, S, G> {
    /// Sends the posts of a round to the worker, if there are any.
    pub(crate) fn send<R: Wait>(&mut self, rt: &R, posts: Vec<Post>) -> Result<(), Gone>
        ensures posts { OnOk result (items_in (sent self.new.outbox)
            ≡ items_in (sent self.old.outbox) ++ posts.items) }
        ensures inbox { self.new.inbox ≡ self.old.inbox }
        ensures child { self.new.child ≡ self.old.child }
    {
        if posts.is_empty() {
            return Ok(());
        }
        self.outbox.send_mail(rt, Mail::Work(posts))?;
        self.awaits = true;
        Ok(())
    }

    /// Waits for the answers to the round, if posts were sent.
    pub(crate) fn hear<R: Wait>(&mut self, rt: &R, alloc: Global) -> Result<VecDeque<Answer>, Gone>
        ensures answers { IfOk result (λ answers. items_in (taken self.new.inbox)
            ≡ items_in (taken self.old.inbox) ++ answers.items) }
        ensures outbox { self.new.outbox ≡ self.old.outbox }
        ensures child { self.new.child ≡ self.old.child }
    {
        if !self.awaits {
            return Ok(VecDeque::new(alloc));
        }
        self.awaits = false;
        match self.inbox.take_mail(rt) {
            Ok(Mail::Work(answers)) => Ok(VecDeque::from_vec(answers)),
            _ => Err(Gone),
        }
    }

    /// Sends the last mail, waits for the worker to end, and puts down what it leaves.
    pub(crate) fn finish<R: Wait + Threads>(
        self,
        rt: &R,
        left: &mut Vec<Vec<S::Seat>>,
    ) -> Result<(), RunFault>
        ensures left { OnOk result ((team : List S.Seat)
            × (map (λ team. team.items) left.new.items
            ≡ map (λ team. team.items) left.old.items ++ team ∷ [])
            × IsLeft S.reads S.was
            (map S.key self.entry.child.promise.accounts.now)
            self.entry.child.promise.setup.now self.entry.child.promise.number
            (items_in (sent self.entry.outbox))
            (map answer_view (items_in (taken self.entry.inbox))) team) }
        ensures fault { MayAskGate G.may_shut result }
    {
        let WorkerLink {
            mut outbox,
            inbox,
            awaits: _,
            child,
        } = self;
        let _ = outbox.send_mail(rt, Mail::Close);
        match child.join(rt) {
            Ok(finished) => {
                let Desk {
                    seats,
                    inbox: posts,
                    outbox: answers,
                } = finished;
                compare_all(rt, outbox, posts, answers, inbox)?;
                left.reserve(1)?;
                left.push_reserved(seats);
                Ok(())
            }
            Err(why) => {
                // Dropped by name, as in `start`.
                drop(inbox);
                drop(outbox);
                Err(why)
            }
        }
    }
}

/// Compares the ends of the two mailboxes of a worker that has ended, once its last mail is taken.
fn compare_all<R: Wait>(
    rt: &R,
    outbox: Outbox<Vec<Post>>,
    posts: Inbox<Vec<Post>>,
    answers: Outbox<Vec<Answer>>,
    mut inbox: Inbox<Vec<Answer>>,
) -> Result<(), Gone>
    requires posts { ArePaired outbox posts }
    requires answers { ArePaired answers inbox }
    ensures posts { has_close (taken posts) ≡ true → taken posts ≡ sent outbox }
    ensures answers { OnOk result (sent answers ≡ taken inbox ++ mail.Close ∷ []) }
{
    compare_ends(outbox, posts);
    let last = take_last(rt, &mut inbox);
    compare_ends(answers, inbox);
    last
}

/// Takes the last mail: no answers are left before it.
fn take_last<R: Wait>(rt: &R, inbox: &mut Inbox<Vec<Answer>>) -> Result<(), Gone>
    ensures same { IsSameInbox inbox.old inbox.new }
    ensures last { OnOk result (taken inbox.new ≡ taken inbox.old ++ mail.Close ∷ []) }
{
    match inbox.take_mail(rt) {
        Ok(Mail::Close) => Ok(()),
        _ => Err(Gone),
    }
}

/// Handles a worker's posts up to the last mail, and gives its desk back, or a fault.
fn work<S: Shared, R: Wait, G: Gate>(
    rt: &R,
    alloc: Global,
    number: u32,
    setup: &RunSetup,
    accounts: &[S],
    desk: Desk<S>,
    gate: &G,
) -> Result<Desk<S>, RunFault>
    requires numbered { map (number_by S.terms) accounts.now ≡ keys_of setup.now.accounts }
    requires fresh { IsFresh S.reads (map S.key accounts.now) number desk.seats.items }
    requires taken { taken desk.inbox ≡ [] }
    requires sent { sent desk.outbox ≡ [] }
    ensures inbox { IfOk result (λ left. IsSameInbox desk.inbox left.inbox) }
    ensures outbox { IfOk result (λ left. IsSameOutbox desk.outbox left.outbox) }
    ensures closed { IfOk result (λ left. has_close (taken left.inbox) ≡ true) }
    ensures left { IfOk result (λ left. IsLeft S.reads S.was
        (map S.key accounts.now) setup.now number (items_in (taken left.inbox))
        (map answer_view (items_in (sent left.outbox))) left.seats.items) }
    ensures fault { MayAskGate G.may_shut result }
{
    let Desk {
        seats,
        mut inbox,
        mut outbox,
    } = desk;
    match serve_posts(
        rt,
        alloc,
        number,
        setup,
        accounts,
        seats,
        &mut inbox,
        &mut outbox,
        gate,
    ) {
        Ok(seats) => Ok(Desk {
            seats,
            inbox,
            outbox,
        }),
        Err(why) => {
            drop(outbox);
            drop(inbox);
            Err(why)
        }
    }
}

/// Handles the posts of each round up to the last mail, answers them, and gives the worker's seats.
fn serve_posts<S: Shared, R: Wait, G: Gate>(
    rt: &R,
    alloc: Global,
    number: u32,
    setup: &RunSetup,
    accounts: &[S],
    seats: Vec<S::Seat>,
    inbox: &mut Inbox<Vec<Post>>,
    outbox: &mut Outbox<Vec<Answer>>,
    gate: &G,
) -> Result<Vec<S::Seat>, RunFault>
    requires numbered { map (number_by S.terms) accounts.now ≡ keys_of setup.now.accounts }
    requires fresh { IsFresh S.reads (map S.key accounts.now) number seats.items }
    requires taken { taken inbox.old ≡ [] }
    requires sent { sent outbox.old ≡ [] }
    ensures inbox { IsSameInbox inbox.old inbox.new }
    ensures outbox { IsSameOutbox outbox.old outbox.new }
    ensures closed { OnOk result (has_close (taken inbox.new) ≡ true) }
    ensures left { IfOk result (λ seats. IsLeft S.reads S.was
        (map S.key accounts.now) setup.now number (items_in (taken inbox.new))
        (map answer_view (items_in (sent outbox.new))) seats.items) }
    ensures fault { MayAskGate G.may_shut result }
{
    let mut worker = Worker::new(alloc, number, setup, accounts, seats);
    answer_rounds(rt, alloc, &mut worker, inbox, outbox, gate)?;
    let _ = outbox.send_mail(rt, Mail::Close);
    Ok(worker.finish())
}

/// Takes the posts of each round and sends their answers, up to the last mail.
fn answer_rounds<S: Shared, R: Wait, G: Gate>(
    rt: &R,
    alloc: Global,
    worker: &mut Worker<'_, S>,
    inbox: &mut Inbox<Vec<Post>>,
    outbox: &mut Outbox<Vec<Answer>>,
    gate: &G,
) -> Result<(), RunFault>
    requires ready { IsReady (number_by S.terms) S.key S.reads worker.old }
    requires taken { taken inbox.old ≡ [] }
    requires sent { sent outbox.old ≡ [] }
    ensures inbox { IsSameInbox inbox.old inbox.new }
    ensures outbox { IsSameOutbox outbox.old outbox.new }
    ensures closed { OnOk result (has_close (taken inbox.new) ≡ true) }
    ensures goes_on { OnOk result (GoesOn (number_by S.terms) S.key S.reads S.was worker.old
        (items_in (taken inbox.new)) (map answer_view (items_in (sent outbox.new))) worker.new) }
    ensures fault { MayAskGate G.may_shut result }
{
    for _ in rt.forever() {
        match inbox.take_mail(rt) {
            Ok(Mail::Work(posts)) => answer_posts(rt, alloc, worker, posts, outbox, gate)?,
            Ok(Mail::Close) => return Ok(()),
            Err(Gone) => return Err(RunFault::Channel),
        }
    }
    unreachable!()
}

/// Handles the posts of a round, and sends their answers.
fn answer_posts<S: Shared, R: Wait, G: Gate>(
    rt: &R,
    alloc: Global,
    worker: &mut Worker<'_, S>,
    posts: Vec<Post>,
    outbox: &mut Outbox<Vec<Answer>>,
    gate: &G,
) -> Result<(), RunFault>
    requires ready { IsReady (number_by S.terms) S.key S.reads worker.old }
    ensures outbox { IsSameOutbox outbox.old outbox.new }
    ensures goes_on { OnOk result ((answers : List Answer)
        × (items_in (sent outbox.new) ≡ items_in (sent outbox.old) ++ answers)
        × GoesOn (number_by S.terms) S.key S.reads S.was
        worker.old posts.items (map answer_view answers) worker.new) }
    ensures fault { MayAskGate G.may_shut result }
{
    let answers = answer_all(rt, alloc, worker, posts, gate)?;
    outbox.send_mail(rt, Mail::Work(answers))?;
    Ok(())
}
