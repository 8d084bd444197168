//! The rounds of a run: what the driver gives is handed out to the workers, and their answers go
//! back to it.

ghost use Rattle.std.specs.Prelude.{◌≡◌, ◌≤◌, ◌<◌, ◌^◌, ◌+◌, ◌++◌, ◌∷◌, [], ℕ, List, length, map, not, true, false, None, All, IfOk, IfSome, OnOk};
ghost use Rattle.runs_core.specs.Crews.{HasPlayed, HasServed, IsServedRound};
ghost use Rattle.runs_core.specs.Hearing.{AreAnswers};
ghost use Rattle.runs_core.specs.RunFaults.{AsksNoGate, MayAskGate};
ghost use Rattle.runs_core.specs.Sending.{promises_of};
ghost use Rattle.runs_core.specs.Shares.{worker_of};
ghost use Rattle.runs_core.specs.Workers.{IsReady, accounts_of, number_by, setup_of};
ghost use Rattle.run_values.specs.declared.post.Body.{Body};

use crate::crew::Crew;
use crate::shares::{share_out, worker_of};
use account_core::{Gate, Shared};
use price_core::HORIZON;
use run_values::{Answer, Body, Driver, RunFault};
use std::alloc::Global;
use std::collections::VecDeque;
use std::sync::Wait;

/// Plays rounds until the driver has ended.
pub(crate) fn play<D: Driver, S: Shared, R: Wait, G: Gate>(
    rt: &R,
    alloc: Global,
    driver: &mut D,
    crew: &mut Crew<'_, S, G>,
    gate: &G,
) -> Result<(), RunFault>
    requires fresh { D.given driver.old ≡ [] }
    requires served { HasServed (number_by S.terms) S.key S.reads S.was
        (setup_of crew.old.worker) (accounts_of crew.old.worker) [] [] crew.old }
    requires works { crew.old.failed ≡ None }
    ensures ended { OnOk result (D.ended driver.new ≡ true) }
    ensures agenda { D.agenda driver.new ≡ D.agenda driver.old }
    ensures played { OnOk result (HasPlayed D.given D.ended D.hears
        (number_by S.terms) S.key S.reads S.was
        (setup_of crew.old.worker) (accounts_of crew.old.worker)
        driver.old driver.new crew.new) }
    ensures promises { promises_of crew.new.links.items ≡ promises_of crew.old.links.items }
    ensures fault { MayAskGate G.may_shut result }
    ensures failed { IfSome crew.new.failed (λ why. result ≡ Err why) }
{
    let mut answers = Vec::new(alloc);
    for _ in rt.forever() {
        if !play_round(rt, alloc, driver, crew, gate, &mut answers)? {
            return Ok(());
        }
    }
    unreachable!()
}

/// Plays a round over the answers to the one before, and puts its own in their place. False where
/// the driver has ended.
fn play_round<D: Driver, S: Shared, R: Wait, G: Gate>(
    rt: &R,
    alloc: Global,
    driver: &mut D,
    crew: &mut Crew<'_, S, G>,
    gate: &G,
    answers: &mut Vec<Answer>,
) -> Result<bool, RunFault>
    requires ready { IsReady (number_by S.terms) S.key S.reads crew.old.worker }
    requires works { crew.old.failed ≡ None }
    ensures ended { IfOk result (λ more. D.ended driver.new ≡ not more) }
    ensures agenda { D.agenda driver.new ≡ D.agenda driver.old }
    ensures more { result ≡ Ok true → (added : List (ℕ × Body))
        × (D.given driver.new ≡ D.given driver.old ++ added)
        × IsServedRound (number_by S.terms) S.key S.reads S.was
        (length (D.given driver.old)) added answers.new.items crew.old crew.new }
    ensures hears { OnOk result (D.hears driver.old answers.old.items driver.new) }
    ensures given { result ≡ Ok false → D.given driver.new ≡ D.given driver.old }
    ensures crew { result ≡ Ok false → crew.new ≡ crew.old }
    ensures promises { promises_of crew.new.links.items ≡ promises_of crew.old.links.items }
    ensures fault { MayAskGate G.may_shut result }
    ensures failed { IfSome crew.new.failed (λ why. result ≡ Err why) }
{
    let first = driver.given().len();
    if !driver.round(answers.as_slice())? {
        return Ok(false);
    }
    let added = &driver.given()[first..];
    serve_round(rt, alloc, crew, gate, first, added, answers)?;
    Ok(true)
}

/// Serves the items that a driver has added to so many others, and puts their answers in the place
/// of those before.
fn serve_round<S: Shared, R: Wait, G: Gate>(
    rt: &R,
    alloc: Global,
    crew: &mut Crew<'_, S, G>,
    gate: &G,
    first: usize,
    added: &[(u64, Body)],
    answers: &mut Vec<Answer>,
) -> Result<(), RunFault>
    requires ready { IsReady (number_by S.terms) S.key S.reads crew.old.worker }
    requires works { crew.old.failed ≡ None }
    requires few { first + length added.now < 2 ^ 64 }
    requires moments { All (λ item. item.0 ≤ HORIZON) added.now }
    ensures served { OnOk result (IsServedRound (number_by S.terms) S.key S.reads S.was
        first added.now answers.new.items crew.old crew.new) }
    ensures promises { promises_of crew.new.links.items ≡ promises_of crew.old.links.items }
    ensures fault { MayAskGate G.may_shut result }
    ensures failed { IfSome crew.new.failed (λ why. result ≡ Err why) }
{
    let shares = share_out(alloc, crew.links.len() + 1, first, added)?;
    let mut shares = shares.into_iter();
    let Some(mine) = shares.next() else {
        unreachable!()
    };
    let mut queues = crew.answer_round(rt, alloc, mine, shares, gate)?;
    answers.clear();
    merge(first, added, &mut queues, answers)
}

/// Puts the answers of the workers into the order of the items, of which each has just one.
fn merge(
    first: usize,
    added: &[(u64, Body)],
    queues: &mut Vec<VecDeque<Answer>>,
    answers: &mut Vec<Answer>,
) -> Result<(), RunFault>
    requires some { 0 < length queues.old.items }
    requires few { first + length added.now < 2 ^ 64 }
    requires none { answers.old.items ≡ [] }
    ensures answers { OnOk result (AreAnswers (length queues.old.items) first added.now
        answers.new.items (map (λ queue. queue.items) queues.old.items)) }
    ensures fault { AsksNoGate result }
{
    for place in 0..added.len() {
        let worker = worker_of(queues.len(), &added[place].1);
        let Some(answer) = next_answer(&mut queues[worker], (first + place) as u64) else {
            return Err(RunFault::Channel);
        };
        answers.push(answer)?;
    }
    if none_left(queues.as_slice()) {
        Ok(())
    } else {
        Err(RunFault::Channel)
    }
}

/// Whether all answers have been taken.
fn none_left(queues: &[VecDeque<Answer>]) -> bool
    ensures { result ≡ true → All (λ queue. queue.items ≡ []) queues.now }
{
    for queue in queues {
        if !queue.is_empty() {
            return false;
        }
    }
    true
}

/// Takes a worker's next answer, if it is that of this number.
fn next_answer(queue: &mut VecDeque<Answer>, number: u64) -> Option<Answer>
    ensures number { IfSome result (λ answer. answer.number ≡ number) }
    ensures taken { IfSome result (λ answer. queue.old.items ≡ answer ∷ queue.new.items) }
{
    match queue.pop_front() {
        Some(answer) if answer.number == number => Some(answer),
        _ => None,
    }
}
