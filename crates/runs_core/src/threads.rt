//! The workers of a run are started, and waited for.

ghost use Rattle.std.specs.Prelude.{◌≡◌, ◌<◌, ◌++◌, [], length, map, All, IfErr, OnOk, List};
ghost use Rattle.std.specs.Map.{keys_of};
ghost use Rattle.std.specs.Vec.Iter.{into_iter_items};
ghost use Rattle.runs_core.specs.RunFaults.{AsksNoGate, MayAskGate};
ghost use Rattle.runs_core.specs.Sending.{AreLeftBy, ArePromised, heard_by, promises_of, sent_by};
ghost use Rattle.runs_core.specs.Teams.{AreFresh};
ghost use Rattle.runs_core.specs.Workers.{number_by};

use crate::worker_link::{WorkerLink, start};
use account_core::{Gate, Shared};
use run_values::{RunFault, RunSetup};
use std::alloc::Global;
use std::sync::Wait;
use std::thread::{Scope, Threads};
use std::vec::IntoIter;

/// Starts a worker for each team, in order from number 1 on, and puts down its link. After a fault
/// the links are those of the workers that were started.
pub(crate) fn start_all<'s, 'e, S: Shared, R: Wait + Sync, G: Gate + Sync>(
    scope: &Scope<'s, &'e ()>,
    rt: &'s R,
    alloc: Global,
    setup: &'s RunSetup,
    accounts: &'s [S],
    teams: &mut IntoIter<Vec<S::Seat>>,
    gate: &'s G,
    links: &mut Vec<WorkerLink<'s, S, G>>,
) -> Result<(), RunFault>
    requires numbered { map (number_by S.terms) accounts.now ≡ keys_of setup.now.accounts }
    requires fresh { AreFresh S.reads
        (map S.key accounts.now) 1 (map (λ team. team.items) (into_iter_items teams.old)) }
    requires few { length (into_iter_items teams.old) < 16 }
    requires none { links.old.items ≡ [] }
    ensures count { OnOk result (length links.new.items ≡ length (into_iter_items teams.old)) }
    ensures silent { All (λ link. sent_by link ≡ []) links.new.items }
    ensures unheard { All (λ link. heard_by link ≡ []) links.new.items }
    ensures promised { ArePromised setup.now accounts.now 1 (promises_of links.new.items) }
    ensures fault { AsksNoGate result }
{
    links.reserve_exact(teams.len())?;
    let mut number = 1;
    while let Some(team) = teams.next() {
        let link = start(scope, rt, alloc, number, setup, accounts, team, gate)?;
        links.push_reserved(link);
        number += 1;
    }
    Ok(())
}

/// Waits for all workers to end, after a last mail to each, and puts down what each leaves, behind
/// what is there. The fault is that of a worker that has failed.
pub(crate) fn finish_all<S: Shared, R: Wait + Threads, G: Gate>(
    rt: &R,
    links: Vec<WorkerLink<'_, S, G>>,
    left: &mut Vec<Vec<S::Seat>>,
) -> Result<(), RunFault>
    ensures left { OnOk result ((teams : List (List S.Seat))
        × (map (λ team. team.items) left.new.items
        ≡ map (λ team. team.items) left.old.items ++ teams)
        × AreLeftBy S.reads S.key S.was links.entry.items teams) }
    ensures fault { MayAskGate G.may_shut result }
{
    let mut fault = None;
    // A `for` takes only what can be dropped.
    let mut links = links.into_iter();
    while let Some(link) = links.next() {
        if let Err(why) = link.finish(rt, left) {
            fault = fault.or(Some(why));
        }
    }
    links.destroy_empty();
    match fault {
        None => Ok(()),
        Some(why) => Err(why),
    }
}
