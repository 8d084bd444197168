//! The parts of a run, played by threads.

ghost use Rattle.std.specs.Prelude.{◌≡◌, ◌≢◌, ◌≤◌, ◌<◌, ℕ, All, IfErr, IfOk, Ok, length, map, slice_index_or, true};
ghost use Rattle.run_command.specs.Answers.{MayFail};
ghost use Rattle.run_command.specs.InParts.{ArePlayed};
ghost use Rattle.run_command.specs.Jobs.{HasPlayedPart, IsFirstPartFault, IsInOrder};
ghost use Rattle.run_command.specs.declared.error.RunError.TheVariants as error;
ghost use Rattle.run_command.specs.declared.jobs.Job.{Job};
ghost use Rattle.run_values.specs.Options.{ask_of};
ghost use Rattle.run_texts.specs.Views.{rows_are_in_order};
ghost use Rattle.run_values.specs.declared.run_fault.RunFault.TheVariants as run;

use crate::RunError;
use crate::parts::play_part;
use crate::watching::{Watch, Watching};
use price_core::MAX_MOMENT;
use run_outputs::{Firsts, Part};
use run_texts::ScriptRow;
use run_values::{RunFault, RunOptions, RunSetup};
use std::alloc::{AllocError, Global};
use std::sync::Wait;
use std::thread::Threads;
use std::{mem, thread};

/// A part that is to be played, or was.
#[derive(Drop)]
pub(crate) struct Job {
    /// What the script says of it, and nothing once it was played.
    pub script: Vec<ScriptRow>,
    /// What has come of it: out of memory until it was played.
    pub played: Result<Part, RunError>,
}

/// Plays parts by at most so many threads, and gives what is kept of each, in order. All threads
/// are waited for. The fault is that of the first part that has one.
pub(crate) fn play_all<R: Wait + Threads + Sync, W: Watch + Sync>(
    rt: &R,
    alloc: Global,
    options: &RunOptions,
    threads: u32,
    setup: &RunSetup,
    firsts: &Firsts,
    scripts: Vec<Vec<ScriptRow>>,
    watching: &Watching<'_, W>,
) -> Result<Vec<Part>, RunError>
    requires in_range { All (λ rows. All (λ row. row.at ≤ MAX_MOMENT) rows.items) scripts.items }
    requires in_order { All (λ rows. rows_are_in_order 0 rows.items ≡ true) scripts.items }
    ensures parts { IfOk result (λ parts. ArePlayed (ask_of options.now) setup.now firsts.now
        (map (λ rows. rows.items) scripts.items) parts.items) }
    ensures fault { IfErr result (MayFail options.now.workers) }
{
    let mut jobs = jobs_of(alloc, scripts)?;
    let slots = jobs.as_mut_slice();
    play_jobs(rt, alloc, options, threads, setup, firsts, slots, watching);
    played(alloc, jobs)
}

/// A job for each script.
fn jobs_of(alloc: Global, scripts: Vec<Vec<ScriptRow>>) -> Result<Vec<Job>, AllocError>
    ensures { IfOk result (λ jobs. map (λ job. job.script) jobs.items ≡ scripts.items) }
{
    let mut jobs = Vec::with_capacity(alloc, scripts.len())?;
    for script in scripts {
        jobs.push_reserved(Job {
            script,
            played: Err(RunError::Run(RunFault::OutOfMemory)),
        });
    }
    Ok(jobs)
}

/// Plays parts by at most so many threads, each of which takes neighbours.
fn play_jobs<R: Wait + Threads + Sync, W: Watch + Sync>(
    rt: &R,
    alloc: Global,
    options: &RunOptions,
    threads: u32,
    setup: &RunSetup,
    firsts: &Firsts,
    jobs: &mut [Job],
    watching: &Watching<'_, W>,
)
    requires { All IsInOrder jobs.old }
    ensures { (part : ℕ) (d : Job) → part < length jobs.old
        → HasPlayedPart (ask_of options.now) setup.now firsts.now part
        (slice_index_or jobs.old part d) (slice_index_or jobs.new part d) }
{
    let parts = jobs.len();
    let play = move |number: usize, job: &mut Job|
        requires { IsInOrder job.now }
        ensures { HasPlayedPart (ask_of options.entry.now) setup.entry.now firsts.entry.now number
            job.entry.now job.exit.now }
    {
        let watching = watching.of_part(number, parts);
        job.play(rt, alloc, options, setup, firsts, number, &watching)
    };
    thread::for_each_mut(rt, jobs, threads.max(1) as usize, &play);
}

impl Job {
    /// Plays the part of this number.
    fn play<R: Wait + Threads + Sync, W: Watch>(
        &mut self,
        rt: &R,
        alloc: Global,
        options: &RunOptions,
        setup: &RunSetup,
        firsts: &Firsts,
        number: usize,
        watching: &Watching<'_, W>,
    )
        requires { IsInOrder self.old }
        ensures { HasPlayedPart (ask_of options.now) setup.now firsts.now number self.old self.new }
    {
        let script = mem::replace(&mut self.script, Vec::new(alloc));
        self.played = play_part(rt, alloc, options, setup, firsts, number, script, watching);
    }
}

/// What is kept of parts that were played, or the first fault that one of them has. Memory may run
/// out at any.
fn played(alloc: Global, jobs: Vec<Job>) -> Result<Vec<Part>, RunError>
    ensures parts { IfOk result (λ parts.
        map (λ job. job.played) jobs.items ≡ map (λ part. Ok part) parts.items) }
    ensures fault { (workers : ℕ) → All (λ job. IfErr job.played (MayFail workers)) jobs.items
        → IfErr result (MayFail workers) }
    ensures first { IfErr result (λ fault. fault ≢ error.Run run.OutOfMemory
        → IsFirstPartFault jobs.items fault) }
{
    let mut parts = Vec::with_capacity(alloc, jobs.len())?;
    for job in jobs {
        parts.push_reserved(job.played?);
    }
    Ok(parts)
}
