//! A live run, from its first line to its books.

ghost use Rattle.std.specs.Prelude.{IfErr, IfOk};
ghost use Rattle.live_answers.specs.Runs.{IsLiveRunTo, MayEndLive};

use crate::driver::LiveDriver;
use crate::{LiveFault, Replay};
use account_core::{Book, OpenGate};
use run_values::{Body, RunFault, RunSetup};
use runs_core::serve;
use std::alloc::Global;
use std::io::{BufRead, Write};
use std::sync::Wait;
use std::thread::Threads;

/// What a live run has come to.
#[derive(Drop)]
pub(crate) struct Answered {
    /// What was given, in order, each with its moment.
    pub given: Vec<(u64, Body)>,
    /// The books of the accounts.
    pub books: Vec<Book>,
    /// What ended the run before its input ended, if anything did.
    pub fault: Option<LiveFault>,
}

/// Serves the messages of an input, each on a line of its own, by one worker, until the input ends.
/// The lines are behind a header, which is line 1.
///
/// A line is a row of a trace that a switch or an operator says, as `run_texts::read_message_line`
/// reads it, ended by LF, or by the end of the input. It is accepted where its moment is not below
/// that of the last accepted one, and where its number, if it has one, is how many were accepted
/// before it. A line that isn't accepted changes nothing: its row `,,,service,fault,KIND,LINE,,`
/// goes to the output. KIND is `TooLong` where it has more than `MAX_LINE` bytes; else what
/// `read_message_line` says of it; else `Repeated` where its number is one that was accepted
/// before; else `Order`, for a number that is too high, or for its moment. An empty line is passed
/// over.
///
/// The run waits for the next line, and takes with it the whole lines that the reader has at hand
/// behind it, but no more than `MAX_GROUP` lines. The accepted ones are written to the log, each
/// with its LF, by one write, and flushed; then they are handled; then the rows of all of them,
/// with those of the answers as `run_texts::trace_table` has them, are written to the output in
/// order, by one write, and flushed. Only then does the run wait for a further line. So lines that
/// come together share a flush of the log and one of the output, and a line alone waits for no
/// other.
///
/// A run that was cut off goes on where the lines of its log are in front of the input: `replay`
/// says how many they are, and how many of them are heard in silence. LINE doesn't count them.
///
/// Where the input, the output or the log fails, the run ends with its books, and `fault` says
/// which it was. What was taken before the input failed or ended is answered first. Where the log
/// failed, it may have a front of the lines that were taken at once, none of which was given; all
/// else that is in the log was given.
///
/// * `answered`: the books are those of a run of one worker (`IsRun`) to which the accepted
///   messages were given, and output and log have grown by just what the lines and the answers come
///   to.
/// * `fault`: the errors are those of `runs_core::serve`, but for `Workers` and `GateClosed`.
pub(crate) fn answer_live<R: Wait + Threads + Sync, I: BufRead + Drop, O: Write, L: Write>(
    rt: &R,
    alloc: Global,
    setup: &RunSetup,
    input: I,
    output: &mut O,
    log: &mut L,
    replay: Replay,
) -> Result<Answered, RunFault>
    ensures answered { IfOk result (λ answered. IsLiveRunTo setup.now replay (I.remaining input)
        (O.contents output.old) (O.contents output.new)
        (L.contents log.old) (L.contents log.new)
        answered.given.items answered.books.items answered.fault) }
    ensures fault { IfErr result MayEndLive }
{
    let mut driver = LiveDriver::new(alloc, input, output, log, replay);
    let books = serve(rt, alloc, setup, &mut driver, 1, &OpenGate)?;
    let LiveDriver {
        alloc: _alloc,
        input: _input,
        output,
        log,
        replay: _replay,
        given,
        line: _line,
        said: _said,
        stage,
    } = driver;
    // No effect at run time. The proof reads what the writers hold from these uses.
    let _ = &*output;
    let _ = &*log;
    Ok(Answered {
        given,
        books,
        fault: stage.fault(),
    })
}
