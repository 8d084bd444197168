//! The table of a trace.

ghost use Rattle.std.specs.Prelude.{◌≡◌, ◌++◌, IfOk, OnOk, option_copied, string_bytes};
ghost use Rattle.run_texts.specs.Tables.{post_rows, trace_text};

use crate::trace_rows::{call_of, write_answer, write_post};
use run_values::{Answer, Body};
use std::alloc::{AllocError, Global};
use table_core::Field;
use tariff_core::{Clock, MomentField};

/// How many bytes there is room for in the head of a row at once: a date and two numbers of 20
/// digits.
const HEAD: usize = 64;

/// The table of what was said in a run: a header, and for each item that its workers were given, in
/// order, a row of the message or the recharge, and then a row for each thing that the service said
/// to it: the operations of its answer, in order, `stray` where it had no place, and `refused` with
/// the name of the fault where an ask of an account got one. Moments are as the clock prints them.
///
/// The answer to an item is at its place. An item without one has its own row alone.
pub fn trace_table(
    alloc: Global,
    clock: Clock,
    given: &[(u64, Body)],
    answers: &[Answer],
) -> Result<String, AllocError>
    ensures { IfOk result (λ text. string_bytes text ≡ trace_text clock given.now answers.now) }
{
    let mut text = String::new(alloc);
    writeln!(text, "moment,number,call,from,what,x1,x2,x3,x4")?;
    for (number, post) in given.iter().enumerate() {
        write_rows(&mut text, clock, number, post, answers.get(number))?;
    }
    Ok(text)
}

/// Adds to a text the row of an item of this number in a run, and then those of its answer, if it
/// has one, as `trace_table` has them. Where memory runs out, some of the rows may be in the
/// text.
pub fn write_rows(
    text: &mut String,
    clock: Clock,
    number: usize,
    post: &(u64, Body),
    answer: Option<&Answer>,
) -> Result<(), AllocError>
    ensures { OnOk result (string_bytes text.new ≡ string_bytes text.old
        ++ post_rows clock number post.now (option_copied answer.entry)) }
{
    let (at, body) = *post;
    let (at, call) = (MomentField(clock, Some(at)), Field(call_of(&body)));
    let mut head = String::with_capacity(*text.allocator(), HEAD)?;
    write!(head, "{at},{number},{call}")?;
    write_post(text, clock, head.as_str(), &body)?;
    match answer {
        Some(answer) => write_answer(text, head.as_str(), answer),
        None => Ok(()),
    }
}
