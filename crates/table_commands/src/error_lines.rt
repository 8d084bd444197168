//! The lines that go to the error writer. They take no memory.

ghost use Rattle.std.specs.Prelude.{◌≡◌, ◌++◌, codes, IfOk};
ghost use Rattle.table_commands.specs.Faults.{line_of_fault, status_of};
ghost use Rattle.table_commands.specs.Outputs.{IsOutputLine, IsSaidOfOutput};
ghost use Rattle.table_commands.specs.Writers.{IsSaid};
ghost use Rattle.table_core.specs.Fronts.{AppendsFront};

use crate::Fault;
use arrayvec::ArrayString;
use std::fmt::{self, Write};
use std::io;
use table_core::write_text;

/// The most bytes of a line: more than any line has.
const MOST_BYTES: usize = 256;

/// The most bytes of what an error says that are said: with what is round them, a line has fewer.
const MOST_WHY: usize = 240;

/// The line of a fault, with LF at its end.
fn fault_line(fault: Fault) -> Result<ArrayString<MOST_BYTES>, fmt::Error>
    ensures { IfOk result (λ line. line.bytes ≡ line_of_fault fault ++ codes "\n") }
{
    let mut line = ArrayString::new();
    writeln!(line, "{fault}")?;
    Ok(line)
}

/// The status of a fault, whose line goes to the error writer, with what is said of it behind that.
/// The line takes no memory.
pub fn report_with<E: io::Write>(faults: &mut E, fault: Fault, more: &[u8]) -> u8
    ensures status { result ≡ status_of fault }
    ensures line { AppendsFront (E.contents faults.old) (E.contents faults.new)
        (line_of_fault fault ++ (codes "\n" ++ more.now)) }
{
    if let Ok(line) = fault_line(fault) {
        write_both(faults, line.as_str().as_bytes(), more);
    }
    fault.status()
}

/// The status of an answer that is printed as it comes and didn't come to its end: its fault is
/// reported; without one the output failed.
pub fn report_end<E: io::Write>(
    faults: &mut E,
    explains: bool,
    fault: Option<Fault>,
    failed: Option<io::Error>,
) -> u8
    ensures { IsSaid explains fault result (E.contents faults.old) (E.contents faults.new) }
{
    match fault {
        Some(fault) => report_with(faults, fault, &[]),
        None => {
            report_output(faults, explains, failed);
            2
        }
    }
}

/// Says why an output failed, where that is asked for. The line takes no memory.
pub fn report_output<E: io::Write>(faults: &mut E, explains: bool, failed: Option<io::Error>)
    ensures { IsSaidOfOutput explains (E.contents faults.old) (E.contents faults.new) }
{
    if !explains {
        return;
    }
    if let Ok(line) = output_line(failed) {
        write_text(faults, line.as_str().as_bytes());
    }
}

/// The line that says why an output failed.
fn output_line(failed: Option<io::Error>) -> Result<ArrayString<MOST_BYTES>, fmt::Error>
    ensures { IfOk result (λ line. IsOutputLine line.bytes) }
{
    let why = words_of(failed);
    let mut line = ArrayString::new();
    writeln!(line, "the output: {why}")?;
    Ok(line)
}

/// What an error says; of a writer that has no error, and took nothing more, just that.
fn words_of(failed: Option<io::Error>) -> ArrayString<MOST_WHY> {
    let mut why = ArrayString::new();
    // Where there is no room for all of it, a front of it is said.
    let _ = match failed {
        Some(error) => write!(why, "{error}"),
        None => why.write_str("it takes no more"),
    };
    why
}

/// Writes a text and another behind it, as far as the writer takes them.
#[tactic(auto, using(table_core::proofs::FrontLemmas::front_before))]
pub fn write_both<E: io::Write>(faults: &mut E, first: &[u8], second: &[u8])
    ensures { AppendsFront (E.contents faults.old) (E.contents faults.new)
        (first.now ++ second.now) }
{
    if !write_text(faults, first) {
        return;
    }
    write_text(faults, second);
}
