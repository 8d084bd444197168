//! The line about what the accounts of a run refused. It takes no memory.

ghost use Rattle.std.specs.Prelude.{◌≡◌, [], IfOk, OnOk};
ghost use Rattle.run_outputs.specs.RefusedLines.{kinds_of, refused_line, with_kind};

use crate::Refusals;
use account_core::AccountFault;
use arrayvec::ArrayString;
use std::fmt::{self, Write};

/// The most bytes of the line: more than any has.
const MOST_BYTES: usize = 256;

/// The line, with LF at its end: how often, and by which faults, in the order in which an account
/// judges them. Nothing where nothing was refused. The error would be a line of more bytes than
/// `MOST_BYTES`.
pub fn refused_line(refusals: &Refusals) -> Result<ArrayString<MOST_BYTES>, fmt::Error>
    ensures { IfOk result (λ line. line.bytes ≡ refused_line refusals.now) }
{
    let mut line = ArrayString::new();
    add_kinds(&mut line, refusals)?;
    if !line.is_empty() {
        line.write_str("\n")?;
    }
    Ok(line)
}

/// Adds the kinds that came.
fn add_kinds(line: &mut ArrayString<MOST_BYTES>, refusals: &Refusals) -> fmt::Result
    requires { line.old.bytes ≡ [] }
    ensures { OnOk result (line.new.bytes ≡ kinds_of refusals.now) }
{
    add_kind(line, refusals.gate_closed, AccountFault::GateClosed)?;
    add_kind(line, refusals.out_of_range, AccountFault::OutOfRange)?;
    add_kind(line, refusals.not_open, AccountFault::NotOpen)?;
    add_kind(line, refusals.call_used, AccountFault::CallUsed)?;
    add_kind(line, refusals.history_full, AccountFault::HistoryFull)?;
    add_kind(line, refusals.out_of_memory, AccountFault::OutOfMemory)
}

/// Adds a kind where it came.
fn add_kind(line: &mut ArrayString<MOST_BYTES>, count: u64, fault: AccountFault) -> fmt::Result
    ensures { OnOk result (line.new.bytes ≡ with_kind line.old.bytes count fault) }
{
    if count == 0 {
        return Ok(());
    }
    if line.is_empty() {
        write!(line, "prepaid: refused: {count} {fault}")
    } else {
        write!(line, ", {count} {fault}")
    }
}
