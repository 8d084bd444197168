//! A line of an input.

ghost use Rattle.std.specs.Prelude.{◌≡◌, ◌≢◌, ◌<◌, ◌≤◌, ◌+◌, ◌-◌, ◌++◌, ℕ, List, [], Ok, Some, false, true, take, length, All, IfErr, IfOk, IfSome, OnOk, OnSome};
ghost use Rattle.std.specs.Io.{IsEmptyOrEndsWith, StopsAt};
ghost use Rattle.std.specs.Io.BufRead.{drop_through, ends_with_byte, take_through};
ghost use Rattle.std.specs.Io.KnownBytes.{Consumes, IsAtEnd};
ghost use Rattle.live_answers.specs.Cuts.{WhereFailed};
ghost use Rattle.live_answers.specs.Lines.{kept};

use crate::LiveFault;
use crate::fault::Stop;
use memchr::memchr;
use std::alloc::AllocError;
use std::io::{BufRead, ErrorKind};

/// The most bytes of a line, its LF counted, also where the input ends before it.
pub const MAX_LINE: usize = 4096;

/// Takes the next line of an input, with its LF, of which a line that is too long leaves its first
/// `MAX_LINE + 1` bytes. False at the end of the input. `more` says whether the reader has a whole
/// line at hand behind it, for which it wouldn't have to wait.
pub(crate) fn take_line<I: BufRead>(
    input: &mut I,
    line: &mut Vec<u8>,
    more: &mut bool,
) -> Result<bool, Stop>
    requires { line.old.items ≡ [] }
    ensures taken { result ≡ Ok true → IfSome (I.remaining input.old) (λ text. (0 < length text)
        × (line.new.items ≡ kept (take_through 10 text))
        × (I.remaining input.new ≡ Some (drop_through 10 text))) }
    ensures end { result ≡ Ok false → IsAtEnd (I.remaining input.old) }
    ensures fault { IfErr result (WhereFailed (λ why. why ≡ LiveFault.Input)) }
{
    for _turn in 0..u64::MAX {
        if take_part(input, line, more)? {
            if line.is_empty() {
                return Ok(false);
            }
            end_line(line)?;
            return Ok(true);
        }
    }
    Err(Stop::Failed(LiveFault::Input))
}

/// Takes what the input has at hand of a line, up to its LF, and keeps it as far as there is room.
/// True where the line or the input has ended.
fn take_part<I: BufRead>(input: &mut I, line: &mut Vec<u8>, more: &mut bool) -> Result<bool, Stop>
    requires { length line.old.items ≤ MAX_LINE + 1 }
    ensures takes { IfOk result (λ whole. (part : List ℕ)
        × (line.new.items ≡ line.old.items ++ take (MAX_LINE + 1 - length line.old.items) part)
        × StopsAt part 10
        × Consumes (I.remaining input.old) (I.remaining input.new) part
        × (whole ≢ true → All (λ byte. byte ≢ 10) part)
        × (whole ≡ true → IsEmptyOrEndsWith part 10)
        × (whole ≡ true → length part ≡ 0
        → OnSome (I.remaining input.old) (IsAtEnd (I.remaining input.new)))) }
    ensures fault { IfErr result (WhereFailed (λ why. why ≡ LiveFault.Input)) }
{
    let shown = match input.fill_buf() {
        Ok(shown) => shown,
        Err(error) if error.kind() == ErrorKind::Interrupted => return Ok(false),
        Err(_) => return Err(Stop::Failed(LiveFault::Input)),
    };
    let end = end_of_line(shown);
    let room = MAX_LINE + 1 - line.len();
    line.extend_from_slice(&shown[..end.min(room)])?;
    *more = memchr(b'\n', &shown[end..]).is_some();
    let whole = end == 0 || shown[end - 1] == b'\n';
    input.consume(end);
    Ok(whole)
}

/// How many bytes come up to the first LF, that counted; all where there is none.
fn end_of_line(bytes: &[u8]) -> usize
    ensures bound { result ≤ length bytes.now }
    ensures some { 0 < length bytes.now → 0 < result }
    ensures before { All (λ byte. byte ≢ 10) (take (result - 1) bytes.now) }
{
    match memchr(b'\n', bytes) {
        Some(place) => place + 1,
        None => bytes.len(),
    }
}

/// Puts an LF behind a line that has none, unless the line is too long.
fn end_line(line: &mut Vec<u8>) -> Result<(), AllocError>
    ensures { OnOk result ((whole : List ℕ) → line.old.items ≡ take (MAX_LINE + 1) whole
        → line.new.items ≡ kept whole) }
{
    if line.len() <= MAX_LINE && !is_ended(line.as_slice()) {
        line.push(b'\n')?;
    }
    Ok(())
}

/// Whether a line has its LF.
fn is_ended(line: &[u8]) -> bool
    ensures { result ≡ ends_with_byte 10 line.now }
{
    !line.is_empty() && line[line.len() - 1] == b'\n'
}
