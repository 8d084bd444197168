//! A section of an input that is read as it comes.

ghost use Rattle.std.specs.Prelude.{◌≤◌, length, IfErr, IfOk, IfSome};
ghost use Rattle.std.specs.Option.{option_map};
ghost use Rattle.std.specs.Result.{result_map_both};
ghost use Rattle.run_texts.specs.FirstSections.{Divides, InputFaultMayAlwaysCome, ReadsLine, TakesByte};

use crate::InputFault;
use crate::input::is_divider;
use std::alloc::Global;
use std::io::{ErrorKind, Read};

/// The most bytes of a section that is read as it comes, its divider counted.
pub const MAX_SECTION: usize = 16_777_216;

/// Reads what is before the next line `%%` of an input, which then has left what is behind
/// it. That line stands alone and is ended by LF, CR LF or the end of the input.
///
/// `Parts` where there is no such line; but `TooLong` where the section has more than `MAX_SECTION`
/// bytes, its divider counted.
pub fn read_section<I: Read>(alloc: Global, input: &mut I) -> Result<Vec<u8>, InputFault>
    ensures { IfSome (I.remaining input.old) (λ text. Divides text (I.remaining input.new)
        (result_map_both (λ section. section.items) (λ fault. fault) result)) }
{
    let mut text = Vec::new(alloc);
    for _turn in 0..u64::MAX {
        let Some(line) = read_line(alloc, input, MAX_SECTION - text.len())? else {
            return Err(InputFault::TooLong);
        };
        if is_divider(line.as_slice()) {
            return Ok(text);
        }
        if line.is_empty() {
            return Err(InputFault::Parts);
        }
        text.extend_from_slice(line.as_slice())?;
    }
    Err(InputFault::Device)
}

/// Reads the next line of an input, with the LF that ends it, if one does: none where it has more
/// than `most` bytes, and an empty one at the end of the input. Only its reader or memory may fail.
pub fn read_line<I: Read>(
    alloc: Global,
    input: &mut I,
    most: usize,
) -> Result<Option<Vec<u8>>, InputFault>
    ensures reads { IfOk result (λ read. IfSome (I.remaining input.old) (λ text.
        ReadsLine most text (I.remaining input.new) (option_map (λ line. line.items) read))) }
    ensures within { IfOk result (λ read. IfSome read (λ line. length line.items ≤ most)) }
    ensures fault { IfErr result InputFaultMayAlwaysCome }
{
    let mut line = Vec::new(alloc);
    for _turn in 0..u64::MAX {
        let Some(byte) = read_byte(input)? else {
            return Ok(Some(line));
        };
        if line.len() >= most {
            return Ok(None);
        }
        line.push(byte)?;
        if byte == b'\n' {
            return Ok(Some(line));
        }
    }
    Err(InputFault::Device)
}

/// The next byte of an input, none at its end.
fn read_byte<I: Read>(input: &mut I) -> Result<Option<u8>, InputFault>
    ensures takes { IfOk result (TakesByte (I.remaining input.old) (I.remaining input.new)) }
    ensures fault { IfErr result InputFaultMayAlwaysCome }
{
    let mut byte = [0];
    for _turn in 0..u64::MAX {
        match input.read(&mut byte) {
            Ok(0) => return Ok(None),
            Ok(_) => return Ok(Some(byte[0])),
            Err(error) => match error.kind() {
                ErrorKind::Interrupted => {}
                ErrorKind::OutOfMemory => return Err(InputFault::OutOfMemory),
                _ => return Err(InputFault::Device),
            },
        }
    }
    Err(InputFault::Device)
}
