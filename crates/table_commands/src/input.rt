//! Standard input, read whole.

ghost use Rattle.std.specs.Prelude.{◌≡◌, IfOk, IfSome};
ghost use Rattle.std.specs.IoError.{error_kind};
ghost use Rattle.table_commands.specs.Faults.{GivesAnswer};
ghost use Rattle.table_commands.specs.Input.{failed_input, sized};

use crate::Fault;
use run_values::RunFault;
use std::alloc::Global;
use std::io::{Error, ErrorKind, Read};

/// The most bytes that an input may have.
pub const MAX_INPUT: u64 = 16_777_216;

/// All the bytes of the input, or `TooLong` where they are more than `MAX_INPUT`.
pub fn read_input<I: Read + Drop>(alloc: Global, input: I) -> Result<Vec<u8>, Fault>
    ensures read { IfSome (I.remaining input)
        (λ text. GivesAnswer (λ bytes. bytes.items) result (sized text)) }
    ensures same { IfOk result (λ bytes. IfSome (I.remaining input) (λ text. bytes.items ≡ text)) }
{
    let mut bytes = Vec::new(alloc);
    let mut input = input.take(MAX_INPUT + 1);
    match input.read_to_end(&mut bytes) {
        Ok(count) if count as u64 > MAX_INPUT => Err(Fault::TooLong),
        Ok(_) => Ok(bytes),
        Err(error) => Err(fault_of(&error)),
    }
}

/// The fault of an input that failed.
fn fault_of(error: &Error) -> Fault
    ensures exact { result ≡ failed_input (error_kind error.now) }
{
    match error.kind() {
        ErrorKind::OutOfMemory => Fault::Run(RunFault::OutOfMemory),
        _ => Fault::Device,
    }
}
