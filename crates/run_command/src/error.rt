//! Why a run has no text.

ghost use Rattle.std.specs.Prelude.{◌≡◌};
ghost use Rattle.run_values.specs.declared.run_fault.RunFault.TheVariants as fault;
ghost use Rattle.run_command.specs.declared.error.RunError.TheVariants as out;

use run_texts::InputFault;
use run_values::RunFault;
use std::alloc::AllocError;

/// Why a run has no text: the first fault of its input, or what ended the run.
#[derive(Clone, Copy)]
pub enum RunError {
    /// The input has a fault, or it couldn't be read.
    Input(InputFault),
    /// The run itself failed; also where memory ran out before or after it.
    Run(RunFault),
}

impl From<InputFault> for RunError {
    ghost from_gives = { λ why error. error ≡ out.Input why };

    fn from(fault: InputFault) -> RunError {
        RunError::Input(fault)
    }
}

impl From<RunFault> for RunError {
    ghost from_gives = { λ why error. error ≡ out.Run why };

    fn from(fault: RunFault) -> RunError {
        RunError::Run(fault)
    }
}

impl From<AllocError> for RunError {
    ghost from_gives = { λ _ error. error ≡ out.Run fault.OutOfMemory };

    fn from(_error: AllocError) -> RunError {
        RunError::Run(RunFault::OutOfMemory)
    }
}
