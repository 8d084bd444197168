//! How an event is watched.

ghost use Rattle.std.specs.Prelude.{◌≡◌, ◌↔◌, Some};
ghost use Rattle.cap_values.specs.Codes.{mode_code};
ghost use Rattle.cap_values.specs.declared.mode.Mode.{Mode as AMode};

/// What happens at a point of the call that is met (GSM 09.78, MonitorMode).
#[derive(Clone, Copy, Debug, PartialEq, Eq)]
pub enum Mode {
    /// The event is reported, and the call waits for the service.
    Interrupted = 0,
    /// The event is reported, and the call goes on.
    NotifyAndContinue = 1,
    /// The event isn't reported.
    Transparent = 2,
}

impl Mode {
    /// The mode's number in the protocol.
    pub fn code(self) -> u8
        ensures { result ≡ mode_code self }
    {
        self as u8
    }

    /// The mode of a number, or none where no mode has it.
    pub fn from_code(code: u8) -> Option<Mode>
        ensures { (mode : AMode) → (result ≡ Some mode) ↔ (mode_code mode ≡ code) }
    {
        match code {
            0 => Some(Mode::Interrupted),
            1 => Some(Mode::NotifyAndContinue),
            2 => Some(Mode::Transparent),
            _ => None,
        }
    }
}
