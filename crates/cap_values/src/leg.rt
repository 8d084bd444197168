//! The two legs of a call.

ghost use Rattle.std.specs.Prelude.{◌≡◌, ◌↔◌, Some};
ghost use Rattle.cap_values.specs.Codes.{leg_code};
ghost use Rattle.cap_values.specs.declared.leg.Leg.{Leg as ALeg};

/// A leg of a call (GSM 09.78, LegID).
#[derive(Clone, Copy, Debug, PartialEq, Eq)]
pub enum Leg {
    /// The calling party's leg.
    One = 1,
    /// The called party's leg.
    Two = 2,
}

impl Leg {
    /// The leg's number in the protocol.
    pub fn code(self) -> u8
        ensures { result ≡ leg_code self }
    {
        self as u8
    }

    /// The leg of a number, or none where no leg has it.
    pub fn from_code(code: u8) -> Option<Leg>
        ensures { (leg : ALeg) → (result ≡ Some leg) ↔ (leg_code leg ≡ code) }
    {
        match code {
            1 => Some(Leg::One),
            2 => Some(Leg::Two),
            _ => None,
        }
    }
}
