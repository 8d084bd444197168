//! The limits in plain numbers, as the contract of a function that does nothing.

ghost use Rattle.std.specs.Prelude.{◌≡◌};
ghost use Rattle.cap_values.specs.declared.charge.TheConstants.{MAX_SWITCH};
ghost use Rattle.cap_values.specs.declared.number.TheConstants.{MAX_DIGITS};

/// The limits in plain numbers: of the digits of a number, and of the seconds to a tariff switch.
pub fn limits_in_numbers()
    ensures most_digits { MAX_DIGITS ≡ 15 }
    ensures longest_to_a_switch { MAX_SWITCH ≡ 86400 }
{}
