//! The limits in plain numbers, as the contract of a function that does nothing.

ghost use Rattle.std.specs.Prelude.{◌≡◌, ◌^◌};
ghost use Rattle.run_values.specs.declared.setup.TheConstants.{MAX_ACCOUNTS, MAX_SUBSCRIBERS};

/// The limits of a setup in plain numbers.
pub fn limits_in_numbers()
    ensures most_accounts { MAX_ACCOUNTS ≡ 1000 }
    ensures most_subscribers { MAX_SUBSCRIBERS ≡ 10 ^ 4 }
{}
