//! The numbers of the parties.

ghost use Rattle.std.specs.Prelude.{◌≡◌, ◌↔◌, ◌≤◌, ◌-◌, IsTrue, IsOk, IfOk, IfErr, take, drop, replicate};
ghost use Rattle.cap_values.specs.Numbers.{is_number};
ghost use Rattle.cap_values.specs.declared.number.TheConstants.{MAX_DIGITS};

use crate::ValueFault;
use std::cmp::Ordering;
use std::fmt;
use table_core::are_digits;

/// The most digits that a number has.
pub const MAX_DIGITS: usize = 15;

/// The number of a party (GSM 09.78, CallingPartyNumber, CalledPartyBCDNumber): 1 to `MAX_DIGITS`
/// ASCII digits. Numbers are in the order of their digits, compared from the first one on.
#[derive(Clone, Copy, Debug)]
pub struct Number {
    digits: [u8; MAX_DIGITS],
    len: u8,
    ghost short: { len ≤ MAX_DIGITS },
    ghost in_range: { IsTrue (is_number (take len digits)) },
    ghost zeros_behind: { drop len digits ≡ replicate (MAX_DIGITS - len) 0 },
}

impl Number {
    ghost use Rattle.cap_values.specs.NumberDigits.{digits_of_number};

    /// The number that a text of 1 to `MAX_DIGITS` ASCII digits writes; else `ParameterOutOfRange`.
    pub fn new(text: &str) -> Result<Number, ValueFault>
        ensures made { IsOk result ↔ IsTrue (is_number text.now) }
        ensures digits { IfOk result (λ number. digits_of_number number ≡ text.now) }
        ensures fault { IfErr result (λ fault. fault ≡ ValueFault.ParameterOutOfRange) }
    {
        let bytes = text.as_bytes();
        if !is_number(bytes) {
            return Err(ValueFault::ParameterOutOfRange);
        }
        let len = bytes.len();
        let mut digits = [0; MAX_DIGITS];
        digits[..len].copy_from_slice(bytes);
        Ok(Number {
            digits,
            len: len as u8,
        })
    }

    /// The digits, in ASCII.
    pub fn as_bytes(&self) -> &[u8]
        ensures { result.now ≡ digits_of_number self.now }
    {
        &self.digits[..usize::from(self.len)]
    }
}

impl fmt::Display for Number {
    ghost use Rattle.std.specs.Prelude.{Some};
    ghost use Rattle.cap_values.specs.NumberDigits.{digits_of_number};

    ghost output = { λ number. Some (digits_of_number number) };

    fn fmt<W: fmt::Write>(&self, f: &mut fmt::Formatter<W>) -> fmt::Result {
        match str::from_utf8(self.as_bytes()) {
            Ok(digits) => f.write_str(digits),
            Err(_) => unreachable!(),
        }
    }
}

impl Ord for Number {
    ghost use Rattle.std.proofs.Common.{rules};
    ghost use Rattle.std.specs.Cmp.Rules.{comparing};
    ghost use Rattle.cap_values.specs.NumberDigits.{by_digits};

    ghost cmp = { by_digits };

    ghost total = { Prim.search (comparing, rules) };

    ghost matches_partial_cmp = { Prim.search (comparing, rules) };

    ghost matches_eq = { Prim.search (comparing, rules) };

    fn cmp(&self, other: &Number) -> Ordering {
        self.as_bytes().cmp(other.as_bytes())
    }
}

impl PartialOrd for Number {
    ghost use Rattle.std.proofs.Common.{rules};
    ghost use Rattle.std.specs.Cmp.{partial_order_from_own_ties};
    ghost use Rattle.std.specs.Cmp.Rules.{comparing};
    ghost use Rattle.std.specs.Ordering.{as_partial_cmp};
    ghost use Rattle.cap_values.specs.NumberDigits.{by_digits};

    ghost partial_cmp = { as_partial_cmp by_digits };

    ghost laws = { partial_order_from_own_ties (Prim.search (comparing, rules))
        (Prim.search (comparing, rules)) };

    fn partial_cmp(&self, other: &Number) -> Option<Ordering> {
        Some(self.cmp(other))
    }
}

impl PartialEq for Number {
    ghost use Rattle.std.proofs.Common.{rules};
    ghost use Rattle.std.specs.Cmp.Rules.{comparing};
    ghost use Rattle.std.specs.Ordering.{eq_by_cmp};
    ghost use Rattle.cap_values.specs.NumberDigits.{by_digits};

    ghost eq = { eq_by_cmp by_digits };

    ghost laws = { Prim.search (comparing, rules) };

    fn eq(&self, other: &Number) -> bool {
        self.cmp(other).is_eq()
    }
}

impl Eq for Number {
    ghost use Rattle.std.proofs.Common.{rules};
    ghost use Rattle.std.specs.Cmp.Rules.{comparing};

    ghost laws = { Prim.search (comparing, rules) };
}

/// Whether a text is 1 to `MAX_DIGITS` ASCII digits.
fn is_number(text: &[u8]) -> bool
    ensures { result ≡ is_number text.now }
{
    1 <= text.len() && text.len() <= MAX_DIGITS && are_digits(text)
}
