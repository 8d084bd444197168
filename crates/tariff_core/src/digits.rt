//! A few digits: the prefix of a row, and the days on which it counts.

ghost use Rattle.std.specs.Prelude.{◌≡◌, ◌≤◌, length};

/// The most digits that a prefix has.
pub(crate) const PREFIX_DIGITS: usize = 15;

/// A text of digits, at most `PREFIX_DIGITS`.
#[derive(Clone, Copy)]
pub(crate) struct Digits {
    pub bytes: [u8; PREFIX_DIGITS],
    pub len: u8,
    pub ghost short: { len ≤ 15 },
}

impl Digits {
    ghost use Rattle.tariff_core.specs.Digits.{text_of_digits};

    /// These digits.
    pub fn new(digits: &[u8]) -> Digits
        requires { length digits.now ≤ 15 }
        ensures { text_of_digits result ≡ digits.now }
    {
        let mut bytes = [0; PREFIX_DIGITS];
        bytes[..digits.len()].copy_from_slice(digits);
        Digits {
            bytes,
            len: digits.len() as u8,
        }
    }

    /// The text.
    pub fn digits(&self) -> &[u8]
        ensures { result.now ≡ text_of_digits self.now }
    {
        &self.bytes[..usize::from(self.len)]
    }
}
