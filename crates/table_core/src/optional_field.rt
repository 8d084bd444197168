//! A field that may be empty.

ghost use Rattle.std.specs.Prelude.{◌≡◌};
ghost use Rattle.table_core.specs.Fields.{number_or_empty};

use std::fmt;

/// A number where there is one, else an empty field.
#[derive(Clone, Copy)]
pub struct Field(pub Option<u64>);

impl Field {
    /// The field of a number of 32 bits.
    pub fn short(number: Option<u32>) -> Field
        ensures { result.0 ≡ number }
    {
        Field(number.map(u64::from))
    }
}

impl fmt::Display for Field {
    ghost use Rattle.std.specs.Prelude.{Some};

    ghost output = { λ field. Some (number_or_empty field.0) };

    fn fmt<W: fmt::Write>(&self, f: &mut fmt::Formatter<W>) -> fmt::Result {
        match self.0 {
            Some(number) => number.fmt(f),
            None => Ok(()),
        }
    }
}
