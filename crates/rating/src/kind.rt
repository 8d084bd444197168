//! Why a row has no price.

ghost use Rattle.std.specs.Prelude.{◌≡◌};
ghost use Rattle.rating.specs.Lines.{rate_kind_name};

/// Why a row has no price. The other rows are rated all the same.
#[derive(Clone, Copy)]
pub enum RateKind {
    /// Another number of fields than the header has.
    Csv,
    /// A field that is no number in its range: of the called number, 1 to 15 digits.
    Number,
    /// An end before the answer, or more than a day after it.
    Order,
    /// A row of more than `MAX_ROW` bytes.
    TooLong,
    /// A called number that begins with no prefix of the tariff.
    NoRoute,
}

impl RateKind {
    /// The name in the column `fault`.
    pub(crate) fn name(self) -> &'static str
        ensures { result.now ≡ rate_kind_name self }
    {
        match self {
            RateKind::Csv => "Csv",
            RateKind::Number => "Number",
            RateKind::Order => "Order",
            RateKind::TooLong => "TooLong",
            RateKind::NoRoute => "noroute",
        }
    }
}
