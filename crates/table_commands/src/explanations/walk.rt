//! A walk through the rows of a table, byte by byte.

ghost use Rattle.std.specs.Prelude.{◌≡◌, ◌<◌, ◌++◌, ◌∷◌, [], List, ℕ};
ghost use Rattle.table_commands.specs.Walks.{HasWalked, StepsMachine, ends_row, passed_walk};

/// Where a walk is.
#[derive(Clone, Copy, PartialEq, Eq)]
pub(crate) enum Place {
    /// Between two rows.
    Between,
    /// At the start of a field, where a quote opens it.
    StartField,
    /// In a field without quotes, or behind its quotes.
    InField,
    /// Between quotes.
    InQuoted,
    /// Behind a quote that closes the field, unless another follows.
    AfterQuote,
}

impl Place {
    /// The place behind a byte.
    pub(crate) fn step(self, byte: u8) -> Place
        ensures { StepsMachine self result byte }
    {
        match (self, byte) {
            (Place::Between, b'\r' | b'\n') => Place::Between,
            (Place::Between | Place::StartField, b'"') => Place::InQuoted,
            (Place::InQuoted, b'"') => Place::AfterQuote,
            (Place::InQuoted, _) => Place::InQuoted,
            (Place::AfterQuote, b'"') => Place::InQuoted,
            (_, b',') => Place::StartField,
            (_, b'\r' | b'\n') => Place::Between,
            _ => Place::InField,
        }
    }
}

/// How far a table is walked through.
#[derive(Clone, Copy)]
pub(crate) struct Walk {
    /// Where the walk is.
    pub place: Place,
    /// How many rows have ended.
    pub above: usize,
}

impl Walk {
    /// The start of a table, behind its byte order mark.
    pub(crate) const START: Walk = Walk {
        place: Place::Between,
        above: 0,
    };

    /// Goes on by a byte, to the place behind it.
    pub(crate) fn pass(&mut self, place: Place)
        requires { self.old.above < 18446744073709551615 }
        ensures walked { (front : List ℕ) (byte : ℕ) → StepsMachine self.old.place place byte
            → HasWalked self.old front → HasWalked self.new (front ++ byte ∷ []) }
        ensures passed { self.new ≡ passed_walk self.old place }
    {
        if ends_row(self.place, place) {
            self.above += 1;
        }
        self.place = place;
    }
}

/// Whether a row ends between two places that follow one another.
fn ends_row(from: Place, to: Place) -> bool
    ensures { result ≡ ends_row from to }
{
    match (from, to) {
        (Place::Between, _) => false,
        (_, Place::Between) => true,
        _ => false,
    }
}
