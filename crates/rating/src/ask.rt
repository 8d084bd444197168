//! What `rate` is asked for.

ghost use Rattle.std.specs.Prelude.{◌≡◌};
ghost use Rattle.rating.specs.Asks.{name_of};
ghost use Rattle.rating.specs.SaidOf.{wished_names};

/// A column of records.
#[derive(Clone, Copy, Debug)]
pub enum Column {
    /// The number that was called.
    Called,
    /// The moment at which the call was answered.
    Answer,
    /// Its time before the tariff switch.
    Before,
    /// Its time after it.
    After,
    /// How long it lasted.
    Time,
    /// The moment at which it ended.
    End,
    /// What was charged.
    Paid,
}

/// By which columns the times of a call are found.
#[derive(Clone, Copy)]
pub enum TimeNames<'a> {
    /// `before` and `after` where the header has both, else `time` where it has that, else `end`.
    UsualNames,
    /// A column of how long the call lasted, in units of 100 ms.
    Time(&'a str),
    /// A column of the moment at which it ended.
    End(&'a str),
    /// Columns of its times before the tariff switch and after it, in units of 100 ms.
    Split(&'a str, &'a str),
}

/// The names of the columns.
#[derive(Clone, Copy)]
pub struct Names<'a> {
    /// The number that was called.
    pub called: &'a str,
    /// The moment at which the call was answered.
    pub answer: &'a str,
    /// Its times.
    pub times: TimeNames<'a>,
    /// What was charged. Without a name it is `paid`, where there is such a column.
    pub paid: Option<&'a str>,
}

impl<'a> Names<'a> {
    /// The name by which a column is looked for: the one that is asked for, else the usual one.
    pub fn of(&self, column: Column) -> &'a str
        ensures { result.now ≡ name_of (wished_names self.now) column }
    {
        match (column, self.times) {
            (Column::Called, _) => self.called,
            (Column::Answer, _) => self.answer,
            (Column::Before, TimeNames::Split(before, _)) => before,
            (Column::Before, _) => "before",
            (Column::After, TimeNames::Split(_, after)) => after,
            (Column::After, _) => "after",
            (Column::Time, TimeNames::Time(name)) => name,
            (Column::Time, _) => "time",
            (Column::End, TimeNames::End(name)) => name,
            (Column::End, _) => "end",
            (Column::Paid, _) => self.paid.unwrap_or("paid"),
        }
    }
}

/// What `rate` is asked for.
#[derive(Clone, Copy)]
pub struct RateAsk<'a> {
    /// The names of the columns.
    pub names: Names<'a>,
    /// Whether only the rows are printed that differ or have a fault.
    pub differing: bool,
    /// Whether a summary is printed behind the rows.
    pub summary: bool,
}
