//! What is counted of the rows.

ghost use Rattle.std.specs.Prelude.{◌≡◌, ◌<◌, ◌+◌, ◌-◌, ◌^◌};
ghost use Rattle.rating.specs.SaidOf.{rating_of};
ghost use Rattle.rating.specs.Scores.{IsBoundedScore, counted, no_rows, passes};

use crate::rated::Rated;

/// What is counted of the rows that were rated, printed or not. Amounts are in units of money.
#[derive(Clone, Copy)]
pub struct Score {
    /// The rows, but for the header.
    pub rows: u64,
    /// Those that were charged another amount than their price.
    pub differing: u64,
    /// Those that have a fault.
    pub faults: u64,
    /// What was charged, over all rows without a fault.
    pub paid: u128,
    /// Their prices.
    pub price: u128,
    /// How much less than the price was charged, over the rows where it was less.
    pub under: u128,
    /// How much more, over the rows where it was more.
    pub over: u128,
}

impl Score {
    /// Before the first row.
    pub(crate) fn new() -> Score
        ensures exact { result ≡ no_rows }
        ensures bounded { IsBoundedScore result }
    {
        Score {
            rows: 0,
            differing: 0,
            faults: 0,
            paid: 0,
            price: 0,
            under: 0,
            over: 0,
        }
    }

    /// Whether all rows are right.
    pub fn passes(&self) -> bool
        requires { IsBoundedScore self.now }
        ensures { result ≡ passes self.now }
    {
        self.differing == 0 && self.faults == 0
    }

    /// Counts one row more.
    pub(crate) fn count(&mut self, rated: &Rated<'_>)
        requires bounded { IsBoundedScore self.old }
        requires room { self.old.rows < 2 ^ 64 - 1 }
        ensures exact { self.new ≡ counted self.old (rating_of rated.now) }
        ensures one { self.new.rows ≡ self.old.rows + 1 }
        ensures bounded { IsBoundedScore self.new }
    {
        self.rows += 1;
        match rated {
            Rated::Priced(_, charge, None) => self.price += u128::from(charge.price),
            Rated::Priced(_, charge, Some(paid)) => {
                let (price, paid) = (charge.price, *paid);
                self.price += u128::from(price);
                self.paid += u128::from(paid);
                self.differing += u64::from(price != paid);
                self.under += u128::from(price.saturating_sub(paid));
                self.over += u128::from(paid.saturating_sub(price));
            }
            Rated::Faulty(_) => self.faults += 1,
        }
    }
}
