//! What a row comes to by a tariff.

ghost use Rattle.std.specs.Prelude.{◌≡◌, IfSome};
ghost use Rattle.csv.specs.Records.{fields_of};
ghost use Rattle.rating.specs.Calls.{AnsweredIsInRange, said_in, row_size};
ghost use Rattle.rating.specs.Rated.{IsPriced, IsRated, is_right};
ghost use Rattle.rating.specs.SaidOf.{rating_of};

use crate::call::{Call, MAX_ROW, Talk};
use crate::charge::charge_call;
use crate::columns::Columns;
use crate::{PricedTimes, RateKind};
use csv::ByteRecord;
use tariff_core::Tariff;

/// What a row comes to.
#[derive(Clone, Copy)]
pub(crate) enum Rated<'a> {
    /// The prefix that counts, the times and their price, and what was charged.
    Priced(&'a [u8], PricedTimes, Option<u64>),
    /// A fault.
    Faulty(RateKind),
}

impl Rated<'_> {
    /// Whether it has no fault, and no other amount than the price was charged.
    pub(crate) fn is_right(&self) -> bool
        ensures { result ≡ is_right (rating_of self.now) }
    {
        match self {
            Rated::Priced(_, charge, Some(paid)) => charge.price == *paid,
            Rated::Priced(_, _, None) => true,
            Rated::Faulty(_) => false,
        }
    }
}

/// What a row of so many bytes comes to by a tariff, under a header of so many fields.
#[tactic(auto, unfolding(crate::specs::Calls::said_in))]
pub(crate) fn rate_row<'a>(
    tariff: &Tariff,
    columns: &Columns,
    width: usize,
    row: &'a ByteRecord,
    size: usize,
) -> Rated<'a>
    requires size { size ≡ row_size (fields_of row.now) }
    ensures { IsRated tariff.now width columns.now (fields_of row.now) (rating_of result) }
{
    if size > MAX_ROW {
        return Rated::Faulty(RateKind::TooLong);
    }
    if row.len() != width {
        return Rated::Faulty(RateKind::Csv);
    }
    match Call::read(row, columns) {
        Ok(call) => rate_call(tariff, &call),
        Err(kind) => Rated::Faulty(kind),
    }
}

/// What a call comes to.
fn rate_call<'a>(tariff: &Tariff, call: &Call<'a>) -> Rated<'a>
    requires { IfSome call.now.answered AnsweredIsInRange }
    ensures { IsPriced tariff.now call.now.called.now call.now.answered call.now.paid
        (rating_of result) }
{
    let Some(answered) = call.answered else {
        return Rated::Priced(b"", PricedTimes::NONE, call.paid);
    };
    match tariff.quote(call.called, answered.at) {
        Some(quote) => {
            let charge = match answered.talk {
                Talk::Lasts(time) => charge_call(&quote.route, answered.at, time),
                Talk::Splits(before, after) => PricedTimes::of_times(&quote.route, before, after),
            };
            Rated::Priced(quote.prefix, charge, call.paid)
        }
        None => Rated::Faulty(RateKind::NoRoute),
    }
}
