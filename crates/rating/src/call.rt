//! What the record of a call says.

ghost use Rattle.std.specs.Prelude.{◌≡◌, ◌≤◌, unwrap_or, IfOk, IfSome};
ghost use Rattle.std.specs.Result.{result_map_both};
ghost use Rattle.csv.specs.Records.{fields_of};
ghost use Rattle.rating.specs.Calls.{AnsweredIsInRange, IsWithinDay, answered_in, rated_call_in, called_in, needed_moment, needed_number, optional_number, charged_in, talk_in};
ghost use Rattle.rating.specs.SaidOf.{said_by};

use crate::RateKind;
use crate::columns::{Columns, TimeColumns};
use cap_values::MAX_DIGITS;
use csv::ByteRecord;
use price_core::{DAY, MAX_MOMENT, MAX_MONEY};
use table_core::{are_digits, decimal, field, is_blank};
use tariff_core::moment;

/// The most bytes of a row, as `csv` writes it, the end of its line counted as one.
pub const MAX_ROW: usize = 65_536;

/// The most bytes that are printed of a row, each of its fields with one more for what ends it. A
/// header may have no more of them as `csv` writes it.
pub const MAX_SHOWN: usize = 131_072;

/// What is recorded of a call's time, in units of 100 ms.
#[derive(Clone, Copy)]
pub(crate) enum Talk {
    /// How long it lasted.
    Lasts(u32),
    /// Its times before the tariff switch and after it.
    Splits(u32, u32),
}

/// When a call was answered, and its time.
#[derive(Clone, Copy)]
pub(crate) struct Answered {
    pub(crate) at: u64,
    pub(crate) talk: Talk,
}

/// What the record of a call says.
#[derive(Clone, Copy)]
pub(crate) struct Call<'a> {
    pub(crate) called: &'a [u8],
    pub(crate) answered: Option<Answered>,
    pub(crate) paid: Option<u64>,
}

impl<'a> Call<'a> {
    /// What the columns of a row say. `Number` is the fault where a field isn't a number in its
    /// range, and else `Order` where the end is out of order.
    #[tactic(auto, unfolding(crate::specs::Calls::rated_call_in))]
    pub(crate) fn read(row: &'a ByteRecord, columns: &Columns) -> Result<Call<'a>, RateKind>
        ensures value { result_map_both said_by (λ kind. kind) result ≡ rated_call_in
            (fields_of row.now) columns.now }
        ensures within { IfOk result (λ call. IfSome call.answered AnsweredIsInRange) }
        ensures paid { IfOk result (λ call. unwrap_or call.paid 0 ≤ MAX_MONEY) }
    {
        let called = called(row, columns.called)?;
        let paid = paid(row, columns.paid)?;
        let answered = read_answered(row, columns)?;
        Ok(Call {
            called,
            answered,
            paid,
        })
    }
}

/// The number called.
fn called(row: &ByteRecord, place: usize) -> Result<&[u8], RateKind>
    ensures { result_map_both (λ digits. digits.now) (λ kind. kind) result ≡ called_in
        (fields_of row.now) place }
{
    let digits = field(row, place);
    if !digits.is_empty() && digits.len() <= MAX_DIGITS && are_digits(digits) {
        Ok(digits)
    } else {
        Err(RateKind::Number)
    }
}

/// When the call was answered, if it was, and its time.
fn read_answered(row: &ByteRecord, columns: &Columns) -> Result<Option<Answered>, RateKind>
    ensures value { result ≡ answered_in (fields_of row.now) columns.now }
    ensures within { IfOk result (λ answered. IfSome answered AnsweredIsInRange) }
{
    if is_blank(row, columns.answer) {
        return Ok(None);
    }
    let at = read_moment(row, columns.answer)?;
    let talk = read_talk(row, columns.times, at)?;
    Ok(Some(Answered { at, talk }))
}

/// How long a call lasted that was answered at a moment.
fn read_talk(row: &ByteRecord, times: TimeColumns, at: u64) -> Result<Talk, RateKind>
    ensures value { result ≡ talk_in (fields_of row.now) times at }
    ensures within { IfOk result IsWithinDay }
{
    match times {
        TimeColumns::Time(place) => Ok(Talk::Lasts(number(row, place, u64::from(DAY))? as u32)),
        TimeColumns::End(place) => {
            let end = read_moment(row, place)?;
            if end < at || end - at > u64::from(DAY) {
                return Err(RateKind::Order);
            }
            Ok(Talk::Lasts((end - at) as u32))
        }
        TimeColumns::Split(before, after) => {
            let before = number(row, before, u64::from(DAY))? as u32;
            let after = number(row, after, u64::from(DAY))? as u32;
            if before + after > DAY {
                return Err(RateKind::Number);
            }
            Ok(Talk::Splits(before, after))
        }
    }
}

/// What was charged, where there is a column for it and it isn't empty.
fn paid(row: &ByteRecord, place: Option<usize>) -> Result<Option<u64>, RateKind>
    ensures value { result ≡ charged_in (fields_of row.now) place }
    ensures within { IfOk result (λ paid. unwrap_or paid 0 ≤ MAX_MONEY) }
{
    match place {
        Some(place) => optional(row, place, MAX_MONEY),
        None => Ok(None),
    }
}

/// The moment in a field.
fn read_moment(row: &ByteRecord, place: usize) -> Result<u64, RateKind>
    ensures value { result ≡ needed_moment (fields_of row.now) place }
    ensures within { IfOk result (λ at. at ≤ MAX_MOMENT) }
{
    moment(field(row, place), MAX_MOMENT).ok_or(RateKind::Number)
}

/// The number in a field, none where it is empty.
fn optional(row: &ByteRecord, place: usize, most: u64) -> Result<Option<u64>, RateKind>
    ensures value { result ≡ optional_number (fields_of row.now) place most }
    ensures within { IfOk result (λ number. unwrap_or number 0 ≤ most) }
{
    if is_blank(row, place) {
        return Ok(None);
    }
    Ok(Some(number(row, place, most)?))
}

/// The number in a field.
fn number(row: &ByteRecord, place: usize, most: u64) -> Result<u64, RateKind>
    ensures value { result ≡ needed_number (fields_of row.now) place most }
    ensures within { IfOk result (λ number. number ≤ most) }
{
    decimal(field(row, place), most).ok_or(RateKind::Number)
}
