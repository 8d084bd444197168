//! The row that the fields of a tariff table say.

ghost use Rattle.std.specs.Prelude.{◌≡◌, ◌≤◌, ◌<◌, true, length, IfSome, IfOk};
ghost use Rattle.tariff_core.specs.Digits.{text_of_digits};
ghost use Rattle.tariff_core.specs.Tariff.{ReadsAs, band_of};
ghost use Rattle.tariff_core.specs.TariffTable.{are_days, band_in, days_in, first_in, free_in, step_in, time_of};
ghost use Rattle.csv.specs.Records.{fields_of};

use crate::digits::{Digits, PREFIX_DIGITS};
use crate::row::{Cost, Row};
use crate::tariff_fault::TariffKind;
use csv::ByteRecord;
use price_core::{DAY, MAX_RATE};
use table_core::{are_digits, decimal, field};

/// Which header has days: the one after those that have none.
pub(crate) const WITH_DAYS: usize = 3;

/// The row of these fields, under the first header (0), the one with free units, the one with
/// steps too, or the one with days.
pub(crate) fn read_row(header: usize, fields: &ByteRecord) -> Result<Row, TariffKind>
    ensures { ReadsAs band_of result (band_in header (fields_of fields.now)) }
{
    let digits = field(fields, 0);
    if digits.len() > PREFIX_DIGITS || !are_digits(digits) {
        return Err(TariffKind::Digits);
    }
    let prefix = Digits::new(digits);
    let start = time_of_day(field(fields, 1)).ok_or(TariffKind::From)?;
    let fee = decimal(field(fields, 2), MAX_RATE).ok_or(TariffKind::Money)?;
    let rate = decimal(field(fields, 3), MAX_RATE).ok_or(TariffKind::Money)?;
    let free = free_units(header, fields)?;
    let first = first_step(header, fields)?;
    let step = further_step(header, fields)?;
    let days = days(header, fields)?;
    Ok(Row {
        prefix,
        start,
        days,
        cost: Cost {
            fee,
            rate,
            free,
            first,
            step,
        },
    })
}

/// The free units of these fields: none under the first header.
fn free_units(header: usize, fields: &ByteRecord) -> Result<u32, TariffKind>
    ensures value { result ≡ free_in header (fields_of fields.now) }
    ensures within_day { IfOk result (λ free. free ≤ DAY) }
{
    if header == 0 {
        return Ok(0);
    }
    let free = decimal(field(fields, 4), u64::from(DAY)).ok_or(TariffKind::Free)?;
    Ok(free as u32)
}

/// The least units that are billed by these fields: none under the headers without steps.
fn first_step(header: usize, fields: &ByteRecord) -> Result<u32, TariffKind>
    ensures value { result ≡ first_in header (fields_of fields.now) }
    ensures within_day { IfOk result (λ first. first ≤ DAY) }
{
    if header < 2 {
        return Ok(0);
    }
    let first = decimal(field(fields, 5), u64::from(DAY)).ok_or(TariffKind::First)?;
    Ok(first as u32)
}

/// The units of a further step by these fields: one under the headers without steps.
fn further_step(header: usize, fields: &ByteRecord) -> Result<u32, TariffKind>
    ensures value { result ≡ step_in header (fields_of fields.now) }
    ensures positive { IfOk result (λ step. 1 ≤ step) }
    ensures within_day { IfOk result (λ step. step ≤ DAY) }
{
    if header < 2 {
        return Ok(1);
    }
    match decimal(field(fields, 6), u64::from(DAY)) {
        Some(step) if step > 0 => Ok(step as u32),
        _ => Err(TariffKind::Step),
    }
}

/// The days of these fields: none, for each day, under the headers without days.
fn days(header: usize, fields: &ByteRecord) -> Result<Digits, TariffKind>
    ensures { ReadsAs text_of_digits result (days_in header (fields_of fields.now)) }
{
    if header < WITH_DAYS {
        return Ok(Digits::new(&[]));
    }
    let text = field(fields, 7);
    if !are_days(text) {
        return Err(TariffKind::Days);
    }
    Ok(Digits::new(text))
}

/// Whether a text is digits from 1 to 7, each above the one before it.
fn are_days(text: &[u8]) -> bool
    ensures value { result ≡ are_days text.now }
    ensures short { result ≡ true → length text.now ≤ 7 }
{
    let mut last = b'0';
    for &digit in text {
        if digit <= last || digit > b'7' {
            return false;
        }
        last = digit;
    }
    true
}

/// The time of day that `HH:MM` writes, 00:00 to 23:59, in units of 100 ms after midnight.
#[tactic(auto, unfolding(crate::specs::TariffTable::time_of))]
pub fn time_of_day(text: &[u8]) -> Option<u32>
    ensures value { result ≡ time_of text.now }
    ensures in_day { IfSome result (λ time. time < DAY) }
{
    if text.len() != 5 || text[2] != b':' {
        return None;
    }
    let hours = decimal(&text[..2], 23)? as u32;
    let minutes = decimal(&text[3..], 59)? as u32;
    Some((hours * 60 + minutes) * 600)
}
