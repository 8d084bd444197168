//! Accounts, amounts, moments and parties in fields.

ghost use Rattle.std.specs.Prelude.{◌≡◌, ◌≤◌, true, IfOk};
ghost use Rattle.std.specs.Result.{result_map_both};
ghost use Rattle.run_texts.specs.Setups.{account_in_field, amount_in_field, party_in_field, until_in_field};
ghost use Rattle.cap_values.specs.NumberDigits.{digits_of_number};
ghost use Rattle.tariff_core.specs.Fields.{moment_in_field};
ghost use Rattle.run_values.specs.Openings.{expires_in_time};

use cap_values::Number;
use price_core::{MAX_MOMENT, MAX_MONEY};
use ssf_core::Moment;
use std::str;
use table_core::{RowKind, decimal};
use tariff_core::moment;

/// The number of an account: a decimal of 32 bits.
pub(crate) fn account(field: &[u8]) -> Result<u32, RowKind>
    ensures { result ≡ account_in_field field.now }
{
    match decimal(field, u64::from(u32::MAX)) {
        Some(account) => Ok(account as u32),
        None => Err(RowKind::Number),
    }
}

/// An amount of money: a decimal of 0 to `MAX_MONEY`.
pub(crate) fn amount(field: &[u8]) -> Result<u64, RowKind>
    ensures value { result ≡ amount_in_field field.now }
    ensures within { IfOk result (λ amount. amount ≤ MAX_MONEY) }
{
    decimal(field, MAX_MONEY).ok_or(RowKind::Number)
}

/// The moment in a field, from 0 to `most`; else `Number`.
pub(crate) fn moment_field(field: &[u8], most: u64) -> Result<u64, RowKind>
    ensures value { result ≡ moment_in_field most field.now }
    ensures within { IfOk result (λ at. at ≤ most) }
{
    moment(field, most).ok_or(RowKind::Number)
}

/// The last moment in a field: 0 to `MAX_MOMENT`, as units or as a date and a time, or none where
/// the field is empty.
pub(crate) fn until(field: &[u8]) -> Result<Option<Moment>, RowKind>
    ensures value { result ≡ until_in_field field.now }
    ensures within { IfOk result (λ until. expires_in_time until ≡ true) }
{
    if field.is_empty() {
        return Ok(None);
    }
    Ok(Some(moment_field(field, MAX_MOMENT)?))
}

/// The number of a party.
pub(crate) fn party(field: &[u8]) -> Result<Number, RowKind>
    ensures { result_map_both digits_of_number (λ kind. kind) result ≡ party_in_field field.now }
{
    let Ok(text) = str::from_utf8(field) else {
        return Err(RowKind::Number);
    };
    match Number::new(text) {
        Ok(party) => Ok(party),
        Err(_) => Err(RowKind::Number),
    }
}
