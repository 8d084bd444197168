//! The fields of a row, and the numbers in them.

ghost use Rattle.std.specs.Prelude.{◌≡◌, ◌≤◌, ◌++◌, length, unwrap_or, IfOk, true, IfSome, OnOk, string_bytes};
ghost use Rattle.std.specs.Char.{is_ascii_digit};
ghost use Rattle.std.specs.List.{list_all};
ghost use Rattle.std.specs.Str.{bytes_eq};
ghost use Rattle.std.specs.Str.Parse.{digits_value};
ghost use Rattle.std.specs.Fmt.{decimal};
ghost use Rattle.table_core.specs.Fields.{field_in, has_word, is_blank, number_in, optional_in, when_blank};
ghost use Rattle.table_core.specs.Decimals.{decimal_of, digits_of, is_decimal, digits_text};
ghost use Rattle.csv.specs.Records.{fields_of};

use crate::RowKind;
use csv::ByteRecord;
use std::alloc::AllocError;

/// The most digits that a decimal may have, leading zeros counted.
const MAX_DIGITS: usize = 20;

/// The bytes of the field at `place`, from 0; none where the row ends before it.
pub fn field(row: &ByteRecord, place: usize) -> &[u8]
    ensures { result.now ≡ field_in (fields_of row.now) place }
{
    row.get(place).unwrap_or(&[])
}

/// Whether a field is `word`, byte for byte.
pub fn is_word(field: &[u8], word: &str) -> bool
    ensures { result ≡ bytes_eq field.now word.now }
{
    field == word.as_bytes()
}

/// Whether the field at `place` is `word`, byte for byte.
pub fn has_word(row: &ByteRecord, place: usize, word: &str) -> bool
    ensures { result ≡ has_word (fields_of row.now) place word.now }
{
    is_word(field(row, place), word)
}

/// The decimal in the field at `place`, from 0 to `most`; else `Number`.
pub fn number(row: &ByteRecord, place: usize, most: u64) -> Result<u64, RowKind>
    ensures value { result ≡ number_in (fields_of row.now) place most }
    ensures within { IfOk result (λ number. number ≤ most) }
{
    decimal(field(row, place), most).ok_or(RowKind::Number)
}

/// Whether the field at `place` is empty, or the row ends before it.
pub fn is_blank(row: &ByteRecord, place: usize) -> bool
    ensures { result ≡ is_blank (fields_of row.now) place }
{
    field(row, place).is_empty()
}

/// The decimal in the field at `place`, from 0 to `most`, or none where that is empty; else
/// `Number`.
pub fn optional(row: &ByteRecord, place: usize, most: u64) -> Result<Option<u64>, RowKind>
    ensures value { result ≡ optional_in (fields_of row.now) place most }
    ensures within { IfOk result (λ number. unwrap_or number 0 ≤ most) }
{
    if is_blank(row, place) {
        return Ok(None);
    }
    Ok(Some(number(row, place, most)?))
}

/// What was read of a row, where the fields that must be empty are; else `Empty`.
pub fn when_blank<T: Copy>(blank: bool, read: T) -> Result<T, RowKind>
    ensures { result ≡ when_blank blank read }
{
    if blank { Ok(read) } else { Err(RowKind::Empty) }
}

/// The number that a text of 1 to 20 ASCII digits writes, or none where the text is anything else
/// or its number is above `most`. Leading zeros are accepted, a sign is not.
#[tactic(auto, unfolding(crate::specs::Decimals::decimal_of, crate::specs::Decimals::digits_of))]
pub fn decimal(text: &[u8], most: u64) -> Option<u64>
    ensures value { result ≡ decimal_of most text.now }
    ensures within { IfSome result (λ number. number ≤ most) }
{
    if text.len() >= MAX_DIGITS {
        return long_decimal(text, most);
    }
    let number = short_decimal(text)?;
    if number > most {
        return None;
    }
    Some(number)
}

/// The number that a text of 1 to 19 ASCII digits writes: any such number has 64 bits.
#[tactic(auto, unfolding(crate::specs::Decimals::digits_of))]
fn short_decimal(text: &[u8]) -> Option<u64>
    requires short { length text.now ≤ 19 }
    ensures { result ≡ digits_of text.now }
{
    if text.is_empty() {
        return None;
    }
    let mut number = 0;
    for byte in text {
        if !byte.is_ascii_digit() {
            return None;
        }
        number = number * 10 + u64::from(*byte - b'0');
    }
    Some(number)
}

/// What `decimal` gives of any text. It stands apart, so that a short text needs no registers for
/// it.
#[cold]
#[inline(never)]
#[tactic(auto, unfolding(crate::specs::Decimals::decimal_of))]
fn long_decimal(text: &[u8], most: u64) -> Option<u64>
    ensures value { result ≡ decimal_of most text.now }
    ensures within { IfSome result (λ number. number ≤ most) }
{
    if !is_decimal(text) {
        return None;
    }
    let value = digits_value(text);
    if value > u128::from(most) {
        return None;
    }
    Some(value as u64)
}

/// Whether a text is 1 to 20 ASCII digits.
pub fn is_decimal(text: &[u8]) -> bool
    ensures { result ≡ is_decimal text.now }
{
    !text.is_empty() && text.len() <= MAX_DIGITS && are_digits(text)
}

/// Whether a text has nothing but ASCII digits.
pub fn are_digits(text: &[u8]) -> bool
    ensures { result ≡ list_all is_ascii_digit text.now }
{
    text.iter().all(|byte| byte.is_ascii_digit())
}

fn digits_value(text: &[u8]) -> u128
    requires digits { list_all is_ascii_digit text.now ≡ true }
    requires short { length text.now ≤ 20 }
    ensures { result ≡ digits_value 10 text.now }
{
    let mut value = 0;
    for byte in text {
        value = value * 10 + u128::from(*byte - b'0');
    }
    value
}

/// Adds digits to a text: what each ASCII digit stands for, in decimals.
pub fn write_digits(text: &mut String, digits: &[u8]) -> Result<(), AllocError>
    ensures { OnOk result (string_bytes text.new
        ≡ string_bytes text.old ++ digits_text digits.now) }
{
    for digit in digits {
        write_digit(text, digit.saturating_sub(b'0'))?;
    }
    Ok(())
}

/// Adds a number in decimals: one of a single digit as a character, which is quicker.
fn write_digit(text: &mut String, number: u8) -> Result<(), AllocError>
    ensures { OnOk result (string_bytes text.new ≡ string_bytes text.old ++ decimal number) }
{
    match char::from_digit(u32::from(number), 10) {
        Some(digit) => text.push(digit),
        None => write!(text, "{number}"),
    }
}
