//! The rows that are printed, as `csv` writes them.

ghost use Rattle.std.specs.Prelude.{◌≡◌, ◌++◌, ◌∷◌, [], codes, OnOk};
ghost use Rattle.std.specs.Fmt.{decimal};
ghost use Rattle.std.specs.List.{list_any};
ghost use Rattle.csv.specs.Records.{fields_of};
ghost use Rattle.csv.specs.Writing.{default_writer, escaped, field_text, needs_byte, quoted};
ghost use Rattle.table_core.specs.Rows.{Fields};
ghost use Rattle.rating.specs.Calls.{with_commas};
ghost use Rattle.rating.specs.Lines.{cell, charge_text, columns_text, difference, header_line};
ghost use Rattle.rating.specs.SaidOf.{rating_of};

use crate::PricedTimes;
use crate::rated::Rated;
use csv::ByteRecord;
use itoa::Buffer;
use std::alloc::AllocError;
use table_core::field;

/// Adds the names of the six columns behind the fields of a header, and the end of its line.
pub(crate) fn push_names(text: &mut Vec<u8>) -> Result<(), AllocError>
    ensures { OnOk result ((header : Fields) → text.old.items ≡ with_commas header
        → text.new.items ≡ header_line header) }
{
    text.extend_from_slice(b"prefix,before,after,price,difference,fault\n")
}

/// Adds the fields of a row, each with a comma behind it.
pub(crate) fn push_fields(text: &mut Vec<u8>, row: &ByteRecord) -> Result<(), AllocError>
    ensures { OnOk result (text.new.items
        ≡ text.old.items ++ with_commas (fields_of row.now)) }
{
    for place in 0..row.len() {
        push_field(text, field(row, place))?;
        text.extend_from_slice(b",")?;
    }
    Ok(())
}

/// Adds a field, in quotes where it needs them.
fn push_field(text: &mut Vec<u8>, field: &[u8]) -> Result<(), AllocError>
    ensures { OnOk result (text.new.items
        ≡ text.old.items ++ field_text default_writer field.now) }
{
    if needs_quotes(field) {
        push_quoted(text, field)
    } else {
        text.extend_from_slice(field)
    }
}

/// Whether a field needs quotes.
fn needs_quotes(field: &[u8]) -> bool
    ensures { result ≡ list_any (needs_byte default_writer) field.now }
{
    field
        .iter()
        .any(|byte| matches!(*byte, b',' | b'"' | b'\r' | b'\n'))
}

/// Adds a field in quotes, each quote in it twice.
fn push_quoted(text: &mut Vec<u8>, field: &[u8]) -> Result<(), AllocError>
    ensures { OnOk result (text.new.items
        ≡ text.old.items ++ quoted default_writer field.now) }
{
    text.extend_from_slice(b"\"")?;
    for byte in field {
        push_escaped(text, *byte)?;
    }
    text.extend_from_slice(b"\"")
}

/// Adds a byte between quotes, a quote twice.
fn push_escaped(text: &mut Vec<u8>, byte: u8) -> Result<(), AllocError>
    ensures { OnOk result (text.new.items
        ≡ text.old.items ++ escaped default_writer (byte ∷ [])) }
{
    if byte == b'"' {
        text.extend_from_slice(b"\"\"")
    } else {
        text.extend_from_slice(&[byte])
    }
}

/// Adds the six columns of a row, and the end of its line.
pub(crate) fn push_rated(text: &mut Vec<u8>, rated: &Rated<'_>) -> Result<(), AllocError>
    ensures { OnOk result (text.new.items
        ≡ text.old.items ++ columns_text (rating_of rated.now)) }
{
    match rated {
        Rated::Priced(prefix, charge, paid) => {
            push_field(text, prefix)?;
            push_charge(text, charge)?;
            push_difference(text, charge.price, *paid)?;
            text.extend_from_slice(b",\n")
        }
        Rated::Faulty(kind) => {
            text.extend_from_slice(b",,,,,")?;
            text.extend_from_slice(kind.name().as_bytes())?;
            text.extend_from_slice(b"\n")
        }
    }
}

/// Adds the times and the price, a comma before each and one behind all.
fn push_charge(text: &mut Vec<u8>, charge: &PricedTimes) -> Result<(), AllocError>
    ensures { OnOk result (text.new.items
        ≡ text.old.items ++ charge_text charge.now) }
{
    push_number(text, u64::from(charge.before))?;
    push_number(text, u64::from(charge.after))?;
    push_number(text, charge.price)?;
    text.extend_from_slice(b",")
}

/// Adds a number in decimals behind a comma.
fn push_number(text: &mut Vec<u8>, number: u64) -> Result<(), AllocError>
    ensures { OnOk result (text.new.items
        ≡ text.old.items ++ (codes "," ++ cell (decimal number))) }
{
    text.extend_from_slice(b",")?;
    push_decimal(text, number)
}

/// Adds the price less what was charged, where that is recorded.
fn push_difference(text: &mut Vec<u8>, price: u64, paid: Option<u64>) -> Result<(), AllocError>
    ensures { OnOk result (text.new.items ≡ text.old.items ++ cell (difference price paid)) }
{
    match paid {
        Some(paid) if price < paid => push_negative(text, paid - price),
        Some(paid) => push_decimal(text, price - paid),
        None => Ok(()),
    }
}

/// Adds a number in decimals behind a minus.
fn push_negative(text: &mut Vec<u8>, number: u64) -> Result<(), AllocError>
    ensures { OnOk result (text.new.items
        ≡ text.old.items ++ cell (codes "-" ++ decimal number)) }
{
    text.extend_from_slice(b"-")?;
    push_decimal(text, number)
}

/// Adds a number in decimals.
fn push_decimal(text: &mut Vec<u8>, number: u64) -> Result<(), AllocError>
    ensures { OnOk result (text.new.items ≡ text.old.items ++ cell (decimal number)) }
{
    let mut digits = Buffer::new();
    text.extend_from_slice(digits.format(number).as_bytes())
}
