//! The seat of an entry.

ghost use Rattle.std.specs.Prelude.{◌≡◌};
ghost use Rattle.csv.specs.Records.{fields_of};
ghost use Rattle.table_core.specs.Fields.{field_in};
ghost use Rattle.book_texts.specs.Column.{seat_of};

use csv::ByteRecord;
use table_core::{RowKind, number};

/// The highest number of a seat.
const LAST_SEAT: u64 = 15;

/// The seat in the field at `place`, 0 to 15; else `Number`.
pub fn read_seat(row: &ByteRecord, place: usize) -> Result<u32, RowKind>
    ensures { result ≡ seat_of (field_in (fields_of row.now) place) }
{
    let seat = number(row, place, LAST_SEAT)?;
    Ok(seat as u32)
}
