//! The columns of a table, found by their names.

ghost use Rattle.std.specs.Prelude.{◌≡◌, ◌≤◌, ◌+◌, ◌-◌, ◌^◌, drop, IfSome};
ghost use Rattle.csv.specs.Records.{fields_of};
ghost use Rattle.rating.specs.Columns.{found_columns, needed_column, paid_column, place_from, sought, times_in, usual_times};
ghost use Rattle.rating.specs.SaidOf.{wished_names};

use crate::ask::{Column, Names, TimeNames};
use crate::fault::HeaderFault;
use csv::ByteRecord;
use table_core::has_word;

/// Where the columns of a call's times are, from 0.
#[derive(Clone, Copy)]
pub(crate) enum TimeColumns {
    /// How long it lasted.
    Time(usize),
    /// When it ended.
    End(usize),
    /// The times before the tariff switch and after it.
    Split(usize, usize),
}

/// Where the columns are, from 0.
#[derive(Clone, Copy)]
pub(crate) struct Columns {
    pub(crate) called: usize,
    pub(crate) answer: usize,
    pub(crate) times: TimeColumns,
    pub(crate) paid: Option<usize>,
}

impl Columns {
    /// The columns of a header by these names, or what is wrong with it first.
    #[tactic(auto, unfolding(crate::specs::Columns::found_columns))]
    pub(crate) fn find(header: &ByteRecord, names: &Names<'_>) -> Result<Columns, HeaderFault>
        ensures { result ≡ found_columns (fields_of header.now) (wished_names names.now) }
    {
        let called = needed(header, names, Column::Called)?;
        let answer = needed(header, names, Column::Answer)?;
        let times = times(header, names)?;
        let paid = paid(header, names)?;
        Ok(Columns {
            called,
            answer,
            times,
            paid,
        })
    }
}

/// The columns of the times.
fn times(header: &ByteRecord, names: &Names<'_>) -> Result<TimeColumns, HeaderFault>
    ensures { result ≡ times_in (fields_of header.now) (wished_names names.now) }
{
    match names.times {
        TimeNames::UsualNames => usual_times(header, names),
        TimeNames::Time(_) => Ok(TimeColumns::Time(needed(header, names, Column::Time)?)),
        TimeNames::End(_) => Ok(TimeColumns::End(needed(header, names, Column::End)?)),
        TimeNames::Split(_, _) => {
            let before = needed(header, names, Column::Before)?;
            let after = needed(header, names, Column::After)?;
            Ok(TimeColumns::Split(before, after))
        }
    }
}

/// The columns of the times by their usual names.
fn usual_times(header: &ByteRecord, names: &Names<'_>) -> Result<TimeColumns, HeaderFault>
    ensures { result ≡ usual_times (fields_of header.now) (wished_names names.now) }
{
    let before = sought(header, names, Column::Before)?;
    let after = sought(header, names, Column::After)?;
    if let (Some(before), Some(after)) = (before, after) {
        return Ok(TimeColumns::Split(before, after));
    }
    match sought(header, names, Column::Time)? {
        Some(place) => Ok(TimeColumns::Time(place)),
        None => Ok(TimeColumns::End(needed(header, names, Column::End)?)),
    }
}

/// The column of what was charged, where there is one.
fn paid(header: &ByteRecord, names: &Names<'_>) -> Result<Option<usize>, HeaderFault>
    ensures { result ≡ paid_column (fields_of header.now) (wished_names names.now) }
{
    match names.paid {
        Some(_) => Ok(Some(needed(header, names, Column::Paid)?)),
        None => sought(header, names, Column::Paid),
    }
}

/// The place of a column that the header must have once.
fn needed(header: &ByteRecord, names: &Names<'_>, column: Column) -> Result<usize, HeaderFault>
    ensures { result ≡ needed_column (fields_of header.now) (wished_names names.now) column }
{
    sought(header, names, column)?.ok_or(HeaderFault::Missing(column))
}

/// The place of a column, none where the header doesn't have it; a fault where it has it twice.
fn sought(
    header: &ByteRecord,
    names: &Names<'_>,
    column: Column,
) -> Result<Option<usize>, HeaderFault>
    ensures { result ≡ sought (fields_of header.now) (wished_names names.now) column }
{
    let name = names.of(column);
    let Some(place) = place_from(header, name, 0) else {
        return Ok(None);
    };
    match place_from(header, name, place + 1) {
        Some(_) => Err(HeaderFault::Repeated(column)),
        None => Ok(Some(place)),
    }
}

/// The first place of a name from a place on.
fn place_from(header: &ByteRecord, name: &str, start: usize) -> Option<usize>
    ensures value { result
        ≡ place_from (drop start (fields_of header.now)) name.now start }
    ensures next { IfSome result (λ place. place + 1 ≤ 2 ^ 64 - 1) }
{
    for place in start..header.len() {
        if has_word(header, place, name) {
            return Some(place);
        }
    }
    None
}
