//! The rows of a tariff table, and an index that finds them.

ghost use Rattle.std.specs.Prelude.{◌≡◌, ◌≤◌, ◌<◌, ◌+◌, ◌%◌, [], false, true, nat_le, Some, None, IfNone, IfSome, OnOk, All};
ghost use Rattle.std.specs.List.{list_any};
ghost use Rattle.tariff_core.specs.Bands.{counts_on, has_band, has_midnights, have_steps, weekday};
ghost use Rattle.tariff_core.specs.Digits.{text_of_digits};
ghost use Rattle.tariff_core.specs.Routes.{IsBandAt, IsSoonest};
ghost use Rattle.tariff_core.specs.Tariff.{AreNoLonger, Finds, Indexes, IsIndexed, ReadsAs, KeepsRow, band_of, key_of};
ghost use Rattle.tariff_core.specs.TariffTable.{GivesBands, bands_of, new_band_in, repeats, without_midnight};
ghost use Rattle.price_core.specs.Rates.{are_steps};
ghost use Rattle.csv.specs.Records.{fields_of};
ghost use Rattle.table_core.specs.Rows.{rows_of};

use crate::band_key::BandKey;
use crate::days::{since_midnight, weekday};
use crate::digits::Digits;
use crate::fields::{WITH_DAYS, read_row};
use crate::row::Row;
use crate::tariff_fault::{TariffFault, TariffKind};
use csv::ByteRecord;
use price_core::DAY;
use std::alloc::{AllocError, Global};
use std::collections::BTreeMap;
use std::io::Read;
use std::marker::Model;
use table_core::Table;

/// The most rows of a table, its header not counted.
const MAX_ROWS: u32 = 10_000;

/// The headers of a table, the oldest first; the last has days (`WITH_DAYS`).
const HEADERS: [&[&str]; 4] = [
    &["prefix", "from", "fee", "rate"],
    &["prefix", "from", "fee", "rate", "free"],
    &["prefix", "from", "fee", "rate", "free", "first", "step"],
    &[
        "prefix", "from", "fee", "rate", "free", "first", "step", "days",
    ],
];

/// The rows of a tariff table in their order, no two for the same prefix and start on one weekday.
///
/// With days a row is in the index once for each weekday on which it counts, else once.
#[derive(Drop)]
pub(crate) struct Bands {
    rows: Vec<Row>,
    by_days: bool,
    index: BTreeMap<BandKey, Row>,
}

impl Model for Bands {
    ghost use Rattle.std.specs.Prelude.{List, map};
    ghost use Rattle.tariff_core.specs.Bands.{Band};

    ghost Value = { List Band };

    ghost use Rattle.tariff_core.specs.Tariff.{IsIndexed, band_of};

    ghost view = { λ b. map band_of b.rows.items };

    ghost invariant = { λ b. IsIndexed b.rows.items b.by_days b.index };
}

impl Bands {
    /// The rows of a tariff table, judged one after another as they are read; else the first fault.
    pub fn read<R: Read + Drop>(alloc: Global, reader: R) -> Result<Bands, TariffFault>
        ensures { IfSome (R.remaining reader) (λ text. GivesBands result (bands_of
            (rows_of text))) }
    {
        let mut table = match Table::open(alloc, reader, &HEADERS, MAX_ROWS) {
            Ok(table) => table,
            Err(fault) => return Err(TariffFault::at(1, fault)),
        };
        let by_days = table.header() >= WITH_DAYS;
        let mut rows = Vec::new(alloc);
        let mut index = BTreeMap::new(alloc);
        loop {
            let found = match table.next_row() {
                Ok(found) => found,
                Err(fault) => return Err(TariffFault::at(table.number() + 1, fault)),
            };
            if !found {
                return Ok(Bands {
                    rows,
                    by_days,
                    index,
                });
            }
            let row = match judge(&index, table.header(), table.row()) {
                Ok(row) => row,
                Err(kind) => return Err(TariffFault {
                    row: table.number(),
                    kind,
                }),
            };
            match keep(&mut rows, &mut index, by_days, row) {
                Ok(()) => {}
                Err(_) => {
                    return Err(TariffFault {
                        row: table.number(),
                        kind: TariffKind::OutOfMemory,
                    });
                }
            }
        }
    }

    /// The number of the first row whose prefix has no row from midnight on, on some weekday.
    pub fn without_midnight(&self) -> Option<u32>
        ensures { result ≡ without_midnight self.now 2 self.now }
    {
        for (position, row) in self.rows.iter().enumerate() {
            if !self.has_midnights(row.prefix) {
                return Some(position as u32 + 2);
            }
        }
        None
    }

    /// How many digits the longest prefix has.
    pub fn longest(&self) -> usize
        ensures short { result ≤ 15 }
        ensures no_longer { AreNoLonger result self.now }
    {
        let mut longest = 0;
        for row in self.rows.iter() {
            longest = longest.max(row.prefix.digits().len());
        }
        longest
    }

    /// Whether any row bills in steps.
    pub fn have_steps(&self) -> bool
        ensures { result ≡ have_steps self.now }
    {
        any_has_steps(self.rows.as_slice())
    }

    /// Whether a prefix has a row from midnight on, on each weekday.
    fn has_midnights(&self, prefix: Digits) -> bool
        ensures { result ≡ has_midnights (text_of_digits prefix) self.now }
    {
        let (first, end) = key_days(self.by_days);
        for day in first..end {
            let midnight = BandKey {
                prefix,
                day,
                start: 0,
            };
            if !self.index.contains_key(&midnight) {
                return false;
            }
        }
        true
    }

    /// Whether there is a row for a prefix that counts on a Monday from midnight on, as in a tariff
    /// on any other weekday.
    pub fn has(&self, prefix: Digits) -> bool
        ensures { result ≡ has_band (text_of_digits prefix) 1 0 self.now }
    {
        let day = key_of(self.by_days, 1);
        self.index.contains_key(&BandKey {
            prefix,
            day,
            start: 0,
        })
    }

    /// The row of a prefix at a moment: of those that count on its weekday, the latest that starts
    /// at the time of day or before.
    pub fn latest(&self, prefix: Digits, now: u64) -> Option<Row>
        ensures none { IfNone result (All (λ band. band.prefix ≡ text_of_digits prefix
            → counts_on (weekday now) band ≡ true → now % DAY < band.start) self.now) }
        ensures row { IfSome result
            (λ row. IsBandAt self.now (text_of_digits prefix) now (band_of row)) }
    {
        let day = key_of(self.by_days, weekday(now));
        let first = BandKey {
            prefix,
            day,
            start: 0,
        };
        let end = BandKey {
            prefix,
            day,
            start: since_midnight(now) + 1,
        };
        let (_, row) = self.index.range(first..end).next_back()?;
        Some(*row)
    }

    /// The row of a prefix that starts next after a moment, on its day.
    pub fn soonest(&self, prefix: Digits, now: u64) -> Option<Row>
        ensures none { IfNone result (All (λ band. band.prefix ≡ text_of_digits prefix
            → counts_on (weekday now) band ≡ true → band.start ≤ now % DAY) self.now) }
        ensures row { IfSome result
            (λ row. IsSoonest self.now (text_of_digits prefix) now (band_of row)) }
    {
        let day = key_of(self.by_days, weekday(now));
        let start = since_midnight(now) + 1;
        let first = BandKey { prefix, day, start };
        let end = BandKey {
            prefix,
            day,
            start: DAY,
        };
        let (_, row) = self.index.range(first..end).next()?;
        Some(*row)
    }
}

/// The day of the keys of a weekday: that weekday, or 0 in a table without days.
fn key_of(by_days: bool, day: u8) -> u8
    ensures { result ≡ key_of by_days day }
{
    if by_days { day } else { 0 }
}

/// The days of all keys, from the first to before the end: each weekday, or 0.
fn key_days(by_days: bool) -> (u8, u8)
    ensures first { result.0 ≡ key_of by_days 1 }
    ensures end { result.1 ≡ key_of by_days 7 + 1 }
{
    (key_of(by_days, 1), key_of(by_days, 7) + 1)
}

/// Whether any of these rows bills in steps.
fn any_has_steps(rows: &[Row]) -> bool
    ensures { result ≡ list_any (λ row. are_steps row.cost.first row.cost.step) rows.now }
{
    rows.iter().any(|row| row.has_steps())
}

/// The row that these fields say, after the rows that are in the index.
fn judge(
    index: &BTreeMap<BandKey, Row>,
    header: usize,
    fields: &ByteRecord,
) -> Result<Row, TariffKind>
    ensures { (bands : _) → Indexes (nat_le 3 header) index.now bands
        → ReadsAs band_of result (new_band_in header bands (fields_of fields.now)) }
{
    let row = read_row(header, fields)?;
    if is_repeated(index, header >= WITH_DAYS, &row) {
        return Err(TariffKind::Repeated);
    }
    Ok(row)
}

/// Whether the index has a row with the prefix and the start of this one on one of its days.
fn is_repeated(index: &BTreeMap<BandKey, Row>, by_days: bool, row: &Row) -> bool
    requires { by_days ≡ false → text_of_digits row.now.days ≡ [] }
    ensures { (bands : _) → Indexes by_days index.now bands
        → result ≡ repeats bands (band_of row.now) }
{
    let (first, end) = key_days(by_days);
    for day in first..end {
        if row.counts_on(day) && index.contains_key(&row.key(day)) {
            return true;
        }
    }
    false
}

/// Puts a row at the end and into the index.
fn keep(
    rows: &mut Vec<Row>,
    index: &mut BTreeMap<BandKey, Row>,
    by_days: bool,
    row: Row,
) -> Result<(), AllocError>
    requires { by_days ≡ false → text_of_digits row.days ≡ [] }
    ensures { OnOk result (KeepsRow by_days rows.old.items index.old row rows.new.items index.new) }
{
    index_row(index, by_days, row)?;
    rows.push(row)?;
    Ok(())
}

/// Puts a row into the index, by its key for each day on which it counts.
fn index_row(index: &mut BTreeMap<BandKey, Row>, by_days: bool, row: Row) -> Result<(), AllocError>
    requires { by_days ≡ false → text_of_digits row.days ≡ [] }
    ensures { OnOk result (Finds by_days index.old row index.new) }
{
    let (first, end) = key_days(by_days);
    for day in first..end {
        if row.counts_on(day) {
            index.insert(row.key(day), row)?;
        }
    }
    Ok(())
}
