//! A table that is read row after row: its header first, and then the rows that it may have.

ghost use Rattle.std.specs.Prelude.{◌≡◌, ◌≤◌, ◌+◌, Some, IfErr, IfOk, IfSome};
ghost use Rattle.std.specs.List.{position};
ghost use Rattle.table_core.specs.Rows.{rows_of, HasRowsLeft, TakesTableRow};
ghost use Rattle.table_core.specs.Tables.{headers_of, is_header, names_of};
ghost use Rattle.table_core.specs.Faults.{IsOfReading};
ghost use Rattle.csv.specs.Records.{fields_of};
ghost use Rattle.table_core.specs.declared.fault.TableFault.TheVariants as out;
ghost use Rattle.table_core.specs.declared.table.TheConstants.{MAX_TABLE_ROWS};

use crate::{RowFault, RowKind, TableFault, has_word};
use csv::{ByteRecord, Reader, ReaderBuilder};
use std::alloc::Global;
use std::io::Read;

/// The most rows that a table may have besides its header, so that the number of a row too many
/// fits into 32 bits.
pub const MAX_TABLE_ROWS: u32 = u32::MAX - 2;

/// The rows of a table below its header, judged one after another: each has as many fields as the
/// header, and there are no more of them than the table may have.
///
/// The header is row 1. After a fault no row is read: each later call answers the fault again.
pub struct Table<R> {
    rows: Rows<R>,
    header: usize,
    width: usize,
    most_rows: u32,
    number: u32,
    fault: Option<TableFault>,
    ghost within: { number ≤ most_rows + 1 },
    ghost counted: { most_rows ≤ MAX_TABLE_ROWS },
}

// Written out, since a derived one is proved field by field again wherever a table is let go.
impl<R: Drop> Drop for Table<R> {
    fn drop(self) {
        let Table {
            rows: _rows,
            header: _header,
            width: _width,
            most_rows: _limit,
            number: _number,
            fault: _fault,
        } = self;
    }
}

impl<R: Read + Drop> Table<R> {
    ghost use Rattle.table_core.specs.Reading.{IsAtFirst, MovesRow, Opens, StepsRow, header_of, row_number_of, row_of_table, stopped_by};

    /// The table of `reader`, whose first row is one of these headers, and which has at most
    /// `most_rows` rows besides it. `Header` is the fault of row 1.
    pub fn open(
        alloc: Global,
        reader: R,
        headers: &[&[&str]],
        most_rows: u32,
    ) -> Result<Table<R>, TableFault>
        requires { most_rows ≤ MAX_TABLE_ROWS }
        ensures opens { IfSome (R.remaining reader)
            (λ text. Opens R.remaining (headers_of headers.now) result (rows_of text)) }
        ensures first { IfOk result (IsAtFirst (headers_of headers.now) most_rows) }
    {
        let no_header = TableFault::Row(RowFault {
            row: 1,
            kind: RowKind::Header,
        });
        let mut rows = Rows::new(alloc, reader);
        if !rows.next_row()? {
            return Err(no_header);
        }
        let header = which_header(headers, rows.row()).ok_or(no_header)?;
        Ok(Table {
            width: rows.row().len(),
            rows,
            header,
            most_rows,
            number: 1,
            fault: None,
        })
    }

    /// Takes the next row, which is then `row`, or answers false where none is left.
    ///
    /// A row has the fault `Csv` where it has another number of fields than the header, and then
    /// `TooManyRows` where the table has more rows than it may have.
    #[inline(always)]
    pub fn next_row(&mut self) -> Result<bool, TableFault>
        ensures steps { StepsRow R.remaining self.old self.new result }
        ensures moves { MovesRow self.old self.new result }
        ensures fault { IfErr result (λ fault. stopped_by self.new ≡ Some fault) }
        ensures stays { IfSome (stopped_by self.old) (λ fault. result ≡ Err fault) }
    {
        if let Some(fault) = self.fault {
            return Err(fault);
        }
        let found = self.take_row();
        self.fault = found.err();
        found
    }

    #[inline(always)]
    fn take_row(&mut self) -> Result<bool, TableFault>
        ensures steps { StepsRow R.remaining self.old self.new result }
        ensures moves { MovesRow self.old self.new result }
        ensures same { stopped_by self.new ≡ stopped_by self.old }
    {
        if !self.rows.next_row()? {
            return Ok(false);
        }
        let row = self.number + 1;
        if self.rows.row().len() != self.width {
            return Err(TableFault::Row(RowFault {
                row,
                kind: RowKind::Csv,
            }));
        }
        if self.number > self.most_rows {
            return Err(TableFault::Row(RowFault {
                row,
                kind: RowKind::TooManyRows,
            }));
        }
        self.number = row;
        Ok(true)
    }

    /// The row that was taken last.
    pub fn row(&self) -> &ByteRecord
        ensures { result.now ≡ row_of_table self.now }
    {
        self.rows.row()
    }

    /// The number of that row.
    pub fn number(&self) -> u32
        ensures { result ≡ row_number_of self.now }
    {
        self.number
    }

    /// Which of the headers the table has, from 0.
    pub fn header(&self) -> usize
        ensures { result ≡ header_of self.now }
    {
        self.header
    }

    /// The fault of the row that was taken last.
    pub fn fault(&self, kind: RowKind) -> TableFault
        ensures { result ≡ out.Row (record { row = row_number_of self.now; kind = kind }) }
    {
        TableFault::Row(RowFault {
            row: self.number,
            kind,
        })
    }
}

/// The first of these headers that a row is.
fn which_header(headers: &[&[&str]], row: &ByteRecord) -> Option<usize>
    ensures { result
        ≡ position (λ names. is_header (names_of names.now) (fields_of row.now)) headers.now }
{
    headers.iter().position(|names| is_header(names, row))
}

/// Whether a row has these fields, in this order.
fn is_header(names: &[&str], row: &ByteRecord) -> bool
    ensures { result ≡ is_header (names_of names.now) (fields_of row.now) }
{
    if row.len() != names.len() {
        return false;
    }
    for (place, name) in names.iter().enumerate() {
        if !has_word(row, place, name) {
            return false;
        }
    }
    true
}

/// The rows of a CSV text, each read into the same record. A row is what `csv` gives as a record:
/// empty lines are none, a byte order mark at the start is passed over, and the fields are bytes.
pub struct Rows<R> {
    reader: Reader<R>,
    row: ByteRecord,
}

// Written out, since a derived one is proved field by field again wherever a table is let go.
impl<R: Drop> Drop for Rows<R> {
    fn drop(self) {
        let Rows {
            reader: _reader,
            row: _row,
        } = self;
    }
}

impl<R: Read + Drop> Rows<R> {
    ghost use Rattle.table_core.specs.Reading.{row_of};

    /// All the rows of `reader`, its first included.
    pub fn new(alloc: Global, reader: R) -> Rows<R>
        ensures { IfSome (R.remaining reader) (λ text. HasRowsLeft R.remaining result
            (rows_of text)) }
    {
        let reader = ReaderBuilder::new()
            .has_headers(false)
            .flexible(true)
            .from_reader(alloc, reader);
        Rows {
            reader,
            row: ByteRecord::new(alloc),
        }
    }

    /// Takes the next row, which is then `row`, or answers false where none is left.
    #[inline(always)]
    pub fn next_row(&mut self) -> Result<bool, TableFault>
        ensures takes { IfOk result (TakesTableRow R.remaining self.old self.new) }
        ensures fault { IfErr result IsOfReading }
    {
        match self.reader.read_byte_record(&mut self.row) {
            Ok(found) => Ok(found),
            Err(error) if error.is_io_error() => Err(TableFault::Device),
            Err(_) => Err(TableFault::OutOfMemory),
        }
    }

    /// The row that was taken last.
    pub fn row(&self) -> &ByteRecord
        ensures { result.now ≡ row_of self.now }
    {
        &self.row
    }
}
