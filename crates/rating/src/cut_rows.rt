//! A reader of a table whose long rows are cut.

ghost use Rattle.std.specs.Prelude.{◌≡◌, option_map};

use crate::cursor::Cursor;
use std::io::{Error, ErrorKind, Read, Result};

/// A reader of a table that passes on no more than the first `MAX_SHOWN` bytes of a row, and then
/// what ends it: a quote where one is open, and its line end. So a row of any length is read in
/// little memory, and the row behind it is whole.
pub(crate) struct CutRows<R> {
    reader: R,
    cursor: Cursor,
}

impl<R: Drop> Drop for CutRows<R> {
    fn drop(self) {
        let CutRows {
            reader: _reader,
            cursor: _cursor,
        } = self;
    }
}

impl<R: Read> CutRows<R> {
    ghost use Rattle.rating.specs.Cuts.{cut_cursor, reader_of};
    ghost use Rattle.rating.specs.declared.cursor.Cursor.TheVariants as cursor;

    /// The table of a reader, from its start.
    pub(crate) fn new(reader: R) -> CutRows<R>
        ensures reader { reader_of result ≡ reader }
        ensures cursor { cut_cursor result ≡ cursor.Start }
    {
        CutRows {
            reader,
            cursor: Cursor::Start,
        }
    }
}

impl<R: Read> Read for CutRows<R> {
    ghost use Rattle.std.specs.Prelude.{option_map};
    ghost use Rattle.rating.specs.Cuts.{passed_text, cut_cursor, reader_of};

    ghost remaining = { λ rows. option_map (passed_text (cut_cursor rows)) (R.remaining
        (reader_of rows)) };

    fn read(&mut self, buf: &mut [u8]) -> Result<usize> {
        for _turn in 0..u64::MAX {
            let count = self.reader.read(buf)?;
            if count == 0 {
                return Ok(0);
            }
            let kept = self.cursor.pass(&mut buf[..count]);
            if kept > 0 {
                return Ok(kept);
            }
        }
        Err(Error::from(ErrorKind::Interrupted))
    }
}
