//! The line of the input in which a row begins, as it is shown.

ghost use Rattle.std.specs.Prelude.{Some, ◌≡◌, ◌≤◌, ◌<◌, ◌+◌, ◌++◌, ◌∷◌, [], length, OnOk, string_bytes};
ghost use Rattle.std.specs.Fmt.{WritesOnOk};
ghost use Rattle.table_commands.specs.RowLines.{ends_shown, hex_digit, is_printed, lines_ended, shown_row_line, shown_columns, shown_byte, shown_width};

use crate::explanations::starts::is_line_end;
use std::alloc::AllocError;
use std::fmt;

/// The most columns of a line that are shown.
const MOST_COLUMNS: usize = 200;

/// Adds the line in which a row begins: its number, counted by LF from 1 on, and what is in it from
/// the row's first byte on. The row begins at a byte of a table that has this text in front of it.
pub(crate) fn push_row_line(
    text: &mut String,
    before: &[u8],
    table: &[u8],
    at: usize,
) -> Result<(), AllocError>
    requires { at ≤ length table.now }
    ensures { OnOk result (string_bytes text.new
        ≡ string_bytes text.old ++ shown_row_line before.now table.now at) }
{
    let line = lines_ended(before) + lines_ended(&table[..at]) + 1;
    let shown = Shown(&table[at..]);
    writeln!(text, "line {line} of the input: {shown}")
}

/// How many lines of a text are ended by LF.
pub(crate) fn lines_ended(text: &[u8]) -> usize
    ensures value { result ≡ lines_ended text.now }
    ensures few { result ≤ length text.now }
{
    let mut ended = 0;
    for &byte in text {
        if byte == b'\n' {
            ended += 1;
        }
    }
    ended
}

/// What is in a text up to the end of its first line, as far as `MOST_COLUMNS` reach.
#[derive(Clone, Copy)]
pub(crate) struct Shown<'a>(pub &'a [u8]);

impl fmt::Display for Shown<'_> {
    ghost use Rattle.table_commands.specs.declared.explanations.row_line.TheConstants.{MOST_COLUMNS};

    ghost output = { λ shown. Some (shown_columns MOST_COLUMNS shown.0.now) };

    fn fmt<W: fmt::Write>(&self, f: &mut fmt::Formatter<W>) -> fmt::Result {
        let mut room = MOST_COLUMNS;
        for &byte in self.0 {
            if ends_shown(room, byte) {
                return Ok(());
            }
            write_byte(f, byte)?;
            room -= width_of(byte);
        }
        Ok(())
    }
}

/// Whether nothing more is shown from a byte on, where there is room for so many columns.
fn ends_shown(room: usize, byte: u8) -> bool
    ensures { result ≡ ends_shown room byte }
{
    is_line_end(byte) || room < width_of(byte)
}

/// How many columns a byte takes.
fn width_of(byte: u8) -> usize
    ensures { result ≡ shown_width byte }
{
    if is_printed(byte) { 1 } else { 4 }
}

/// Whether a byte is shown as it is.
fn is_printed(byte: u8) -> bool
    ensures { result ≡ is_printed byte }
{
    byte >= b' ' && byte < 0x7F
}

/// Writes a byte: as it is, or as `\x` and two digits.
fn write_byte<W: fmt::Write>(f: &mut fmt::Formatter<W>, byte: u8) -> fmt::Result
    ensures { WritesOnOk W.write_str_gives f.old result (shown_byte byte) f.new }
{
    if is_printed(byte) {
        return write_ascii(f, byte);
    }
    f.write_str("\\x")?;
    write_ascii(f, hex_digit(byte / 16))?;
    write_ascii(f, hex_digit(byte % 16))
}

/// The digit of a number below 16.
fn hex_digit(number: u8) -> u8
    requires { number < 16 }
    ensures value { result ≡ hex_digit number }
    ensures ascii { result < 128 }
{
    if number < 10 {
        b'0' + number
    } else {
        b'a' + (number - 10)
    }
}

/// Writes an ASCII character.
fn write_ascii<W: fmt::Write>(f: &mut fmt::Formatter<W>, byte: u8) -> fmt::Result
    requires { byte < 128 }
    ensures { WritesOnOk W.write_str_gives f.old result (byte ∷ []) f.new }
{
    f.write_char(char::from(byte))
}
