//! How far a table is read that is passed on byte by byte, its long rows cut.

ghost use Rattle.std.specs.Prelude.{◌≡◌, ◌≤◌, ◌++◌, ◌∷◌, List, Some, ℕ, option_to_list, drop, length, take};
ghost use Rattle.csv.specs.Machine.{step};
ghost use Rattle.csv.specs.Reading.{default_config};
ghost use Rattle.csv.specs.declared.parser.State.TheVariants as st;
ghost use Rattle.rating.specs.Cuts.{CanPass, IsMove, closing, cut_from, passed_text, cut_state_of};

use crate::call::MAX_SHOWN;
use memchr::{memchr, memrchr};

/// Where a table is within a row.
#[derive(Clone, Copy)]
pub(crate) enum Within {
    /// At the start of a field, where a quote opens it.
    StartField,
    /// In a field without quotes, or behind its quotes.
    InField,
    /// Between quotes.
    InQuoted,
    /// Behind a quote that closes the field, unless another follows.
    AfterQuote,
}

/// What a byte of a row does.
#[derive(Clone, Copy)]
pub(crate) enum Moves {
    /// It ends the row.
    EndsRow,
    /// It belongs to a field, or ends one.
    Adds(Within),
    /// It is a quote around a field, or the first of two.
    Skips(Within),
}

impl Within {
    /// What a byte does here.
    fn step(self, byte: u8) -> Moves
        ensures { IsMove result (step default_config (cut_state_of self) byte) }
    {
        match (self, byte) {
            (Within::InQuoted, b'"') => Moves::Skips(Within::AfterQuote),
            (Within::InQuoted, _) => Moves::Adds(Within::InQuoted),
            (Within::StartField, b'"') => Moves::Skips(Within::InQuoted),
            (Within::AfterQuote, b'"') => Moves::Adds(Within::InQuoted),
            (_, b',') => Moves::Adds(Within::StartField),
            (_, b'\r' | b'\n') => Moves::EndsRow,
            _ => Moves::Adds(Within::InField),
        }
    }

    /// What stands for the rest of a row that is cut here.
    fn closing(self) -> Option<u8>
        ensures { option_to_list result ≡ closing (cut_state_of self) }
    {
        match self {
            Within::InQuoted => Some(b'"'),
            _ => None,
        }
    }
}

/// Where a table is.
#[derive(Clone, Copy)]
pub(crate) enum Cursor {
    /// At its start, where a byte order mark may come.
    Start,
    /// Behind the first byte of such a mark.
    FirstMark,
    /// Behind the first two.
    SecondMark,
    /// Between two rows.
    Between,
    /// In a row that has room for so many bytes more.
    InRow(Within, usize),
    /// In the rest of a row that was cut.
    InRest(Within),
}

impl Cursor {
    /// The cursor behind a byte, and what is passed on for it.
    fn next(self, byte: u8) -> (Cursor, Option<u8>)
        ensures { (rest : List ℕ) → passed_text self (byte ∷ rest)
            ≡ option_to_list result.1 ++ passed_text result.0 rest }
    {
        match (self, byte) {
            (Cursor::Start, 0xEF) => (Cursor::FirstMark, Some(byte)),
            (Cursor::FirstMark, 0xBB) => (Cursor::SecondMark, Some(byte)),
            (Cursor::SecondMark, 0xBF) => (Cursor::Between, Some(byte)),
            (Cursor::Start, _) => between(byte),
            (Cursor::Between, _) => between(byte),
            (Cursor::FirstMark, _) => in_row(Within::InField, MAX_SHOWN - 1, byte),
            (Cursor::SecondMark, _) => in_row(Within::InField, MAX_SHOWN - 2, byte),
            (Cursor::InRow(within, room), _) => in_row(within, room, byte),
            (Cursor::InRest(within), _) => in_rest(within, byte),
        }
    }

    /// Passes on a piece of a table, at its front, and answers how many bytes are left of it.
    pub(crate) fn pass(&mut self, piece: &mut [u8]) -> usize
        ensures within { result ≤ length piece.new }
        ensures passes { (rest : List ℕ) → passed_text self.old (piece.old ++ rest)
            ≡ take result piece.new ++ passed_text self.new rest }
    {
        let start = self.skip(piece);
        let mut kept = start;
        for at in start..piece.len() {
            let (cursor, given) = self.next(piece[at]);
            *self = cursor;
            if let Some(byte) = given {
                piece[kept] = byte;
                kept += 1;
            }
        }
        kept
    }

    /// Goes past the rows that end in a piece of a table as far as they have no quotes and can't be
    /// too long, so that they are passed on as they are. The answer is how many bytes they have.
    fn skip(&mut self, piece: &[u8]) -> usize
        ensures within { result ≤ length piece.now }
        ensures passes { (rest : List ℕ) → passed_text self.old (piece.now ++ rest)
            ≡ take result piece.now ++ passed_text self.new (drop result piece.now ++ rest) }
    {
        let plain = memchr(b'"', piece).unwrap_or(piece.len());
        let sure = plain.min(self.sure());
        match memrchr(b'\n', &piece[..sure]) {
            Some(end) => {
                *self = Cursor::Between;
                end + 1
            }
            None => 0,
        }
    }

    /// How many bytes are passed on as they are, if no quote is among them.
    fn sure(self) -> usize
        ensures { CanPass self result }
    {
        match self {
            Cursor::Between => MAX_SHOWN,
            Cursor::InRow(Within::StartField | Within::InField, room) => room.min(MAX_SHOWN),
            _ => 0,
        }
    }
}

/// The cursor behind a byte at which no row has begun, and what is passed on for it. An empty line
/// is no row.
fn between(byte: u8) -> (Cursor, Option<u8>)
    ensures { (rest : List ℕ)
        → cut_from MAX_SHOWN st.StartRecord (Some MAX_SHOWN) (byte ∷ rest)
        ≡ option_to_list result.1 ++ passed_text result.0 rest }
{
    if byte == b'\r' || byte == b'\n' {
        (Cursor::Between, Some(byte))
    } else {
        in_row(Within::StartField, MAX_SHOWN, byte)
    }
}

/// The cursor behind a byte of a row that has room for so many, and what is passed on for it.
fn in_row(within: Within, room: usize, byte: u8) -> (Cursor, Option<u8>)
    ensures { (rest : List ℕ) → cut_from MAX_SHOWN (cut_state_of within) (Some room) (byte ∷ rest)
        ≡ option_to_list result.1 ++ passed_text result.0 rest }
{
    match within.step(byte) {
        Moves::EndsRow => (Cursor::Between, Some(byte)),
        Moves::Skips(to) => (Cursor::InRow(to, room), Some(byte)),
        Moves::Adds(to) if room > 0 => (Cursor::InRow(to, room - 1), Some(byte)),
        Moves::Adds(to) => (Cursor::InRest(to), within.closing()),
    }
}

/// The cursor behind a byte of the rest of a row, and what is passed on for it: what ends the row.
fn in_rest(within: Within, byte: u8) -> (Cursor, Option<u8>)
    ensures { (rest : List ℕ) → cut_from MAX_SHOWN (cut_state_of within) None (byte ∷ rest)
        ≡ option_to_list result.1 ++ passed_text result.0 rest }
{
    match within.step(byte) {
        Moves::EndsRow => (Cursor::Between, Some(byte)),
        Moves::Skips(to) => (Cursor::InRest(to), None),
        Moves::Adds(to) => (Cursor::InRest(to), None),
    }
}
