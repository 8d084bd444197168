//! How a table of books is audited, and how long it may be.

use table_core::MAX_TABLE_ROWS;

/// The most rows of a short table of books, its header not counted.
pub const MAX_ROWS: u32 = 1_000_000;

/// How a table of books is audited.
#[derive(Clone, Copy)]
pub struct AuditAsk {
    /// How long the table may be.
    pub size: BookSize,
    /// Whether the first wrong row of each account is printed.
    pub rows: bool,
    /// Whether the lines are printed that a run prints of such books.
    pub lines: bool,
}

/// How long a table of books may be that is audited.
#[derive(Clone, Copy)]
pub enum BookSize {
    /// At most `MAX_ROWS` rows, 1,000,000.
    Short,
    /// At most `table_core::MAX_TABLE_ROWS` rows, as many as any table may have.
    Long,
}

impl BookSize {
    ghost use Rattle.std.specs.Prelude.{◌≡◌};
    ghost use Rattle.book_texts.specs.Sizes.{most_rows};

    /// How many rows it may have besides its header.
    pub fn most_rows(self) -> u32
        ensures { result ≡ most_rows self }
    {
        match self {
            BookSize::Short => MAX_ROWS,
            BookSize::Long => MAX_TABLE_ROWS,
        }
    }
}
