//! What is wrong with a line.

ghost use Rattle.std.specs.Prelude.{Some};
ghost use Rattle.run_texts.specs.Kinds.{line_kind_name};

use std::fmt;
use table_core::RowKind;

/// What is wrong with a line.
#[derive(Clone, Copy, Debug, PartialEq, Eq)]
pub enum LineKind {
    /// It has more bytes than a line may have.
    TooLong,
    /// It is no message row, or one that may not follow those before it.
    Row(RowKind),
}

impl fmt::Display for LineKind {
    ghost output = { λ kind. Some (line_kind_name kind) };

    fn fmt<W: fmt::Write>(&self, f: &mut fmt::Formatter<W>) -> fmt::Result {
        match self {
            LineKind::TooLong => f.write_str("TooLong"),
            LineKind::Row(kind) => kind.fmt(f),
        }
    }
}
