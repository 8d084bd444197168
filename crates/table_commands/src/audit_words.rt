//! The options of `audit`.

ghost use Rattle.std.specs.Prelude.{◌≡◌};
ghost use Rattle.table_commands.specs.AuditWords.{audit_in};
ghost use Rattle.clap.specs.Words.{found_of, rows_of};

use crate::options::has_flag;
use book_texts::{AuditAsk, BookSize};
use clap::ArgMatches;

/// How the options ask for a table of books to be audited.
pub(crate) fn audit_ask(options: &ArgMatches<'_>) -> AuditAsk
    ensures { result ≡ audit_in (rows_of (found_of options.now)) }
{
    let size = if has_flag(options, "long") {
        BookSize::Long
    } else {
        BookSize::Short
    };
    AuditAsk {
        size,
        rows: has_flag(options, "rows"),
        lines: has_flag(options, "lines"),
    }
}
