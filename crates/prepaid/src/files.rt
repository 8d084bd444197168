//! The files of what a run prints.

ghost use Rattle.std.specs.Prelude.{◌≡◌, map};
ghost use Rattle.prepaid.specs.Files.{files_of};
ghost use Rattle.run_outputs.specs.Texts.{tables_said};

use run_outputs::RunTables;

/// The files of what a run prints, each a name and a text.
pub(crate) fn files_of(tables: &RunTables) -> [(&'static str, &str); 4]
    ensures { map (λ file. (file.0.now, file.1.now)) result ≡ files_of (tables_said tables.now) }
{
    [
        ("lines.txt", tables.lines.as_str()),
        ("book.csv", tables.book.as_str()),
        ("calls.csv", tables.calls.as_str()),
        ("trace.csv", tables.trace.as_str()),
    ]
}
