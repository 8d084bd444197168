//! The sections of an input, and where they begin.

ghost use Rattle.std.specs.Prelude.{IfSome};
ghost use Rattle.table_commands.specs.Sections.{IsSection};

use run_texts::split_section;

/// Which section of an input a table is.
#[derive(Clone, Copy)]
pub(crate) enum Section {
    /// The whole input.
    Whole,
    /// What is in front of its first line `%%`.
    First,
    /// What is between its first two.
    Second,
    /// What is behind its second one.
    Third,
}

/// Where a section of an input begins, and its bytes; none where the input has too few lines `%%`.
pub(crate) fn find_section(input: &[u8], section: Section) -> Option<(usize, &[u8])>
    ensures { IfSome result (λ found. IsSection section input.now found.0 found.1.now) }
{
    match section {
        Section::Whole => Some((0, input)),
        Section::First => {
            let (text, _) = split_section(input)?;
            Some((0, text))
        }
        Section::Second => {
            let (_, rest) = split_section(input)?;
            let (text, _) = split_section(rest)?;
            Some((input.len() - rest.len(), text))
        }
        Section::Third => {
            let (_, rest) = split_section(input)?;
            let (_, text) = split_section(rest)?;
            Some((input.len() - text.len(), text))
        }
    }
}
