//! What is said of the header of records.

use crate::explanations::said::Said;
use rating::{Column, HeaderFault, MAX_SHOWN, Names, TimeNames};
use std::alloc::Global;

/// The names by which columns are looked for without options; those of the options are the same.
const USUAL: Names<'static> = Names {
    called: "called",
    answer: "answer",
    times: TimeNames::UsualNames,
    paid: None,
};

/// The line that says what is wrong with the header of records; nothing where memory runs out.
pub(crate) fn explain_header(alloc: Global, names: &Names<'_>, fault: HeaderFault) -> String {
    let mut said = Said::new(alloc);
    match fault {
        HeaderFault::Absent => said.push("nothing is behind the line %%"),
        HeaderFault::TooLong => {
            write!(said, "the header has more than {MAX_SHOWN} bytes");
        }
        HeaderFault::Missing(column) => push_missing(&mut said, names, column),
        HeaderFault::Repeated(column) => {
            let name = names.of(column);
            write!(said, "column {name}: the header has it twice");
        }
    }
    said.push("\n");
    said.into_text().unwrap_or_else(|_| String::new(alloc))
}

/// Adds which column is missing, and how another name is given for it.
fn push_missing(said: &mut Said, names: &Names<'_>, column: Column) {
    match (column, names.times) {
        (Column::End, TimeNames::UsualNames) => said.push(
            "columns before and after, time, end: the header has none of these; if they have other \
             names, give --before NAME --after NAME, --time NAME or --end NAME",
        ),
        _ => {
            let name = names.of(column);
            let option = USUAL.of(column);
            write!(
                said,
                "column {name}: the header doesn't have it; if it has another name, \
                 give --{option} NAME"
            );
        }
    }
    said.push("; the separator is a comma");
}
