//! The lines that divide an input.

use crate::explanations::said::Said;
use run_texts::is_divider;
use std::alloc::{AllocError, Global};

/// The most lines whose numbers are said.
const MOST_NUMBERS: usize = 5;

/// How many lines of an input divide it, which, and which look as if they did.
pub(crate) fn explain_dividers(alloc: Global, input: &[u8]) -> Result<String, AllocError> {
    let mut said = Said::new(alloc);
    push_dividers(&mut said, dividers_of(input));
    said.into_text()
}

/// The lines that divide an input, and those that look as if they did.
#[derive(Clone, Copy)]
struct Dividers {
    /// How many divide it.
    found: usize,
    /// The numbers of the first of these.
    numbers: [u64; MOST_NUMBERS],
    /// The number of the first line that nearly divides it.
    near: Option<u64>,
    /// The number of the first line that has `%%` at its end, behind something else.
    joined: Option<u64>,
}

/// The lines that divide an input, and those that look as if they did.
fn dividers_of(input: &[u8]) -> Dividers {
    let mut dividers = Dividers {
        found: 0,
        numbers: [0; MOST_NUMBERS],
        near: None,
        joined: None,
    };
    let mut number: u64 = 0;
    for line in input.split_inclusive(|byte| *byte == b'\n') {
        number = number.saturating_add(1);
        dividers.add(number, line);
    }
    dividers
}

impl Dividers {
    /// Adds a line of this number.
    fn add(&mut self, number: u64, line: &[u8]) {
        match looks_of(line) {
            Looks::Divides => {
                if self.found < MOST_NUMBERS {
                    self.numbers[self.found] = number;
                }
                self.found = self.found.saturating_add(1);
            }
            Looks::Nearly => self.near = self.near.or(Some(number)),
            Looks::Joined => self.joined = self.joined.or(Some(number)),
            Looks::Otherwise => {}
        }
    }
}

/// Adds how many lines divide an input and which, that two are wanted, the line that nearly is one,
/// and the line that has one at its end.
fn push_dividers(said: &mut Said, dividers: Dividers) {
    let found = dividers.found;
    let lines = if found == 1 {
        "line that is"
    } else {
        "lines that are"
    };
    write!(said, "{found} {lines} %% alone");
    for line in &dividers.numbers[..found.min(MOST_NUMBERS)] {
        write!(said, ", in line {line}");
    }
    said.push("; wanted 2\n");
    if let Some(line) = dividers.near {
        writeln!(said, "line {line} is %% with a blank at it");
    }
    if let Some(line) = dividers.joined {
        writeln!(
            said,
            "line {line} ends with %%: the line in front of that has no line end"
        );
    }
}

/// What a line looks like.
#[derive(Clone, Copy)]
enum Looks {
    /// It divides.
    Divides,
    /// It would without its blanks.
    Nearly,
    /// It has `%%` at its end, behind something else.
    Joined,
    /// Another line.
    Otherwise,
}

/// What a line looks like.
fn looks_of(line: &[u8]) -> Looks {
    let text = line.trim_ascii();
    if is_divider(line) {
        Looks::Divides
    } else if text == b"%%".as_slice() {
        Looks::Nearly
    } else if text.ends_with(b"%%") && !text.starts_with(b"%") {
        Looks::Joined
    } else {
        Looks::Otherwise
    }
}
