//! What is said of a fault, piece by piece.

use std::alloc::{AllocError, Global};
use std::fmt;

/// What is said of a fault. Whether memory reached for each piece is asked once, at the end: so a
/// piece is added without a look at what comes of it.
#[derive(Drop)]
pub(crate) struct Said {
    text: String,
    /// Whether memory ran out for a piece.
    is_cut: bool,
}

impl Said {
    /// Nothing yet.
    pub(crate) fn new(alloc: Global) -> Said {
        Said {
            text: String::new(alloc),
            is_cut: false,
        }
    }

    /// Whether there is nothing yet.
    pub(crate) fn is_empty(&self) -> bool {
        self.text.is_empty()
    }

    /// Adds a piece.
    pub(crate) fn push(&mut self, piece: &str) {
        if self.text.push_str(piece).is_err() {
            self.cut();
        }
    }

    /// Adds a value as it is displayed; `write!` and `writeln!` call this.
    pub(crate) fn write_fmt<D: fmt::Display + Drop>(&mut self, value: D) {
        if self.text.write_fmt(value).is_err() {
            self.cut();
        }
    }

    /// Keeps in mind that memory ran out.
    pub(crate) fn cut(&mut self) {
        self.is_cut = true;
    }

    /// All that was said; none where memory ran out for any of it.
    pub(crate) fn into_text(self) -> Result<String, AllocError> {
        let Said { text, is_cut } = self;
        if is_cut { Err(AllocError) } else { Ok(text) }
    }
}
