//! A writer that passes over what is there already.

ghost use Rattle.std.specs.Prelude.{◌≡◌};
ghost use Rattle.live_answers.specs.Passing.{in_front_of, inner_of, left_of};

use std::io;
use std::io::{ErrorKind, Write};

/// A writer that holds some bytes at its end already, and passes over these where they are written
/// again; what comes behind them is written. Other bytes in their place are an error.
///
/// What it is said to hold is what is in front of those that it hasn't passed over yet. So what a
/// log is said to hold grows line by line also where its lines are heard again.
#[derive(Drop)]
pub struct Skipping<'a, L> {
    left: &'a [u8],
    inner: L,
}

impl<'a, L> Skipping<'a, L> {
    /// A writer that passes over these bytes, which are the last that `inner` holds.
    pub fn new(left: &'a [u8], inner: L) -> Skipping<'a, L>
        ensures left { left_of result ≡ left.now }
        ensures inner { inner_of result ≡ inner }
    {
        Skipping { left, inner }
    }
}

impl<L: Write> Write for Skipping<'_, L> {
    ghost contents = { λ skipping. in_front_of (left_of skipping) (L.contents
        (inner_of skipping)) };

    fn write(&mut self, buf: &[u8]) -> io::Result<usize> {
        if self.left.is_empty() {
            return self.inner.write(buf);
        }
        let count = buf.len().min(self.left.len());
        if buf[..count] != self.left[..count] {
            return Err(io::Error::from(ErrorKind::InvalidData));
        }
        self.left = &self.left[count..];
        Ok(count)
    }

    fn flush(&mut self) -> io::Result<()> {
        if self.left.is_empty() {
            self.inner.flush()
        } else {
            Ok(())
        }
    }
}
