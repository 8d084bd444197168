//! A reader that records what is read.

ghost use Rattle.std.specs.Prelude.{◌≡◌};
ghost use Rattle.live_answers.specs.Recordings.{recorded_input};

use std::alloc::Global;
use std::io::{self, Read};

/// A reader that records what is read of another one.
#[derive(Drop)]
pub(crate) struct Recording<I> {
    input: I,
    text: Vec<u8>,
}

impl<I> Recording<I> {
    /// A reader of which nothing is read yet.
    pub(crate) fn new(alloc: Global, input: I) -> Recording<I>
        ensures { recorded_input result ≡ input }
    {
        Recording {
            input,
            text: Vec::new(alloc),
        }
    }

    /// The reader, and all that was read of it.
    pub(crate) fn into_parts(self) -> (I, Vec<u8>)
        ensures { result.0 ≡ recorded_input self }
    {
        (self.input, self.text)
    }
}

impl<I: Read> Read for Recording<I> {
    ghost remaining = { λ recording. I.remaining (recorded_input recording) };

    fn read(&mut self, buf: &mut [u8]) -> io::Result<usize> {
        let end = self.text.len();
        self.text.extend_from_slice(buf)?;
        match self.input.read(buf) {
            Ok(count) => {
                self.text.truncate(end + count);
                self.text[end..].copy_from_slice(&buf[..count]);
                Ok(count)
            }
            Err(error) => {
                self.text.truncate(end);
                Err(error)
            }
        }
    }
}
