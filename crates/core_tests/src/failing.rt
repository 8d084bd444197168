//! A reader that fails.

use std::io::{self, ErrorKind, Read};

/// A reader that gives some bytes and then fails.
#[derive(Drop)]
pub(crate) struct Failing<'a> {
    pub bytes: &'a [u8],
}

impl Read for Failing<'_> {
    fn read(&mut self, buf: &mut [u8]) -> io::Result<usize> {
        if self.bytes.is_empty() {
            return Err(io::Error::from(ErrorKind::Other));
        }
        self.bytes.read(buf)
    }
}
