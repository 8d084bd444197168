//! A writer whose bytes are on the disk once it is flushed.

use std::fs::OpenFile;
use std::io;
use std::io::Write;

/// A file whose bytes are on the disk once it is flushed.
#[derive(Drop)]
pub(crate) struct Synced<F>(pub F);

impl<F: Write + OpenFile> Write for Synced<F> {
    ghost contents = { λ synced. F.contents synced.0 };

    fn write(&mut self, buf: &[u8]) -> io::Result<usize> {
        self.0.write(buf)
    }

    fn flush(&mut self) -> io::Result<()> {
        self.0.flush()?;
        self.0.sync_data()
    }
}
