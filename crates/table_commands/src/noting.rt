//! A writer that notes why it failed.

ghost use Rattle.std.specs.Prelude.{◌≡◌, None};
ghost use Rattle.std.specs.Io.{WritesAtMost};
ghost use Rattle.std.specs.Io.KnownBytes.{Keeps, WriteAppends};
ghost use Rattle.std.specs.Result.{result_err};

use std::io::{self, Error, Write};

/// A writer that notes why its last call failed, if it did.
#[derive(Drop)]
pub struct Noting<W> {
    /// The writer.
    pub inner: W,
    /// Why its last call failed; none where it didn't.
    pub failed: Option<Error>,
}

impl<W> Noting<W> {
    /// A writer that hasn't failed yet.
    pub fn new(inner: W) -> Noting<W>
        ensures inner { result.inner ≡ inner }
        ensures failed { result.failed ≡ None }
    {
        Noting {
            inner,
            failed: None,
        }
    }
}

impl<W: Write> Write for Noting<W> {
    ghost contents = { λ noting. W.contents noting.inner };

    fn write(&mut self, buf: &[u8]) -> io::Result<usize>
        ensures bound { WritesAtMost result buf.now }
        ensures bytes { WriteAppends (W.contents self.old.inner) (W.contents self.new.inner)
            result buf.now }
        ensures noted { self.new.failed ≡ result_err result }
    {
        let written = self.inner.write(buf);
        self.failed = written.err();
        written
    }

    fn flush(&mut self) -> io::Result<()>
        ensures bytes { Keeps (W.contents self.old.inner) (W.contents self.new.inner) }
        ensures noted { self.new.failed ≡ result_err result }
    {
        let flushed = self.inner.flush();
        self.failed = flushed.err();
        flushed
    }
}
