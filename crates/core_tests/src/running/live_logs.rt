//! A log whose lines are heard again.

use crate::looking::gives;
use live_answers::Skipping;
use std::io;
use std::io::Write;

/// Keeps what is written, and says how often that was flushed, and how much of it.
#[derive(Drop)]
struct Kept {
    text: Vec<u8>,
    flushes: u32,
    flushed: usize,
}

impl Write for Kept {
    fn write(&mut self, buf: &[u8]) -> io::Result<usize> {
        self.text.extend_from_slice(buf)?;
        Ok(buf.len())
    }

    fn flush(&mut self) -> io::Result<()> {
        self.flushes = self.flushes.saturating_add(1);
        self.flushed = self.text.len();
        Ok(())
    }
}

/// Whether a log that has two lines takes them and a third one, and refuses other bytes in the
/// place of the second. It is flushed behind the first and behind the third.
fn is_heard(log: &mut Skipping<'_, &mut Kept>) -> bool {
    log.write_all(b"one\n").is_ok()
        && log.flush().is_ok()
        && log.write(b"tww").is_err()
        && log.write_all(b"two\nthree\n").is_ok()
        && log.flush().is_ok()
}

#[test]
fn passes_over_what_is_there(rt: HostRuntime) {
    let mut kept = Kept {
        text: Vec::new(rt.alloc()),
        flushes: 0,
        flushed: 0,
    };
    let is_heard = is_heard(&mut Skipping::new(b"one\ntwo\n", &mut kept));
    gives(&rt, &"heard", &is_heard, &true);
    gives(&rt, &"flushed", &(kept.flushes, kept.flushed), &(1, 6));
    gives(&rt, &"kept", &kept.text.as_slice(), &b"three\n".as_slice());
}
