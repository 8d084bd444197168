//! A terminal on which it is shown how far a run is.

use run_command::{Progress, Watch};
use std::io::Eprint;
use std::time::{Clock, Duration};

/// Standard error, where it is shown how far a run is if that is a terminal. It is one line, which
/// is written anew.
#[derive(Drop)]
pub struct Terminal<'r, R> {
    rt: &'r R,
    is_shown: bool,
}

impl<'r, R> Terminal<'r, R> {
    /// The standard error of this runtime, and whether anything is shown there.
    pub fn new(rt: &'r R, is_shown: bool) -> Terminal<'r, R> {
        Terminal { rt, is_shown }
    }
}

impl<R: Clock + Eprint> Watch for Terminal<'_, R> {
    fn time(&self) -> Option<Duration> {
        if self.is_shown {
            self.rt.monotonic().ok()
        } else {
            None
        }
    }

    fn show(&self, progress: Progress) {
        let _ = eprint!(self.rt; "\r{progress}\x1b[K");
    }

    fn clear(&self) {
        let _ = self.rt.eprint("\r\x1b[K");
    }
}
