//! How far a run is, for somebody who watches it.

ghost use Rattle.std.specs.Prelude.{◌≡◌, ◌+◌, None, Some, length};
ghost use Rattle.run_command.specs.Progresses.{progress_at, progress_text};

use run_texts::ScriptRow;
use script_player::ScriptPlayer;
use std::fmt;
use std::time::Duration;

/// The milliseconds before it is shown how far a run is.
const FIRST_PAUSE: u64 = 2000;

/// The milliseconds until it is shown again.
const PAUSE: u64 = 200;

/// How many rounds are played between two looks at the clock.
const ROUNDS: u32 = 64;

/// How far a run is.
#[derive(Clone, Copy)]
pub struct Progress {
    /// The last row of the script that was taken, where the header is row 1.
    pub row: u64,
    /// Its moment, in units of 100 ms.
    pub moment: u64,
    /// The last row that the script has.
    pub rows: u64,
    /// Where the run is in parts, which of them this script is, from 1 on, and how many there are.
    pub part: Option<(u64, u64)>,
}

impl fmt::Display for Progress {
    ghost output = { λ progress. Some (progress_text progress) };

    fn fmt<W: fmt::Write>(&self, f: &mut fmt::Formatter<W>) -> fmt::Result {
        let Progress {
            row,
            moment,
            rows,
            part,
        } = *self;
        match part {
            None => write!(f, "moment {moment}, row {row} of {rows}"),
            Some((number, parts)) => write!(f, "part {number} of {parts}, moment {moment}"),
        }
    }
}

/// Somebody who watches runs that go on for a while. Nothing of a run depends on it. The parts of a
/// run may be shown by several threads.
pub trait Watch {
    /// The time since a moment that stays the same; none where nobody watches.
    fn time(&self) -> Option<Duration>;

    /// Shows how far a run is, in place of what was shown last.
    fn show(&self, progress: Progress);

    /// Takes away what was shown last.
    fn clear(&self);
}

/// Who watches a run, when it is shown first how far it is, if at all, and which of its parts.
#[derive(Drop)]
pub(crate) struct Watching<'w, W> {
    watch: &'w W,
    first: Option<Duration>,
    part: Option<(u64, u64)>,
}

impl<'w, W: Watch> Watching<'w, W> {
    /// A run that begins now, and isn't in parts.
    pub fn new(watch: &'w W) -> Watching<'w, W>
        ensures { result.part ≡ None }
    {
        Watching {
            watch,
            first: later(watch.time(), FIRST_PAUSE),
            part: None,
        }
    }

    /// The part of this number of so many, where the first is 0.
    pub fn of_part(&self, number: usize, parts: usize) -> Watching<'w, W> {
        Watching {
            watch: self.watch,
            first: self.first,
            part: Some(((number as u64).saturating_add(1), parts as u64)),
        }
    }
}

/// Shows how far a script is that is played.
#[derive(Drop)]
pub(crate) struct Watcher<'w, W> {
    watch: &'w W,
    part: Option<(u64, u64)>,
    rows: u64,
    /// How many rounds are left until the next look at the clock.
    rounds: u32,
    /// When it is shown next, if at all.
    next: Option<Duration>,
    shown: bool,
}

impl<'w, W: Watch> Watcher<'w, W> {
    /// A watcher of these rows, none of which was taken yet.
    pub fn new(watching: &Watching<'w, W>, rows: &[ScriptRow]) -> Watcher<'w, W>
        ensures rows { result.rows ≡ length rows.now + 1 }
        ensures part { result.part ≡ watching.now.part }
    {
        Watcher {
            watch: watching.watch,
            part: watching.part,
            rows: rows.len() as u64 + 1,
            rounds: ROUNDS,
            next: watching.first,
            shown: false,
        }
    }

    /// A round was played: it is shown how far the script is, where it's time for that.
    pub fn see(&mut self, player: &ScriptPlayer) {
        let Some(next) = self.next else {
            return;
        };
        if self.rounds > 0 {
            self.rounds -= 1;
            return;
        }
        self.rounds = ROUNDS;
        let time = self.watch.time();
        if time >= Some(next) {
            self.show(player);
            self.next = later(time, PAUSE);
        }
    }

    /// Shows how far the script is.
    fn show(&mut self, player: &ScriptPlayer) {
        self.watch.show(self.progress(player.rows_taken()));
        self.shown = true;
    }

    /// How far a script is of which these rows were taken.
    fn progress(&self, taken: &[ScriptRow]) -> Progress
        ensures { result ≡ progress_at taken.now self.now.rows self.now.part }
    {
        Progress {
            row: taken.len() as u64 + 1,
            moment: match taken.last() {
                Some(row) => row.at,
                None => 0,
            },
            rows: self.rows,
            part: self.part,
        }
    }

    /// Takes away what was shown, if anything was.
    pub fn clear(&self) {
        if self.shown {
            self.watch.clear();
        }
    }
}

/// A time so many milliseconds later, where there is one.
fn later(time: Option<Duration>, pause: u64) -> Option<Duration> {
    time?.checked_add(Duration::from_millis(pause))
}
