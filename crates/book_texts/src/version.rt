//! Which columns an operation has in a table.

ghost use Rattle.std.specs.Prelude.{◌≡◌, ◌≤◌};
ghost use Rattle.book_texts.specs.Versions.{version_at, operation_width};

/// Which columns an operation has in a table: those of the version before, and more behind them.
#[derive(Clone, Copy)]
pub enum Version {
    /// From `op` to `x5`; no reserve has free units.
    One,
    /// To `x6`, where a reserve has its free units.
    Two,
    /// To `x7`, where a reserve has its moment; a credit has its last moment, or none, in `x2`.
    Three,
    /// To `x9`, where a reserve has its billing steps: the least that is billed, and the step
    /// beyond.
    Four,
}

impl Version {
    /// The version of a header, by its place from 0 among the headers of all versions, oldest
    /// first.
    pub fn of_header(header: usize) -> Version
        ensures { result ≡ version_at header }
    {
        match header {
            0 => Version::One,
            1 => Version::Two,
            2 => Version::Three,
            _ => Version::Four,
        }
    }

    /// How many columns an operation has, its word included.
    pub fn width(self) -> usize
        ensures value { result ≡ operation_width self }
        ensures few { result ≤ 11 }
    {
        match self {
            Version::One => 7,
            Version::Two => 8,
            Version::Three => 9,
            Version::Four => 11,
        }
    }
}
