//! What a driven call came to.

use price_core::TimeInfo;
use ssf_core::State;

/// What a driven call came to.
#[derive(Clone, Copy, Debug, PartialEq, Eq)]
pub struct CallEnd {
    /// The state of the gsmSSF at the end.
    pub state: State,
    /// How many charging reports were sent.
    pub reports: u64,
    /// How many settles the port answered by a forfeit.
    pub forfeits: u64,
    /// The times of the last charging report, or none where none was sent.
    pub last: Option<TimeInfo>,
    /// How many inputs the gsmSSF refused.
    pub refused: u64,
}
