//! What an account knows of a call.

use price_core::Times;

/// What an account knows of a call.
#[derive(Clone, Copy)]
pub(crate) struct Standing {
    /// Its times, which its last accepted report states.
    pub times: Times,
    /// What it has paid so far, and 0 where it was never granted anything.
    pub paid: u64,
    /// Whether it was ever granted anything.
    pub granted: bool,
    /// Whether it has a forfeit.
    pub forfeited: bool,
    /// Whether it was denied anything.
    pub denied: bool,
    /// Whether its credit ended.
    pub cut: bool,
}

impl Standing {
    /// That of a call of which an account knows nothing.
    pub const NONE: Standing = Standing {
        times: Times::ZERO,
        paid: 0,
        granted: false,
        forfeited: false,
        denied: false,
        cut: false,
    };
}
