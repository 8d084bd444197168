//! What a call of an account comes to.

/// What has become of a call.
#[derive(Clone, Copy, Debug, PartialEq, Eq)]
pub enum Fate {
    /// It is open, and holds money.
    Holding,
    /// It is over, and was given back what it held and hadn't used.
    Returned,
    /// A report of it passed what was granted, or took back what an earlier one said: it pays all
    /// that was held, whether it is over or not.
    Forfeit,
}

/// A call that was granted something: what it has paid so far, in units of money, and what
/// has become of it.
#[derive(Clone, Copy, Debug, PartialEq, Eq)]
pub struct CallSum {
    /// The call.
    pub call: u64,
    /// What it has paid so far.
    pub paid: u64,
    /// What has become of it.
    pub fate: Fate,
}
