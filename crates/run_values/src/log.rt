//! The log of the live service.

/// The log that the live service is asked to keep.
#[derive(Clone, Copy)]
pub struct LogAsk<'a> {
    /// The path of its file.
    pub path: &'a str,
    /// The number of the first message in it whose rows are printed again. Without a number none
    /// are.
    pub again: Option<u64>,
}
