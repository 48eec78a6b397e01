//! How much a lane holds.

/// How much a lane holds at a moment, for whoever watches it.
#[derive(Clone, Copy, Debug, PartialEq, Eq)]
pub struct Load {
    /// Requests that were accepted and are not taken.
    pub queued: usize,
    /// Requests that were taken and have no answer.
    pub unanswered: usize,
    /// The earliest moment at which one of these was taken, in milliseconds.
    pub earliest: Option<u64>,
    /// Notes since the last shift.
    pub entries: usize,
}
