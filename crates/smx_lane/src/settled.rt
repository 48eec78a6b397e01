//! What an answer tells.

use smx_history::Answered;

/// What became of a response, and the ordinal of the request that it answers, 0 where it answers none.
#[derive(Debug, Drop)]
pub struct Settled {
    pub answered: Answered,
    pub ordinal: u64,
}
