//! What one hold of a lane gives for a list of calls.

use crate::fault::SubmitFault;
use crate::offer::Offer;
use smx_history::{Response, TakeRefusal};
use smx_lane::Sent;

/// The most calls that a list has.
pub const BATCH: usize = 16;

/// The responses of one hold, the oldest first: at most 16, and at most 65,536 octets of PDUs.
#[derive(Debug, Drop)]
pub struct Collected {
    pub responses: Vec<Response>,
    /// Whether the hold ended at a limit, so that more may wait. Else none was left.
    pub more: bool,
}

/// The requests of one hold, the oldest first: at most 16, and at most 65,536 octets of PDUs.
#[derive(Debug, Drop)]
pub struct Takings {
    pub requests: Vec<Sent>,
    /// Why the lane gave no more. None where the hold ended at a limit, so that more may be queued.
    pub stop: Option<TakeRefusal>,
}

/// What became of one offer of a list.
#[derive(Debug, Drop)]
pub struct Landing {
    /// The lane that accepted it; or the offer, and why no lane did.
    pub landed: Result<usize, (Offer, SubmitFault)>,
    /// Whether the lane's history was full, so that the lane was turned over first.
    pub turned: bool,
}
