//! What a take hands out.

use smx_history::Request;

/// A request that goes upstream under this number.
#[derive(Debug, Drop)]
pub struct Sent {
    pub request: Request,
    /// The sequence number upstream: one that a request may bear (SMPP 3.4, section 5.1.4), the last three left out, and
    /// that no other request in the window has.
    pub upstream: u32,
}
