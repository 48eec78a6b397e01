//! A response in its client's box.

use smx_pdu::Pdu;

/// A response, and the ordinal of its request.
#[derive(Debug, Drop)]
pub struct Response {
    pub ordinal: u64,
    pub pdu: Pdu,
}
