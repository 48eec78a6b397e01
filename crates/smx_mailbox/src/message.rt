//! Messages of the centre.

use smx_pdu::Pdu;

/// A message of the centre, with the lane from which it came. The PDU's number is the centre's.
#[derive(Debug, Drop)]
pub struct Message {
    pub lane: usize,
    pub pdu: Pdu,
}

/// A message to which the centre has got no answer.
#[derive(Clone, Copy, Debug, PartialEq, Eq)]
pub struct Unanswered {
    /// The lane from which it came.
    pub lane: usize,
    /// The centre's sequence number.
    pub number: u32,
    /// The command id of the centre's request.
    pub command: u32,
}
