//! What is done with a centre's PDU.

use smx_pdu::Pdu;

/// What is done with a centre's PDU.
#[derive(Debug, Drop)]
pub enum UpAct {
    /// The proxy is bound.
    Up,
    /// The centre refused the bind with this status.
    Failed(u32),
    /// The PDU is a response, for the lane.
    ToLane,
    /// The PDU is a message for a client.
    Mo,
    /// This is sent to the centre.
    Answer(Pdu),
    /// This is sent to the centre, which has unbound.
    Leave(Pdu),
    /// The centre has answered the proxy's unbind.
    Closed,
    Ignore,
}
