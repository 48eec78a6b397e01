//! What is done with a client's PDU.

use crate::kind::Kind;
use smx_pdu::Pdu;

/// What is done with a client's PDU.
#[derive(Debug, Drop)]
pub enum Act {
    /// This is sent to the client.
    Answer(Pdu),
    /// The client is bound: the answer is sent to it.
    Bind {
        kind: Kind,
        /// The index of its account.
        account: usize,
        answer: Pdu,
    },
    /// The bind is refused, and this is sent.
    Refuse(Pdu),
    /// The request goes to a lane.
    Forward,
    /// The PDU answers a message that bore this number.
    MoAnswer {
        number: u32,
    },
    /// This is sent to the client, which has unbound.
    Leave(Pdu),
    /// This is sent to the client, whose connection is then closed.
    Hangup(Pdu),
    /// The client has answered the proxy's unbind.
    Closed,
    Ignore,
}
