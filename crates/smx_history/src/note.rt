//! What happens on a lane. No value of these types is made: contracts speak of them.

use crate::request::Request;
use smx_pdu::Pdu;

/// What happened on a lane.
#[derive(Drop)]
pub enum Event {
    Admit {
        client: u64,
    },
    Accept {
        request: Request,
    },
    /// The moment is in milliseconds, and no smaller than that of the take before.
    Take {
        client: u64,
        ordinal: u64,
        upstream: u32,
        moment: u64,
    },
    /// The response as it came, with the number upstream.
    Answer {
        client: u64,
        ordinal: u64,
        response: Pdu,
    },
    Late {
        client: u64,
        ordinal: u64,
        upstream: u32,
        command: u32,
    },
    Collect {
        client: u64,
        ordinal: u64,
    },
    Retire {
        client: u64,
    },
    /// The command tells the client that its request failed.
    Fail {
        client: u64,
        ordinal: u64,
        upstream: u32,
        command: u32,
    },
    Down,
    Up,
}

/// An event, and the number of the caller whose it is. A note without an event is a shift: the entries stored so far
/// were handed out, and the lane goes on with none.
#[derive(Drop)]
pub struct Note {
    pub by: u64,
    pub event: Option<Event>,
}
