//! What a client's worker did.
ghost use Rattle.smx_client.specs.Events.{is_quiet_event};

use crate::reply::Reply;
use smx_box::{Got, Spent as BoxSpent};
use smx_lock::Spent;
use smx_pdu::Pdu;
use smx_session::{Act, Ask, Enquiry, Kind};
use smx_shared::{Collected, Landing, Offer, SubmitFault};
use smx_trace::Trace;
use smx_turns::{Deed, MoItem};
use std::snapshot::Snapshot;

/// What became of a PDU, beside what the session did.
#[derive(Drop)]
pub enum Fate {
    /// Nothing more.
    Own,
    /// It was offered so to the lanes, and this is what the port answered.
    Submitted(Snapshot<Offer>, Snapshot<Result<usize, (Offer, SubmitFault)>>),
    /// The gate gave no leave.
    Barred(Ask),
    /// The message that it answers, its lane and the centre's number, and what became of the answer.
    Settled(Option<(usize, u32)>, Reply),
}

/// What became of an item that was got.
#[derive(Clone, Copy, Debug, PartialEq, Eq)]
pub enum Delivery {
    /// The client is sent it under this number, at this moment.
    Given(u32, u64),
    /// It is for an earlier client of this slot, and the centre is told so.
    Refused(Reply),
    /// Its lane has no sender, or there was no item.
    Dropped,
}

/// What a client's worker did once, whole.
#[derive(Drop)]
pub enum Event {
    /// A PDU that was read, the session's act, and what became of it.
    Decided(Snapshot<Pdu>, Snapshot<Act>, Fate),
    /// PDUs that were read one behind the other were offered so to the one lane, and this is what the
    /// port answered.
    Forwarded(
        Trace<Pdu>,
        Snapshot<Vec<Offer>>,
        Snapshot<Result<Vec<Landing>, (Vec<Offer>, Spent)>>,
    ),
    /// A bad length was met, and this is the session's act.
    Broke(Snapshot<Act>),
    /// A lane was asked for what waits, and gave this.
    Collected(usize, Snapshot<Result<Collected, Spent>>),
    /// The box was asked for an item, and gave this.
    Got(Snapshot<Result<Got<MoItem>, BoxSpent>>, Delivery),
    /// The answer that waited for the return box of this lane was put again.
    PutAgain(usize, Reply),
    /// Octets came at this moment.
    Heard(u64),
    /// A read answered that nothing more is there: the first message that was sent at this moment or
    /// before, its lane and the centre's number and command, and what became of the answer.
    Expired(u64, Option<(usize, u32, u32)>, Reply),
    /// A read answered that nothing more is there, and the moment was handed in: what it asks of
    /// the session.
    Looked(u64, Snapshot<Enquiry>),
    /// The link has ended, and no whole PDU is left.
    LinkEnded,
    /// Between two turns its client was sent this unbind, where it was bound.
    Unbound(Snapshot<Option<Pdu>>),
}

impl Deed for Event {
    ghost is_quiet = { is_quiet_event };
}

// What the front of the octets is.
#[derive(Clone, Copy, Debug, PartialEq, Eq)]
pub(crate) enum Front {
    Whole,
    Part,
    Broken,
}

// What is still to be done with a PDU that the session has seen.
#[derive(Clone, Copy, Debug, PartialEq, Eq)]
pub(crate) enum Verdict {
    // Nothing.
    Next,
    // It waits to settle a message.
    Settle,
    // The client is bound so, with this account.
    Bound(Kind, usize),
    // The client has left.
    Over,
}

// How far the PDUs that came were decided.
#[derive(Clone, Copy, Debug, PartialEq, Eq)]
pub(crate) enum Progress {
    // No whole PDU is left.
    Settled,
    // An answer waits for its box.
    Parked,
    // The gate said no.
    Stopped,
    // Many octets wait.
    Clogged,
    // Nothing more is decided.
    Closed,
    // An enquiry was answered by no octet.
    Gone,
}
