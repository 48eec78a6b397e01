//! What a worker did.
ghost use Rattle.std.specs.Prelude.{◌≡◌};
ghost use Rattle.smx_upstream.specs.Events.{fills, is_quiet_event};

use crate::abandoning::Abandoned;
use crate::losing::Lost;
use smx_box::{Got, Spent};
use smx_history::{Answered, Entry, Failed};
use smx_lane::Settled;
use smx_lock::Spent as LaneSpent;
use smx_pdu::Pdu;
use smx_session::UpAct;
use smx_shared::{ExpiryFault, Takings, Tap, TurnFault, UpFault};
use smx_turns::{Deed, Place};
use std::snapshot::Snapshot;

/// How a lane came up once its link was bound.
#[derive(Drop)]
pub enum Rise {
    /// The lane was asked once, and said this.
    Asked(Result<(), UpFault>),
    /// Its history was full: it was to hand its entries out, and was asked once more.
    Renewed(Result<Option<Vec<Entry>>, TurnFault>, Result<(), UpFault>),
}

/// What became of a PDU, beside what the session did.
#[derive(Drop)]
pub enum Fate {
    /// Nothing more.
    Own,
    /// The session is bound now, and the lane was to come up.
    Up(Snapshot<Rise>),
    /// The lane of this number was asked, and said this.
    Lane(usize, Snapshot<Answered>),
    /// The lane's tickets are spent, and the PDU waits.
    LaneSpent,
    /// No destination can be read.
    Unread,
    /// The directory said this, and there is no sender.
    Unrouted(Option<Place>),
    /// That slot's sender put it, as its item of this number, under a number of this link's own;
    /// whether a look behind that found each place of the box taken.
    Put(Place, u64, u32, bool),
    /// That slot's box is full.
    Full(Place),
    /// As many messages of this link wait for answers as there are places.
    Crowded(Place),
    /// That slot's box takes no more calls, and the PDU waits.
    BoxSpent(Place),
}

// Whether a message filled its client's box.
pub(crate) fn fills(fate: &Fate) -> bool
    ensures { result ≡ fills fate.now }
{
    matches!(fate, Fate::Put(_, _, _, true))
}

/// How long a request has waited that is given up.
#[derive(Clone, Copy, Debug, PartialEq, Eq)]
pub enum Span {
    /// For the response timer: all that had come was read.
    Once,
    /// For twice the response timer: more may have come.
    Twice,
}

/// What came of it that all that a lane held was given up.
#[derive(Drop)]
pub struct GivenUp {
    /// The lane's number.
    pub lane: usize,
    /// The moment of the takes.
    pub now: u64,
    /// Of what was taken and not answered.
    pub lost: Snapshot<Lost>,
    /// The lane's tap before the rest was given up.
    pub between: Snapshot<Tap>,
    /// Of what was queued.
    pub abandoned: Snapshot<Abandoned>,
}

/// What a worker did once, whole.
#[derive(Drop)]
pub enum Event {
    /// The session's bind was made.
    Began(Snapshot<Pdu>),
    /// A turn of this number began.
    Opened(u64),
    /// The moment was handed in: the enquiry that was due, whether octets are left, and whether the
    /// session was silent at an earlier one already.
    Looked(u64, Snapshot<Option<Pdu>>, bool, bool),
    /// All that had come was read: whether the session is silent.
    Judged(bool),
    /// The lane of this number was to give up a request that has waited so long, and gave this.
    Expired(usize, Span, Snapshot<Result<Failed, ExpiryFault>>),
    /// The lane was to hand out its entries, for at least so many, and gave this.
    Shifted(usize, Snapshot<Result<Option<Vec<Entry>>, TurnFault>>),
    /// The return box was held, and gave this: an answer goes out under this number of the centre's,
    /// or is dropped where no message of this link waits for it.
    Sought(Snapshot<Result<Got<Pdu>, Spent>>, Option<u32>),
    /// A PDU was decided at a moment: the session's act, and what became of the PDU.
    Decided(Snapshot<Pdu>, u64, Snapshot<UpAct>, Fate),
    /// Responses that were read one behind the other, which the session passes on at this moment. The
    /// lane of this number was brought all, and said this of each.
    Brought(Snapshot<Vec<Pdu>>, u64, usize, Snapshot<Result<Vec<Settled>, (Vec<Pdu>, LaneSpent)>>),
    /// The lane was asked for what is queued, and gave this.
    Took(Snapshot<Result<Takings, LaneSpent>>),
    /// A bad length was answered.
    Broke,
    /// The link has ended, and all that came over it is decided.
    LinkEnded,
    /// The session was to end in order: its unbind, where it was bound.
    Unbound(Snapshot<Option<Pdu>>),
    /// All that the lane held was given up.
    GaveUp(GivenUp),
}

impl Deed for Event {
    ghost is_quiet = { is_quiet_event };
}
