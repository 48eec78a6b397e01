//! Answers to messages, on their way into the return boxes of the lanes.
ghost use Rattle.std.specs.Prelude.{◌≡◌, ◌++◌, ◌<◌, [], ◌∷◌, ℕ, length, slice_get, IfErr, None};
ghost use Rattle.smx_pdu.specs.declared.pdu.Pdu.{Pdu};
ghost use Rattle.smx_pdu.specs.Command.{response_of};
ghost use Rattle.smx_client.specs.Replies.{answer_up, refused_up, on_lane, is_answer_taken, PutSo, AnswersSo, SettlesSo, ExpiresSo, Parks, put_in, parked_on};
ghost use Rattle.smx_client.specs.Events.{settled_out, is_refused, lane_told, settled_told, expired_answers, expired_told};
ghost use Rattle.smx_client.specs.Table.{Phase, IsPart, after_reply, progress_of};

use crate::event::Progress;
use smx_box::{PutFault, Sender};
use smx_pdu::status::ESME_RX_T_APPN;
use smx_pdu::{Pdu, response_id};
use smx_turns::{Fault, Gate, Party, put_at};
use std::alloc::Global;
use std::sync::Wait;

/// An answer to a message, which a return box refused.
#[derive(Debug, Drop)]
pub struct Parked {
    pub lane: usize,
    pub answer: Pdu,
}

/// What became of an answer to a message.
#[derive(Clone, Copy, Debug, PartialEq, Eq)]
pub enum Reply {
    /// The return box of its lane took it.
    Taken,
    /// The return box is full: the answer waits, or is dropped where the client has left.
    Full,
    /// The return box takes no more calls: as above.
    Spent,
    /// There is nobody to answer.
    Nobody,
}

impl Reply {
    /// Whether the answer waits.
    pub(crate) fn is_refused(self) -> bool
        ensures { result ≡ is_refused self }
    {
        matches!(self, Reply::Full | Reply::Spent)
    }

    pub(crate) fn is_taken(self) -> bool
        ensures { result ≡ is_answer_taken self }
    {
        self == Reply::Taken
    }

    // How far the turn comes by it: `None` where it goes on.
    pub(crate) fn progress(self) -> Result<Option<Progress>, Fault>
        ensures phase { (p : Phase) → IsPart p result (after_reply p self) }
        ensures which { result ≡ progress_of self }
    {
        match self {
            Reply::Taken | Reply::Nobody => Ok(None),
            Reply::Full => Ok(Some(Progress::Parked)),
            Reply::Spent => Err(Fault::Spent),
        }
    }

    // Tells the lane whose return box took it.
    pub(crate) fn tell<G: Gate>(self, gate: &mut G, lane: usize)
        ensures told { G.told gate.new ≡ G.told gate.old ++ lane_told lane self }
        ensures asked { G.asked gate.new ≡ G.asked gate.old }
    {
        if self == Reply::Taken {
            gate.ready(Party::Answer(lane));
        }
    }
}

// The answer to a message, with the centre's number.
fn answer_up(pdu: Pdu, number: u32) -> Pdu
    ensures { result ≡ answer_up pdu number }
{
    let Pdu {
        command,
        status,
        number: _,
        body,
    } = pdu;
    Pdu {
        command,
        status,
        number,
        body,
    }
}

// Puts an answer into the return box of a lane, or keeps it where it is refused.
pub(crate) fn put_or_park<R: Wait>(
    rt: &R,
    senders: &mut Vec<Sender<Pdu>>,
    parked: &mut Option<Parked>,
    lane: usize,
    answer: Pdu,
) -> Reply
    requires none { parked.old ≡ None }
    ensures so { PutSo lane answer result senders.old.items senders.new.items }
    ensures parks { Parks result parked.new }
    ensures answer { (k : ℕ) → k < length senders.old.items
        → put_in senders.new.items k ++ parked_on k parked.new
        ≡ put_in senders.old.items k ++ parked_on k parked.old ++ on_lane k lane (answer ∷ []) }
{
    if lane >= senders.len() {
        return Reply::Nobody;
    }
    match put_at(rt, senders, lane, answer) {
        Ok(_) => Reply::Taken,
        Err((answer, fault)) => {
            *parked = Some(Parked { lane, answer });
            match fault {
                PutFault::Full => Reply::Full,
                PutFault::Spent => Reply::Spent,
            }
        }
    }
}

// Answers the message that was settled, where there is one.
pub(crate) fn answer_settled<R: Wait, G: Gate>(
    rt: &R,
    gate: &mut G,
    senders: &mut Vec<Sender<Pdu>>,
    parked: &mut Option<Parked>,
    pdu: Pdu,
    found: Option<(usize, u32)>,
) -> Reply
    requires none { parked.old ≡ None }
    ensures so { SettlesSo pdu found result senders.old.items senders.new.items }
    ensures parks { Parks result parked.new }
    ensures answer { (k : ℕ) → k < length senders.old.items
        → put_in senders.new.items k ++ parked_on k parked.new
        ≡ put_in senders.old.items k ++ parked_on k parked.old ++ settled_out k pdu found }
    ensures told { G.told gate.new ≡ G.told gate.old ++ settled_told found result }
    ensures asked { G.asked gate.new ≡ G.asked gate.old }
{
    let Some((lane, number)) = found else {
        return Reply::Nobody;
    };
    let reply = put_or_park(rt, senders, parked, lane, answer_up(pdu, number));
    reply.tell(gate, lane);
    reply
}

// Answers a message that reaches nobody, where its command has a response.
pub(crate) fn refuse<R: Wait>(
    rt: &R,
    alloc: Global,
    senders: &mut Vec<Sender<Pdu>>,
    parked: &mut Option<Parked>,
    lane: usize,
    number: u32,
    command: u32,
) -> Reply
    requires none { parked.old ≡ None }
    ensures so { AnswersSo lane (refused_up (response_of command) number) result
        senders.old.items senders.new.items }
    ensures parks { Parks result parked.new }
    ensures answer { (k : ℕ) → k < length senders.old.items
        → put_in senders.new.items k ++ parked_on k parked.new
        ≡ put_in senders.old.items k ++ parked_on k parked.old
        ++ on_lane k lane (refused_up (response_of command) number) }
{
    let Some(id) = response_id(command) else {
        return Reply::Nobody;
    };
    let answer = Pdu::header_only(alloc, id, ESME_RX_T_APPN, number);
    put_or_park(rt, senders, parked, lane, answer)
}

// Answers a message that the client didn't answer in time, where there is one.
pub(crate) fn answer_expired<R: Wait, G: Gate>(
    rt: &R,
    gate: &mut G,
    alloc: Global,
    senders: &mut Vec<Sender<Pdu>>,
    parked: &mut Option<Parked>,
    found: Option<(usize, u32, u32)>,
) -> Reply
    requires none { parked.old ≡ None }
    ensures so { ExpiresSo found result senders.old.items senders.new.items }
    ensures parks { Parks result parked.new }
    ensures answer { (k : ℕ) → k < length senders.old.items
        → put_in senders.new.items k ++ parked_on k parked.new
        ≡ put_in senders.old.items k ++ parked_on k parked.old ++ expired_answers k found }
    ensures told { G.told gate.new ≡ G.told gate.old ++ expired_told found result }
    ensures asked { G.asked gate.new ≡ G.asked gate.old }
{
    let Some((lane, number, command)) = found else {
        return Reply::Nobody;
    };
    let reply = refuse(rt, alloc, senders, parked, lane, number, command);
    reply.tell(gate, lane);
    reply
}
