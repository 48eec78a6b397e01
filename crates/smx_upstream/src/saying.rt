//! Requests that go out over the wire.
ghost use Rattle.std.specs.Prelude.{◌≡◌, ◌≤◌, ◌++◌, map, IfOk};
ghost use Rattle.smx_link.specs.Wiring.{spellings};
ghost use Rattle.smx_shared.specs.Batches.{octets_of_requests};
ghost use Rattle.smx_upstream.specs.Events.{face_up, gives_none, may_give_more, requests_up};

use smx_lane::Sent;
use smx_link::{Link, Wire};
use smx_lock::Spent;
use smx_pdu::Pdu;
use smx_shared::{SpareList, Takings};
use std::collections::VecDeque;

// Whether the lane gave no request.
pub(crate) fn gives_none(taken: &Result<Takings, Spent>) -> bool
    ensures { result ≡ gives_none taken.now }
{
    match taken {
        Ok(Takings { requests, .. }) => requests.is_empty(),
        Err(_) => true,
    }
}

// Whether the list ended at a limit, so that more may be queued.
pub(crate) fn may_give_more(taken: &Result<Takings, Spent>) -> bool
    ensures { result ≡ may_give_more taken.now }
{
    match taken {
        Ok(Takings { stop, .. }) => stop.is_none(),
        Err(_) => false,
    }
}

// A request as it goes upstream.
fn face_up(sent: Sent) -> Pdu
    ensures { result ≡ face_up sent }
{
    let Sent { request, upstream } = sent;
    Pdu {
        command: request.command,
        status: 0,
        number: upstream,
        body: request.body,
    }
}

// Says each of these requests, gives its body back to the wire, and gives their list back, which is empty.
fn say_each<L: Link + Drop>(requests: Vec<Sent>, wire: &mut Wire<L>) -> Vec<Sent>
    requires room { octets_of_requests requests.items ≤ wire.old.room }
    ensures said { wire.new.said ≡ wire.old.said ++ map face_up requests.items }
    ensures unsent { wire.new.unsent
        ≡ wire.old.unsent ++ spellings (map face_up requests.items) }
    ensures same { wire.new ≡ record wire.old {
      said = wire.new.said;
      unsent = wire.new.unsent;
      room = wire.new.room;
    } }
{
    let mut left = VecDeque::from_vec(requests);
    while let Some(sent) = left.pop_front() {
        let pdu = face_up(sent);
        wire.say_within(&pdu);
        wire.give_back(pdu);
    }
    left.into_vec()
}

// Says what the lane gave, where there is room for it.
pub(crate) fn say_taken<L: Link + Drop>(
    taken: Result<Takings, Spent>,
    spare: &mut SpareList<Sent>,
    wire: &mut Wire<L>,
)
    requires room { IfOk taken (λ b. octets_of_requests b.requests.items ≤ wire.old.room) }
    ensures said { wire.new.said ≡ wire.old.said ++ requests_up taken }
    ensures unsent { wire.new.unsent ≡ wire.old.unsent ++ spellings (requests_up taken) }
    ensures same { wire.new ≡ record wire.old {
      said = wire.new.said;
      unsent = wire.new.unsent;
      room = wire.new.room;
    } }
{
    match taken {
        Ok(Takings { requests, .. }) => spare.keep(say_each(requests, wire)),
        Err(_) => {}
    }
}
