//! Lists of calls that are made in one hold.
ghost use Rattle.std.specs.Prelude.{◌≡◌, ◌≤◌, [], length, slice_get, vec_capacity};
ghost use Rattle.smx_lane.specs.Conditions.{IsOwn};
ghost use Rattle.smx_shared.specs.Steps.{AreCollected, AreTaken, AreBrought, length_in};

use crate::batch::{BATCH, Collected, Takings};
use smx_history::{Note, Response};
use smx_lane::{Lane, Sent, Settled};
use smx_lock::CriticalSection;
use smx_pdu::{MAX_PDU, Pdu};
use std::collections::VecDeque;

/// The octets of a PDU's header.
const HEADER: usize = 16;

// Collects the client's responses from a box, as many as a list has.
fn collect_each(lane: &mut Lane, by: u64, client: u64, room: Vec<Response>) -> Collected
    requires own { IsOwn lane.old by client }
    requires room { (room.items ≡ []) × (16 ≤ vec_capacity room) }
    ensures { AreCollected by client lane.old result lane.new }
{
    let mut responses = room;
    let mut octets = 0;
    for _ in 0..BATCH {
        let Some(next) = lane.next_response(client) else {
            return Collected {
                responses,
                more: false,
            };
        };
        let length = HEADER + next.pdu.body.len();
        if octets + length > MAX_PDU {
            return Collected {
                responses,
                more: true,
            };
        }
        octets += length;
        match lane.collect_response(by, client) {
            Some(response) => responses.push_reserved(response),
            None => unreachable!(),
        }
    }
    Collected {
        responses,
        more: true,
    }
}

// The octets of the next request's PDU, or 0 where none is queued.
fn next_length(lane: &Lane) -> usize
    ensures next { result ≡ length_in (slice_get lane.now.queue 0) }
    ensures short { result ≤ 65536 }
{
    match lane.next_request() {
        Some(next) => HEADER + next.body.len(),
        None => 0,
    }
}

// Takes from the queue, as many requests as a list has.
fn take_each(lane: &mut Lane, by: u64, now: u64, room: Vec<Sent>) -> Takings
    requires room { (room.items ≡ []) × (16 ≤ vec_capacity room) }
    ensures { AreTaken by now lane.old result lane.new }
{
    let mut requests = room;
    let mut octets = 0;
    for _ in 0..BATCH {
        let length = next_length(lane);
        if octets + length > MAX_PDU {
            return Takings {
                requests,
                stop: None,
            };
        }
        match lane.take(by, now) {
            Ok(sent) => requests.push_reserved(sent),
            Err(refusal) => {
                return Takings {
                    requests,
                    stop: Some(refusal),
                };
            }
        }
        octets += length;
    }
    Takings {
        requests,
        stop: None,
    }
}

// What became of a list of responses, which is empty now.
#[derive(Drop)]
pub(crate) struct Brought {
    pub(crate) settled: Vec<Settled>,
    pub(crate) responses: Vec<Pdu>,
}

// Brings each of these responses.
fn answer_each(lane: &mut Lane, by: u64, responses: Vec<Pdu>, room: Vec<Settled>) -> Brought
    requires room { (room.items ≡ []) × (length responses.items ≤ vec_capacity room) }
    ensures { AreBrought by responses.items lane.old result.settled.items lane.new }
{
    let mut settled = room;
    let mut left = VecDeque::from_vec(responses);
    while let Some(response) = left.pop_front() {
        settled.push_reserved(lane.answer_response(by, response));
    }
    Brought {
        settled,
        responses: left.into_vec(),
    }
}

// Collects what waits for a client.
#[derive(Drop)]
pub(crate) struct CollectingAll {
    pub(crate) client: u64,
    // Empty, with room for a list.
    pub(crate) room: Vec<Response>,
}

impl CriticalSection<Lane, Note> for CollectingAll {
    ghost use Rattle.std.specs.Prelude.{◌≡◌, ◌≤◌, [], vec_capacity};
    ghost use Rattle.smx_lane.specs.Conditions.{IsOwn};
    ghost use Rattle.smx_shared.specs.Steps.{AreCollected, collects_of};

    type Answer = Collected;

    ghost may = { λ s by lane. IsOwn lane by s.client × (s.room.items ≡ [])
        × (16 ≤ vec_capacity s.room) };

    ghost does = { λ s by old answer new. AreCollected by s.client old answer new };

    ghost notes = { λ s by old answer. collects_of by s.client answer.responses.items };

    fn run(self, value: &mut Lane, number: u64) -> Collected {
        let CollectingAll { client, room } = self;
        collect_each(value, number, client, room)
    }
}

// Takes what is queued.
#[derive(Drop)]
pub(crate) struct TakingAll {
    pub(crate) now: u64,
    // Empty, with room for a list.
    pub(crate) room: Vec<Sent>,
}

impl CriticalSection<Lane, Note> for TakingAll {
    ghost use Rattle.std.specs.Prelude.{◌≡◌, ◌≤◌, [], vec_capacity};
    ghost use Rattle.smx_shared.specs.Steps.{AreTaken, takes_of};

    type Answer = Takings;

    ghost may = { λ s by lane. (s.room.items ≡ []) × (16 ≤ vec_capacity s.room) };

    ghost does = { λ s by old answer new. AreTaken by s.now old answer new };

    ghost notes = { λ s by old answer. takes_of old by s.now answer.requests.items };

    fn run(self, value: &mut Lane, number: u64) -> Takings {
        let TakingAll { now, room } = self;
        take_each(value, number, now, room)
    }
}

// Brings responses.
#[derive(Drop)]
pub(crate) struct BringingAll {
    pub(crate) responses: Vec<Pdu>,
    // Empty, with room for what becomes of each.
    pub(crate) room: Vec<Settled>,
}

impl CriticalSection<Lane, Note> for BringingAll {
    ghost use Rattle.std.specs.Prelude.{◌≡◌, ◌≤◌, [], length, vec_capacity};
    ghost use Rattle.smx_shared.specs.Batches.{answers_of};
    ghost use Rattle.smx_shared.specs.Steps.{AreBrought};

    type Answer = Brought;

    ghost may = { λ s by lane. (s.room.items ≡ [])
        × (length s.responses.items ≤ vec_capacity s.room) };

    ghost does = { λ s by old answer new.
        AreBrought by s.responses.items old answer.settled.items new };

    ghost notes = { λ s by old answer.
        answers_of by s.responses.items answer.settled.items };

    fn run(self, value: &mut Lane, number: u64) -> Brought {
        let BringingAll { responses, room } = self;
        answer_each(value, number, responses, room)
    }
}
