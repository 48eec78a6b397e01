//! Lists of calls in one hold: at most 16, and at most 65,536 octets of PDUs.

use super::*;
use crate::hall::last_line;
use crate::stand::body_of;
use smx_history::{Answered, Response, TakeRefusal};
use smx_lane::Settled;
use smx_pdu::command::{RESPONSE, SUBMIT_SM};
use smx_shared::{BATCH, Collected, Landing, Offer, SpareList, SubmitFault, Takings};
use std::test::*;

// A lane that all 20 requests find room on.
const LIMITS: Limits = Limits {
    queue: 100,
    window: 100,
    client: 100,
    history: 1_000,
};

// How many requests are one list of 16, and one of 4.
const REQUESTS: u32 = 20;

// A client's own number of its request of this ordinal.
fn own_of(ordinal: u32) -> u32 {
    ordinal.saturating_add(100)
}

impl Client<'_> {
    // Submits so many requests with this body.
    fn submit_list<R: Wait + Abort>(&mut self, rt: &R, alloc: Global, count: u32, octets: usize) {
        for ordinal in 1..=count {
            let body = body_of(rt, alloc, b"", octets);
            assert!(rt; self.submit(rt, own_of(ordinal), body) == Ok(0));
        }
    }

    // Offers so many requests in one list.
    fn offer_list<R: Wait + Abort>(&mut self, rt: &R, alloc: Global, count: u32) -> Vec<Landing> {
        let mut offers = Vec::new(alloc);
        for ordinal in 1..=count {
            let offer = Offer {
                own: own_of(ordinal),
                command: SUBMIT_SM,
                body: Body::empty(alloc),
            };
            offers.push(offer).expect(rt, "out of memory");
        }
        let room = Vec::with_capacity(alloc, offers.len()).expect(rt, "out of memory");
        if self.port.lanes() != 1 {
            panic!(rt; "there is one lane");
        }
        match self
            .port
            .submit_all(self.at, rt, offers, room, &mut SpareList::new())
        {
            Ok(landings) => landings,
            Err(_) => panic!(rt; "tickets are left"),
        }
    }

    fn collect_list<R: Wait + Abort>(&mut self, rt: &R, alloc: Global) -> Collected {
        let room = Vec::with_capacity(alloc, BATCH).expect(rt, "out of memory");
        if self.port.lanes() == 0 {
            panic!(rt; "there is one lane");
        }
        match self.port.collect_all(self.at, rt, 0, room) {
            Ok(collected) => collected,
            Err(Spent) => panic!(rt; "tickets are left"),
        }
    }
}

impl Line<'_> {
    fn take_list<R: Wait + Abort>(&mut self, rt: &R, alloc: Global) -> Takings {
        let room = Vec::with_capacity(alloc, BATCH).expect(rt, "out of memory");
        match self.tap.take_all(self.at, rt, 0, room) {
            Ok(taken) => taken,
            Err(Spent) => panic!(rt; "tickets are left"),
        }
    }

    // Takes so many requests, one after another. The lane's first numbers upstream are 1, 2 and on.
    fn take_each<R: Wait + Abort>(&mut self, rt: &R, count: u32) {
        for number in 1..=count {
            assert!(rt; taken(self.tap.take(self.at, rt, 0)) == Ok((1, number)));
        }
    }

    // Answers so many of client 1's requests, one after another, with this body.
    fn answer_each<R: Wait + Abort>(&mut self, rt: &R, alloc: Global, count: u32, octets: usize) {
        for number in 1..=count {
            let body = body_of(rt, alloc, b"", octets);
            assert!(rt; self.answer(rt, number, body) == Brought::To(1));
        }
    }

    fn answer_list<R: Wait + Abort>(
        &mut self,
        rt: &R,
        alloc: Global,
        responses: Vec<Pdu>,
    ) -> Vec<Settled> {
        let room = Vec::with_capacity(alloc, responses.len()).expect(rt, "out of memory");
        match self
            .tap
            .answer_all(self.at, rt, responses, room, &mut SpareList::new())
        {
            Ok(settled) => settled,
            Err(_) => panic!(rt; "tickets are left"),
        }
    }
}

// Whether these are so many responses to the client's requests from this ordinal on, in order.
fn are_to(responses: &[Response], first: u32, count: usize) -> bool {
    let mut ordinal = first;
    for response in responses {
        if response.ordinal != ordinal as u64 || response.pdu.number != own_of(ordinal) {
            return false;
        }
        ordinal = ordinal.saturating_add(1);
    }
    responses.len() == count
}

// Whether these are so many requests of client 1 from this ordinal on, in order, each under the number
// upstream that is its ordinal.
fn are_those(requests: &[Sent], first: u32, count: usize) -> bool {
    let mut ordinal = first;
    for sent in requests {
        let request = &sent.request;
        let own = request.client == 1 && request.own == own_of(ordinal);
        if !own || request.ordinal != ordinal as u64 || sent.upstream != ordinal {
            return false;
        }
        ordinal = ordinal.saturating_add(1);
    }
    requests.len() == count
}

// A client's 20 responses are a list of 16, behind which more may wait, and one of 4, behind which none
// is left.
#[test]
fn client_collects_lists(rt: HostRuntime) {
    let alloc = rt.alloc();
    let Hall {
        exchange,
        mut door,
        taps,
    } = Hall::new(&rt, alloc, LIMITS, 1, Starts::FIRST);
    let mut line = last_line(&rt, &exchange, taps);
    let mut client = enter(&rt, &exchange, &mut door).expect(&rt, "no client");
    client.submit_list(&rt, alloc, REQUESTS, 0);
    line.take_each(&rt, REQUESTS);
    line.answer_each(&rt, alloc, REQUESTS, 0);
    let first = client.collect_list(&rt, alloc);
    assert!(rt; are_to(&first.responses, 1, 16) && first.more);
    let second = client.collect_list(&rt, alloc);
    assert!(rt; are_to(&second.responses, 17, 4) && !second.more);
    let third = client.collect_list(&rt, alloc);
    assert!(rt; third.responses.is_empty() && !third.more);
}

// 20 requests are a list of 16, behind which more may be queued, and one of 4, behind which the queue is
// empty.
#[test]
fn tap_takes_lists(rt: HostRuntime) {
    let alloc = rt.alloc();
    let Hall {
        exchange,
        mut door,
        taps,
    } = Hall::new(&rt, alloc, LIMITS, 1, Starts::FIRST);
    let mut line = last_line(&rt, &exchange, taps);
    let mut client = enter(&rt, &exchange, &mut door).expect(&rt, "no client");
    client.submit_list(&rt, alloc, REQUESTS, 0);
    let first = line.take_list(&rt, alloc);
    assert!(rt; are_those(&first.requests, 1, 16) && first.stop.is_none());
    let second = line.take_list(&rt, alloc);
    assert!(rt; are_those(&second.requests, 17, 4));
    assert!(rt; second.stop == Some(TakeRefusal::QueueEmpty));
}

// With a body of 30,000 octets a PDU has 30,016: two have 60,032, which is within 65,536, and a third
// goes beyond it.
#[test]
fn lists_keep_to_their_octets(rt: HostRuntime) {
    let alloc = rt.alloc();
    let Hall {
        exchange,
        mut door,
        taps,
    } = Hall::new(&rt, alloc, LIMITS, 1, Starts::FIRST);
    let mut line = last_line(&rt, &exchange, taps);
    let mut client = enter(&rt, &exchange, &mut door).expect(&rt, "no client");
    client.submit_list(&rt, alloc, 3, 30_000);
    let two = line.take_list(&rt, alloc);
    assert!(rt; are_those(&two.requests, 1, 2) && two.stop.is_none());
    let one = line.take_list(&rt, alloc);
    assert!(rt; are_those(&one.requests, 3, 1));
    assert!(rt; one.stop == Some(TakeRefusal::QueueEmpty));
    line.answer_each(&rt, alloc, 3, 30_000);
    let two = client.collect_list(&rt, alloc);
    assert!(rt; are_to(&two.responses, 1, 2) && two.more);
    let one = client.collect_list(&rt, alloc);
    assert!(rt; are_to(&one.responses, 3, 1) && !one.more);
}

// submit_sm_resp under each of these numbers upstream.
fn responses_to(rt: &impl Abort, alloc: Global, numbers: &[u32]) -> Vec<Pdu> {
    let mut responses = Vec::new(alloc);
    for number in numbers {
        let response = Pdu {
            command: RESPONSE | SUBMIT_SM,
            status: 0,
            number: *number,
            body: Body::empty(alloc),
        };
        responses.push(response).expect(rt, "out of memory");
    }
    responses
}

// Whether the response was queued for this client, whose request has this ordinal.
fn is_queued(settled: &Settled, to: u64, ordinal: u64) -> bool {
    let queued = match &settled.answered {
        Answered::Queued { client } => *client == to,
        _ => false,
    };
    queued && settled.ordinal == ordinal
}

// Whether the response, which had this number, answers no request.
fn is_unknown(settled: &Settled, number: u32) -> bool {
    let unknown = match &settled.answered {
        Answered::Unknown(response) => response.number == number,
        _ => false,
    };
    unknown && settled.ordinal == 0
}

// Client 1's requests go up under the numbers 1 and 2, client 2's under 3; 99 was given to none.
#[test]
fn list_of_answers_is_settled_in_order(rt: HostRuntime) {
    let alloc = rt.alloc();
    let Hall {
        exchange,
        mut door,
        taps,
    } = Hall::new(&rt, alloc, LIMITS, 1, Starts::FIRST);
    let mut line = last_line(&rt, &exchange, taps);
    let mut first = enter(&rt, &exchange, &mut door).expect(&rt, "no client");
    let mut second = enter(&rt, &exchange, &mut door).expect(&rt, "no client");
    first.submit_list(&rt, alloc, 2, 0);
    second.submit_list(&rt, alloc, 1, 0);
    assert!(rt; line.take_list(&rt, alloc).requests.len() == 3);
    let responses = responses_to(&rt, alloc, &[3, 99, 2]);
    let settled = line.answer_list(&rt, alloc, responses);
    let [to_second, to_none, to_first] = settled.as_slice() else {
        panic!(&rt; "each response is told of");
    };
    assert!(rt; is_queued(to_second, 2, 1));
    assert!(rt; is_unknown(to_none, 99));
    assert!(rt; is_queued(to_first, 1, 2));
    assert!(rt; told(second.collect(&rt, 0)) == Ok(Some((0, 101))));
    assert!(rt; told(first.collect(&rt, 0)) == Ok(Some((0, 102))));
    assert!(rt; told(first.collect(&rt, 0)) == Ok(None));
}

// The lane accepted the request, and wasn't turned over for it.
fn has_landed(landing: &Landing) -> bool {
    matches!(&landing.landed, Ok(0)) && !landing.turned
}

// The lane was full for the request, which comes back.
fn came_back(landing: &Landing, own: u32) -> bool {
    match &landing.landed {
        Err((offer, SubmitFault::AllFull)) => offer.own == own && !landing.turned,
        _ => false,
    }
}

// Of three offers in one list to a lane that takes two of a client's requests the third comes back. Its
// ordinal is that of the next that is accepted.
#[test]
fn list_of_submits_lands_in_order(rt: HostRuntime) {
    let alloc = rt.alloc();
    let limits = Limits {
        client: 2,
        ..LIMITS
    };
    let Hall {
        exchange,
        mut door,
        taps,
    } = Hall::new(&rt, alloc, limits, 1, Starts::FIRST);
    let mut line = last_line(&rt, &exchange, taps);
    let mut client = enter(&rt, &exchange, &mut door).expect(&rt, "no client");
    let landings = client.offer_list(&rt, alloc, 3);
    let [first, second, third] = landings.as_slice() else {
        panic!(&rt; "each offer is told of");
    };
    assert!(rt; has_landed(first) && has_landed(second) && came_back(third, 103));
    let two = line.take_list(&rt, alloc);
    assert!(rt; are_those(&two.requests, 1, 2));
    line.answer_each(&rt, alloc, 2, 0);
    assert!(rt; client.collect_list(&rt, alloc).responses.len() == 2);
    assert!(rt; client.submit(&rt, own_of(3), Body::empty(alloc)) == Ok(0));
    let one = line.take_list(&rt, alloc);
    let [third] = one.requests.as_slice() else {
        panic!(&rt; "one request is queued");
    };
    assert!(rt; third.request.ordinal == 3 && third.request.own == 103);
}
